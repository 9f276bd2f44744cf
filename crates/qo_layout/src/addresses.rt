//! Where the parts of the memory map stand, and how large they are.

/// Bytes of all addresses of a board.
pub const ROOT_SIZE: u64 = 281_474_976_710_656;

/// What the boot region shows: no object is born as 0.
pub const BOOT_LEAF: u64 = 0;

/// Bytes of the boot region, at address 0.
pub const BOOT_SIZE: u64 = 65_536;

/// Bytes of the low addresses, at which the memory shows too, from its start.
pub const LOW_SIZE: u64 = 2_147_483_648;

/// Where the memory begins, and how many bytes of it there may be.
pub const MEMORY_AT: u64 = 4_294_967_296;

pub const MEMORY_SIZE: u64 = 68_719_476_736;

/// Where the slots of the root bus begin.
pub const SLOTS_AT: u64 = 17_592_186_044_416;

/// Bytes of a device in a slot.
pub const DEVICE_SIZE: u64 = 4_096;

/// How many registers of 4 bytes have room there.
pub const DEVICE_REGISTERS: u64 = 1_024;
