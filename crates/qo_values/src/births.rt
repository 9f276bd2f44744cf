//! The births of the objects that every machine begins with. Births rise from 1, and none is used
//! twice.

/// The root container, at `/`. It alone is pinned at the beginning.
pub const ROOT_BIRTH: u64 = 1;

/// The machine, at `/machine`.
pub const MACHINE_BIRTH: u64 = 2;

/// The container of devices with an id, at `/machine/peripheral`.
pub const PERIPHERAL_BIRTH: u64 = 3;

/// The container of devices without an id, at `/machine/peripheral-anon`.
pub const ANONYMOUS_BIRTH: u64 = 4;

/// The system clock, at `/machine/sysclk`.
pub const SYSTEM_CLOCK_BIRTH: u64 = 5;

/// The root bus, at `/machine/root.0`.
pub const ROOT_BUS_BIRTH: u64 = 6;

/// The bus of memory devices, at `/machine/mem.0`.
pub const MEMORY_BUS_BIRTH: u64 = 7;

/// The container of users' objects, at `/objects`.
pub const OBJECTS_BIRTH: u64 = 8;

/// How many objects a machine begins with; a new object is born after them.
pub const OPENING_OBJECTS: u64 = 8;
