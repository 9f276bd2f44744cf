//! The limits of the profile, as named numbers.

/// Live objects at once; one more is refused as E43.
pub const LIVE_OBJECTS_MAX: u64 = 65_536;

/// Sessions at once, numbered from 0.
pub const SESSIONS: u8 = 16;

/// Bytes of one message; a longer one is refused as E4.
pub const MESSAGE_MAX: u64 = 262_144;

/// Nesting depth of one message; a deeper one is refused as E5.
pub const NESTING_MAX: u64 = 64;

/// Slots of a bus, numbered from 0; a number above is E28, and a full bus E30.
pub const BUS_SLOTS: u8 = 8;

/// Depth of a bus below `root.0`; a bridge whose bus would be deeper is E42.
pub const BUS_DEPTH_MAX: u64 = 8;

/// Notices that wait for the guest; one more is E44.
pub const NOTICES_MAX: u64 = 64;

/// The greatest count of holds before an explicit hold; a count above refuses the hold as E48.
pub const HOLD_COUNT_MAX: u64 = 48;

/// Notes kept for `x-query-notes`; older ones are not given.
pub const NOTES_KEPT: u64 = 1_048_576;

/// How long after a removal was asked for it may be asked for again, in ns of the virtual time.
pub const ASK_AGAIN_AFTER: u64 = 5_000_000_000;

/// Notes in one reply to `x-query-notes`.
pub const NOTES_PER_REPLY: u64 = 256;

/// The greatest virtual time, in ns; a step past it is E53.
pub const TIME_MAX: u64 = 9_223_372_036_854_775_807;

/// Bytes of a guest line; a longer one is answered `no line`.
pub const GUEST_LINE_MAX: u64 = 256;

/// The greatest size of a ring, in bytes; a greater one is E51.
pub const RING_SIZE_MAX: u64 = 1_048_576;

/// Inputs of one run; a run that takes so many without an end ends as its input limit.
pub const INPUTS_MAX: u64 = 1_000_000_000;

/// Bytes of the longest id.
pub const ID_MAX: usize = 128;

/// Bytes of the longest name of a slot.
pub const NAME_MAX: usize = 140;

/// The last value of a register that counts; a count stays there.
pub const COUNT_MAX: u32 = u32::MAX;

/// RELOAD of a timer at birth and after Enter.
pub const RELOAD_AT_FIRST: u32 = u32::MAX;

/// Units of a clock's period in a nanosecond.
pub const UNITS_PER_NS: u64 = 4_294_967_296;

/// The period of the system clock at the beginning: 10 ns, in units of 2^-32 ns.
pub const SYSTEM_PERIOD: u64 = 42_949_672_960;

/// What the address and the size of a memory device are multiples of, in bytes.
pub const DIMM_ALIGN: u64 = 4_096;

/// The greatest size of a memory backend, in bytes.
pub const BACKEND_SIZE_MAX: u64 = 1_099_511_627_776;

/// The size of a memory backend to which none was given, in bytes.
pub const BACKEND_SIZE_AT_FIRST: u64 = 1_048_576;
