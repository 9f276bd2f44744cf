//! Where a device stands on its bus, and what it claims beside its slot there.

use qo_values::{Id, Range};

/// The memory of a DIMM.
#[derive(Clone, Copy, Debug, PartialEq, Eq)]
pub struct Memory {
    /// The birth of its memory backend.
    pub backend: u64,
    /// The range of addresses where it stands.
    pub range: Range,
}

/// Where a device stands on its bus, and what it claims besides.
#[derive(Drop)]
pub struct Resources {
    /// Its slot of the bus.
    pub slot: u8,
    /// The id of the ring that a UART claims.
    pub ring: Option<Id>,
    /// The memory of a DIMM.
    pub memory: Option<Memory>,
}
