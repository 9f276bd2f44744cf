//! Ranges of addresses.

/// A range of addresses.
#[derive(Clone, Copy, Debug, PartialEq, Eq)]
pub struct Range {
    /// The first address.
    pub at: u64,
    /// How many bytes it has.
    pub size: u64,
}
