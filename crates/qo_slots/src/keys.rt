//! The names of values in a table.

/// The name of a value in a table: the index of its slot, which is used again once the value was
/// taken, and its birth, which never is.
#[derive(Clone, Copy, Debug, PartialEq, Eq)]
pub struct Key {
    /// The slot, from 0.
    pub index: usize,
    /// The number of the `put` that made it, from 1.
    pub birth: u64,
}
