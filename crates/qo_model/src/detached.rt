//! Objects without a parent, as they are told.

use qo_values::TypeId;

/// An object without a parent, other than `/`.
#[derive(Clone, Copy, Debug, PartialEq, Eq)]
pub struct Detached {
    /// Its birth.
    pub birth: u64,
    /// How many child slots, strong links and pins name it.
    pub refs: u64,
    /// Its type.
    pub kind: TypeId,
}
