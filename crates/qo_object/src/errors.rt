//! The error of this crate's calls.

use std::alloc::AllocError;
use thiserror::Error;

/// Why no slot was added.
#[derive(Clone, Copy, Debug, PartialEq, Eq, Error)]
pub enum AddError {
    /// There is a slot of that name.
    #[error("duplicate property")]
    Duplicate,
    /// There was not enough memory, or the object has 2^32 slots.
    #[error("not enough memory")]
    Memory,
}

impl From<AllocError> for AddError {
    ghost use Rattle.std.specs.Prelude.{◌≡◌};
    ghost use Rattle.qo_object.specs.declared.errors.AddError.TheVariants.{Memory};

    ghost from_gives = { λ _ e. e ≡ Memory };

    fn from(_error: AllocError) -> AddError {
        AddError::Memory
    }
}
