//! The errors of the heap's calls.

use qo_object::AddError;
use std::alloc::AllocError;
use thiserror::Error;

/// Why no object was made.
#[derive(Clone, Copy, Debug, PartialEq, Eq, Error)]
pub enum MakeError {
    /// There are `LIVE_OBJECTS_MAX` live objects.
    #[error("too many objects")]
    Limit,
    /// There was not enough memory, or no birth is left below 2^64.
    #[error("not enough memory")]
    Memory,
}

/// For a caller that has seen that there is room for one more object.
impl From<MakeError> for AllocError {
    fn from(_error: MakeError) -> AllocError {
        AllocError
    }
}

/// Why no slot was added.
#[derive(Clone, Copy, Debug, PartialEq, Eq, Error)]
pub enum SlotError {
    /// The owner has a slot of that name.
    #[error("duplicate property")]
    Duplicate,
    /// The child has a parent.
    #[error("object has a parent")]
    HasParent,
    /// There was not enough memory, or the owner has 2^32 slots.
    #[error("not enough memory")]
    Memory,
}

impl From<AddError> for SlotError {
    ghost use Rattle.std.specs.Prelude.{◌≡◌};
    ghost use Rattle.qo_heap.specs.Errors.{slot_error};

    ghost from_gives = { λ e made. made ≡ slot_error e };

    fn from(error: AddError) -> SlotError {
        match error {
            AddError::Duplicate => SlotError::Duplicate,
            AddError::Memory => SlotError::Memory,
        }
    }
}

/// For a caller that has seen that the name is free, and that the child has no parent.
impl From<SlotError> for AllocError {
    fn from(_error: SlotError) -> AllocError {
        AllocError
    }
}
