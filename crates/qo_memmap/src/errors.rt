//! The error of adding a region.

use std::alloc::AllocError;
use thiserror::Error;

/// Why no region was added.
#[derive(Clone, Copy, Debug, PartialEq, Eq, Error)]
pub enum MapError {
    /// The size is 0, or it, a child's place or an alias's offset is above `ADDRESS_LIMIT`.
    #[error("out of range")]
    BadRange,
    /// The region names one that is not there.
    #[error("no such region")]
    BadRef,
    /// Regions would stand in one another more than `MAX_RANK` deep.
    #[error("nested too deep")]
    TooDeep,
    /// The map has as many regions as it may have.
    #[error("too many regions")]
    Full,
    /// Memory ran out.
    #[error("not enough memory")]
    Memory,
}

impl From<AllocError> for MapError {
    ghost use Rattle.std.specs.Prelude.{◌≡◌};
    ghost use Rattle.qo_memmap.specs.declared.errors.MapError.TheVariants as refusal;

    ghost from_gives = { λ _ e. e ≡ refusal.Memory };

    fn from(_error: AllocError) -> MapError {
        MapError::Memory
    }
}
