//! Why a text or a value is read as no description.

use std::alloc::{AllocError, AllocFailed};
use thiserror::Error;

/// Why a text or a value is read as no description.
#[derive(Clone, Copy, Debug, PartialEq, Eq, Error)]
pub enum ShapeError {
    /// It is none: it is no JSON in UTF-8, a member is missing or stands beside those of a description,
    /// or one is of another kind.
    #[error("not a description")]
    Shape,
    /// Want of memory.
    #[error("out of memory")]
    Memory,
}

impl From<AllocError> for ShapeError {
    ghost use Rattle.std.specs.Prelude.{◌≡◌};
    ghost use Rattle.qo_shape.specs.declared.errors.ShapeError.TheVariants.{Memory};

    ghost from_gives = { λ _ e. e ≡ Memory };

    fn from(_refused: AllocError) -> ShapeError {
        ShapeError::Memory
    }
}

impl<T: Drop> From<AllocFailed<T>> for ShapeError {
    ghost use Rattle.std.specs.Prelude.{◌≡◌};
    ghost use Rattle.qo_shape.specs.declared.errors.ShapeError.TheVariants.{Memory};

    ghost from_gives = { λ _ e. e ≡ Memory };

    fn from(_refused: AllocFailed<T>) -> ShapeError {
        ShapeError::Memory
    }
}
