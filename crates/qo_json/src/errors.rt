//! Why a text was not read.

use json::Invalid;
use std::alloc::{AllocError, AllocFailed};
use thiserror::Error;

/// Why a text was not read.
#[derive(Clone, Copy, Debug, PartialEq, Eq, Error)]
pub enum JsonError {
    /// It is no JSON in UTF-8, it nests deeper than 127, or a number in it is too large for a float.
    #[error("no JSON")]
    Invalid,
    /// An object in it has more than 64 names.
    #[error("an object has too many members")]
    Wide,
    /// Want of memory.
    #[error("out of memory")]
    Memory,
}

impl From<Invalid> for JsonError {
    ghost use Rattle.std.specs.Prelude.{◌≡◌};
    ghost use Rattle.qo_json.specs.declared.errors.JsonError.TheVariants.{Invalid as invalid};

    ghost from_gives = { λ _ e. e ≡ invalid };

    fn from(_invalid: Invalid) -> JsonError {
        JsonError::Invalid
    }
}

impl From<AllocError> for JsonError {
    ghost use Rattle.std.specs.Prelude.{◌≡◌};
    ghost use Rattle.qo_json.specs.declared.errors.JsonError.TheVariants.{Memory};

    ghost from_gives = { λ _ e. e ≡ Memory };

    fn from(_refused: AllocError) -> JsonError {
        JsonError::Memory
    }
}

impl<T: Drop> From<AllocFailed<T>> for JsonError {
    ghost use Rattle.std.specs.Prelude.{◌≡◌};
    ghost use Rattle.qo_json.specs.declared.errors.JsonError.TheVariants.{Memory};

    ghost from_gives = { λ _ e. e ≡ Memory };

    fn from(_refused: AllocFailed<T>) -> JsonError {
        JsonError::Memory
    }
}
