//! The errors of reading a ring and of writing to it.

use crate::ring::{AddError, TakeError};
use thiserror::Error;

/// Why no bytes of a ring were taken.
#[derive(Clone, Copy, Debug, PartialEq, Eq, Error)]
pub enum RingTakeError {
    /// There is no ring of the id.
    #[error("no such ring")]
    NotFound,
    /// A byte to be told as it is is 128 or more.
    #[error("bytes not ASCII")]
    NotAscii,
    /// Memory ran out.
    #[error("out of memory")]
    Memory,
}

/// Why no bytes were added to a ring.
#[derive(Clone, Copy, Debug, PartialEq, Eq, Error)]
pub enum RingAddError {
    /// There is no ring of the id.
    #[error("no such ring")]
    NotFound,
    /// The text is not the standard Base64 of any bytes.
    #[error("text not Base64")]
    BadText,
}

impl From<TakeError> for RingTakeError {
    ghost use Rattle.std.specs.Prelude.{◌≡◌};
    ghost use Rattle.qo_chardev.specs.Failures.{take_failure};

    ghost from_gives = { λ e f. f ≡ take_failure e };

    fn from(error: TakeError) -> RingTakeError {
        match error {
            TakeError::NotAscii => RingTakeError::NotAscii,
            TakeError::Memory => RingTakeError::Memory,
        }
    }
}

impl From<AddError> for RingAddError {
    ghost use Rattle.std.specs.Prelude.{◌≡◌};
    ghost use Rattle.qo_chardev.specs.Failures.{add_failure};

    ghost from_gives = { λ e f. f ≡ add_failure e };

    fn from(error: AddError) -> RingAddError {
        match error {
            AddError::BadText => RingAddError::BadText,
        }
    }
}
