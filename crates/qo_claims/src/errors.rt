//! The error of this crate's calls.

use std::alloc::AllocError;
use thiserror::Error;

/// Why nothing was claimed.
#[derive(Clone, Copy, Debug, PartialEq, Eq, Error)]
pub enum ClaimError {
    /// The bus has no slot of that number, or the range leaves the window.
    #[error("out of range")]
    Range,
    /// It is held already; of a range, that one held overlaps it.
    #[error("held already")]
    Taken,
    /// All slots of the bus are held, or no gap in the window is large enough.
    #[error("nothing free")]
    Full,
    /// Memory ran out.
    #[error("not enough memory")]
    Memory,
}

impl From<AllocError> for ClaimError {
    ghost use Rattle.std.specs.Prelude.{◌≡◌};
    ghost use Rattle.qo_claims.specs.declared.errors.ClaimError.TheVariants as refusal;

    ghost from_gives = { λ _ e. e ≡ refusal.Memory };

    fn from(_error: AllocError) -> ClaimError {
        ClaimError::Memory
    }
}
