//! The answer of a call that is refused.

use qo_values::Code;
use std::alloc::AllocError;
use thiserror::Error;

/// Why a call is refused.
#[derive(Clone, Copy, Debug, PartialEq, Eq, Error)]
pub enum Refusal {
    /// The code of the error reply.
    #[error("refused")]
    Refused(Code),
    /// There was not enough memory.
    #[error("not enough memory")]
    Memory,
}

impl From<Code> for Refusal {
    ghost use Rattle.std.specs.Prelude.{◌≡◌};
    ghost use Rattle.qo_properties.specs.declared.refusals.Refusal.TheVariants.{Refused};

    ghost from_gives = { λ code made. made ≡ Refused code };

    fn from(code: Code) -> Refusal {
        Refusal::Refused(code)
    }
}

impl From<AllocError> for Refusal {
    ghost use Rattle.std.specs.Prelude.{◌≡◌};
    ghost use Rattle.qo_properties.specs.declared.refusals.Refusal.TheVariants as refusal;

    ghost from_gives = { λ error made. made ≡ refusal.Memory };

    fn from(_error: AllocError) -> Refusal {
        Refusal::Memory
    }
}
