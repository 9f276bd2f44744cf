//! Why a device is not added.

use qo_values::Code;
use std::alloc::AllocError;
use thiserror::Error;

/// Why a device is refused once its type, its id and its bus are settled.
#[derive(Clone, Copy, Debug, PartialEq, Eq, Error)]
#[error("refused")]
pub struct Barred {
    /// The stage of adding at which it is refused.
    pub stage: u8,
    /// The code of the error reply.
    pub code: Code,
}

/// Why a device is not added.
#[derive(Clone, Copy, Debug, PartialEq, Eq, Error)]
pub enum AddRefusal {
    /// It is refused.
    #[error("refused")]
    Refused {
        /// The stage of adding at which it is refused.
        stage: u8,
        /// The code of the error reply.
        code: Code,
    },
    /// There was not enough memory.
    #[error("not enough memory")]
    Memory,
}

impl From<AllocError> for AddRefusal {
    ghost use Rattle.std.specs.Prelude.{◌≡◌};
    ghost use Rattle.qo_plug.specs.declared.refusals.AddRefusal.TheVariants as refusal;

    ghost from_gives = { λ error made. made ≡ refusal.Memory };

    fn from(_error: AllocError) -> AddRefusal {
        AddRefusal::Memory
    }
}
