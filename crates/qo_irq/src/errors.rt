//! The error of adding a line.

use std::alloc::AllocError;
use thiserror::Error;

/// Why no line was added.
#[derive(Clone, Copy, Debug, PartialEq, Eq, Error)]
pub enum NetError {
    /// The gate names a line that is not there.
    #[error("no such line")]
    BadRef,
    /// The net has as many lines as it may have.
    #[error("too many lines")]
    Full,
    /// Memory ran out.
    #[error("not enough memory")]
    Memory,
}

impl From<AllocError> for NetError {
    ghost use Rattle.std.specs.Prelude.{◌≡◌};
    ghost use Rattle.qo_irq.specs.declared.errors.NetError.TheVariants as refusal;

    ghost from_gives = { λ _ e. e ≡ refusal.Memory };

    fn from(_error: AllocError) -> NetError {
        NetError::Memory
    }
}
