//! Why no board is rebuilt.

use qo_properties::Refusal;
use qo_shape::ShapeError;
use qo_values::Code;
use std::alloc::AllocError;
use thiserror::Error;

/// Why no board is rebuilt.
#[derive(Clone, Copy, Debug, PartialEq, Eq, Error)]
pub enum SaveError {
    /// The text is no description.
    #[error("not a description")]
    Shape,
    /// A call of the board refuses it, with this code.
    #[error("refused")]
    Refused(Code),
    /// Want of memory.
    #[error("out of memory")]
    Memory,
}

impl From<AllocError> for SaveError {
    ghost use Rattle.std.specs.Prelude.{◌≡◌};
    ghost use Rattle.qo_rebuild.specs.declared.errors.SaveError.TheVariants as save;

    ghost from_gives = { λ _ e. e ≡ save.Memory };

    fn from(_refused: AllocError) -> SaveError {
        SaveError::Memory
    }
}

impl From<Refusal> for SaveError {
    ghost use Rattle.std.specs.Prelude.{◌≡◌};
    ghost use Rattle.qo_rebuild.specs.Answers.{refused_as};

    ghost from_gives = { λ refusal e. e ≡ refused_as refusal };

    fn from(refusal: Refusal) -> SaveError {
        match refusal {
            Refusal::Refused(code) => SaveError::Refused(code),
            Refusal::Memory => SaveError::Memory,
        }
    }
}

impl From<ShapeError> for SaveError {
    ghost use Rattle.std.specs.Prelude.{◌≡◌};
    ghost use Rattle.qo_rebuild.specs.Answers.{unread_as};

    ghost from_gives = { λ error e. e ≡ unread_as error };

    fn from(error: ShapeError) -> SaveError {
        match error {
            ShapeError::Shape => SaveError::Shape,
            ShapeError::Memory => SaveError::Memory,
        }
    }
}
