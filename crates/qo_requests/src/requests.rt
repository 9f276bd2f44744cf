//! What a session asks for.

use crate::calls::{Addition, Alteration, Call, Change, Query};
use qo_values::{Code, Text, TextList};
use std::alloc::AllocError;
use thiserror::Error;

/// What a message asks for.
#[derive(Debug, Drop)]
pub enum Request {
    /// `qmp_capabilities`: that the session negotiates.
    QmpCapabilities {
        /// The capabilities that are asked for.
        enable: Option<TextList>,
    },
    /// Any other command.
    Call(Call),
}

impl Request {
    ghost use Rattle.std.specs.Prelude.{◌≡◌};
    ghost use Rattle.qo_requests.specs.Commands.{queries, adds, alters};

    /// A command that leaves the board.
    pub(crate) fn queries(query: Query) -> Request
        ensures { result ≡ queries query }
    {
        Request::Call(Call::Query(query))
    }

    /// A command that makes objects.
    pub(crate) fn adds(addition: Addition) -> Request
        ensures { result ≡ adds addition }
    {
        Request::Call(Call::Change(Change::Add(addition)))
    }

    /// A command that changes the board and makes no object.
    pub(crate) fn alters(alteration: Alteration) -> Request
        ensures { result ≡ alters alteration }
    {
        Request::Call(Call::Change(Change::Alter(alteration)))
    }
}

/// A message that was read.
#[derive(Debug, Drop)]
pub struct Parsed {
    /// The member `id`, as its text in a reply.
    pub id: Option<Text>,
    /// What is asked for.
    pub request: Request,
}

/// Why a message was not read.
#[derive(Debug, Drop, Error)]
pub enum ReadError {
    /// The message is refused.
    #[error("{code:?}")]
    Refused {
        /// The first that stands of E1, E7, E6, E10, E12, E13 and E14.
        code: Code,
        /// The member `id`, as its text in a reply.
        id: Option<Text>,
        /// Whether `execute` is `qmp_capabilities`.
        negotiates: bool,
    },
    /// Want of memory.
    #[error("out of memory")]
    Memory,
}

impl From<AllocError> for ReadError {
    ghost use Rattle.std.specs.Prelude.{◌≡◌};
    ghost use Rattle.qo_requests.specs.declared.requests.ReadError.TheVariants.{Memory};

    ghost from_gives = { λ _ e. e ≡ Memory };

    fn from(_refused: AllocError) -> ReadError {
        ReadError::Memory
    }
}
