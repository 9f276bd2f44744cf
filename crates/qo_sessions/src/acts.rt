//! What an item of a session comes to.

ghost use Rattle.std.specs.Prelude.{◌≡◌};
ghost use Rattle.qo_sessions.specs.Acts.{asked, demand, is_no_command, negotiate, offered, refusal_code};

use crate::modes::Mode;
use qo_requests::{Call, Parsed, Request};
use qo_values::{Code, Text, TextList};

/// What an item comes to. The id is the member `id` of the message, as its text in a reply.
#[derive(Debug, Drop)]
pub enum SessionAct {
    /// It is refused with a code.
    Answer(Code, Option<Text>),
    /// The session has negotiated.
    Negotiated(Option<Text>),
    /// A command is to be done.
    Do(Call, Option<Text>),
}

/// What a negotiation with these capabilities comes to: none is offered.
fn offered(enable: Option<TextList>, id: Option<Text>) -> SessionAct
    ensures { result ≡ offered enable id }
{
    match enable {
        Some(names) if !names.as_slice().is_empty() => SessionAct::Answer(Code::E11, id),
        _ => SessionAct::Negotiated(id),
    }
}

/// What a request comes to before the negotiation.
fn negotiate(request: Request, id: Option<Text>) -> SessionAct
    ensures { result ≡ negotiate request id }
{
    match request {
        Request::QmpCapabilities { enable } => offered(enable, id),
        Request::Call(_) => SessionAct::Answer(Code::E8, id),
    }
}

/// What a request comes to after the negotiation.
fn demand(request: Request, id: Option<Text>) -> SessionAct
    ensures { result ≡ demand request id }
{
    match request {
        Request::QmpCapabilities { enable: _ } => SessionAct::Answer(Code::E9, id),
        Request::Call(call) => SessionAct::Do(call, id),
    }
}

/// What a message that was read comes to.
pub(crate) fn asked(mode: Mode, parsed: Parsed) -> SessionAct
    ensures { result ≡ asked mode parsed.request parsed.id }
{
    let Parsed { id, request } = parsed;
    match mode {
        Mode::Commanding => demand(request, id),
        _ => negotiate(request, id),
    }
}

/// The code of a message that is refused: the mode is looked at before a command's name and arguments.
pub(crate) fn refusal_code(mode: Mode, negotiates: bool, code: Code) -> Code
    ensures { result ≡ refusal_code (is_no_command code) mode negotiates code }
{
    match (code, mode, negotiates) {
        (Code::E1 | Code::E6 | Code::E7, _, _) => code,
        (_, Mode::Commanding, true) => Code::E9,
        (_, Mode::Commanding, false) | (_, _, true) => code,
        (_, _, false) => Code::E8,
    }
}
