//! The texts of replies.

ghost use Rattle.std.specs.Prelude.{◌≡◌, [], false, option_map, IfOk};
ghost use Rattle.serde_json.specs.Data.{string};
ghost use Rattle.serde_json.specs.Written.{has_float};
ghost use Rattle.qo_commands.specs.Commands.{empty as nothing, line_answer};
ghost use Rattle.qo_commands.specs.Views.{body_data, data_of, has_float_in};
ghost use Rattle.qo_machine.specs.Machine.{answer_line, reply};
ghost use Rattle.qo_model.specs.Board.{Board as Tree};
ghost use Rattle.qo_realize.specs.Representation.{Stands};
ghost use Rattle.qo_replies.specs.Replies.{return_reply};

use qo_commands::{ReplyBody, answer_written, listing_text, refusal_line, time_written};
use qo_guest::{GuestAnswer, answer_text};
use qo_heap::Steps;
use qo_realize::Board;
use qo_replies::{error_text, return_text, return_written};
use qo_values::{Chars, Code, Text};
use serde_json::Value;
use std::alloc::{AllocError, Global};
use std::sync::ledger::Ledger;

/// The texts of what commands return most often.
pub(crate) const EMPTY: &str = "{}";

/// The text that a line of the monitor returns whose command was done.
pub(crate) const NOTHING_TOLD: &str = "\"\"";

const RUNNING: &str = "{\"running\":true,\"status\":\"running\"}";

const PAUSED: &str = "{\"running\":false,\"status\":\"paused\"}";

/// The reply to a command that was done. No number of what it returns has a fraction.
#[tactic(auto, using(qo_commands::proofs::CommandLemmas::empty_written, qo_commands::proofs::CommandLemmas::running_written, qo_commands::proofs::CommandLemmas::paused_written))]
fn done_text<L: Ledger>(
    alloc: Global,
    board: &Board,
    id: Option<&Text>,
    body: &ReplyBody,
    steps: &mut Steps<L>,
) -> Result<Chars, AllocError>
    ensures { (b : Tree) → Stands b board.now → IfOk result (λ text. has_float (body_data b body.now) ≡ false → text ≡ return_reply (option_map (λ id. id.now) id.entry) (body_data b body.now)) }
{
    match body {
        ReplyBody::Empty => return_written(alloc, id, EMPTY),
        ReplyBody::Status(true) => return_written(alloc, id, RUNNING),
        ReplyBody::Status(false) => return_written(alloc, id, PAUSED),
        ReplyBody::Listing(birth) => {
            let text = listing_text(alloc, board, *birth, steps)?;
            return_written(alloc, id, text.as_str())
        }
        ReplyBody::Answer(answer) => {
            let text = answer_written(alloc, answer)?;
            return_written(alloc, id, text.as_str())
        }
        ReplyBody::Time(now) => {
            let text = time_written(alloc, *now)?;
            return_written(alloc, id, text.as_str())
        }
        ReplyBody::Told(text) => {
            let value = Value::try_from_str(alloc, text.as_str())?;
            return_text(alloc, id, &value)
        }
        ReplyBody::Value(whole) => return_text(alloc, id, whole.value()),
    }
}

/// The text of a reply.
#[inline(always)]
pub(crate) fn reply_text<L: Ledger>(
    alloc: Global,
    board: &Board,
    id: Option<&Text>,
    outcome: &Result<ReplyBody, Code>,
    steps: &mut Steps<L>,
) -> Result<Chars, AllocError>
    ensures { (b : Tree) → Stands b board.now → IfOk result (λ text. has_float_in (data_of b outcome.now) ≡ false → text ≡ reply (option_map (λ id. id.now) id.entry) (data_of b outcome.now)) }
{
    match outcome {
        Ok(body) => done_text(alloc, board, id, body, steps),
        Err(code) => error_text(alloc, id, *code),
    }
}

/// The text of the reply to a command that changed the board, where that which says that nothing is
/// returned was made before.
pub(crate) fn changed_text<L: Ledger>(
    alloc: Global,
    board: &Board,
    id: Option<&Text>,
    empty: Chars,
    outcome: &Result<ReplyBody, Code>,
    steps: &mut Steps<L>,
) -> Result<Chars, AllocError>
    requires { empty ≡ return_reply (option_map (λ id. id.now) id) nothing }
    ensures { (b : Tree) → Stands b board.now → IfOk result (λ text. has_float_in (data_of b outcome.now) ≡ false → text ≡ reply (option_map (λ id. id.now) id.entry) (data_of b outcome.now)) }
{
    match outcome {
        Ok(ReplyBody::Empty) => Ok(empty),
        other => reply_text(alloc, board, id, other, steps),
    }
}

/// The text of the reply to a line of the monitor that has a command, where that which says that it was done
/// was made before.
pub(crate) fn line_text(
    alloc: Global,
    id: Option<&Text>,
    told: Chars,
    outcome: &Result<ReplyBody, Code>,
) -> Result<Chars, AllocError>
    requires { told ≡ return_reply (option_map (λ id. id.now) id) (string []) }
    ensures { (b : Tree) → IfOk result (λ text. text ≡ return_reply (option_map (λ id. id.now) id.entry) (string (line_answer (data_of b outcome.now)))) }
{
    match outcome {
        Ok(_) => Ok(told),
        Err(code) => {
            let text = refusal_line(alloc, *code)?;
            let value = Value::try_from_str(alloc, text.as_str())?;
            return_text(alloc, id, &value)
        }
    }
}

/// A line feed ends each answer to the guest.
const LINE_FEED: u8 = 10;

/// The text of an answer to the guest, with its line feed.
pub(crate) fn guest_text(alloc: Global, answer: &GuestAnswer) -> Result<Chars, AllocError>
    ensures { IfOk result (λ text. text ≡ answer_line answer.now) }
{
    let text = answer_text(alloc, answer)?;
    let mut line = Vec::from_slice(alloc, text.as_slice())?;
    line.push(LINE_FEED)?;
    Ok(Chars::from_vec(line))
}
