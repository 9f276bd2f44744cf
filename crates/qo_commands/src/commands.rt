//! Commands that leave the board: what each returns, or the code that refuses it.

ghost use Rattle.std.specs.Prelude.{◌≡◌, [], ◌∷◌, false, true, Err, Ok, IfOk};
ghost use Rattle.qo_model.specs.Board.{Board as Tree};
ghost use Rattle.serde_json.specs.View.{view};
ghost use Rattle.serde_json.specs.Written.{has_float};
ghost use Rattle.qo_replies.specs.declared.events.Event.TheVariants as event;
ghost use Rattle.qo_values.specs.declared.codes.Code.{Code};
ghost use Rattle.qo_commands.specs.Changes.{ComesTo, by_answer};
ghost use Rattle.qo_commands.specs.Commands.{empty, queried, refused_with, returned};
ghost use Rattle.qo_realize.specs.Representation.{Stands};
ghost use Rattle.qo_commands.specs.Touched.{unless_refused};
ghost use Rattle.qo_commands.specs.declared.touched.Touched.TheVariants.{Nothing};
ghost use Rattle.qo_commands.specs.Views.{body_data, done_of};

use crate::descriptions::query_description;
use crate::detached::query_detached;
use crate::integer_json::IntegerJson;
use crate::listings::list;
use crate::memmap::query_memmap;
use crate::notes::query_notes;
use crate::query_commands::commands;
use crate::touched::Touched;
use crate::types::{list_properties, list_types};
use crate::values::get;
use qo_guest::GuestAnswer;
use qo_heap::Steps;
use qo_properties::Refusal;
use qo_realize::Board;
use qo_replies::{Event, version};
use qo_requests::Query;
use qo_values::{Code, Text};
use serde_json::Value;
use std::alloc::{AllocError, Global};
use std::sync::ledger::Ledger;

/// What a command returns.
#[derive(Drop)]
pub enum ReplyBody {
    /// Nothing: an object without members.
    Empty,
    /// Whether the machine runs.
    Status(bool),
    /// The properties of the object of a birth, as they stand on the board.
    Listing(u64),
    /// What a line of the guest is answered.
    Answer(GuestAnswer),
    /// The virtual time, in ns.
    Time(u64),
    /// A text: the bytes that were taken of a ring, as they are told, or what the monitor tells.
    Told(Text),
    /// A value of its own.
    Value(IntegerJson),
}

/// What a command comes to.
#[derive(Drop)]
pub struct Done {
    /// What it returns, or the code that refuses it.
    pub result: Result<ReplyBody, Code>,
    /// Its event, if it has one.
    pub event: Option<Event>,
    /// Whether it ends the run.
    pub ends: bool,
    /// What it touched of what interrupt lines hang on.
    pub touched: Touched,
}

/// A command that returns something, and touched this.
pub(crate) fn having_touched(touched: Touched, body: ReplyBody) -> Done
    ensures done { (b : Tree) → done_of b result ≡ returned b (body_data b body) }
    ensures touched { result.touched ≡ unless_refused touched result.result }
{
    Done {
        result: Ok(body),
        event: None,
        ends: false,
        touched,
    }
}

/// A command that returns something, and touched nothing.
pub(crate) fn returned(body: ReplyBody) -> Done
    ensures done { (b : Tree) → done_of b result ≡ returned b (body_data b body) }
    ensures touched { result.touched ≡ Nothing }
{
    Done {
        result: Ok(body),
        event: None,
        ends: false,
        touched: Touched::Nothing,
    }
}

/// A command that returns a value of its own.
pub(crate) fn returned_value(value: Value) -> Done
    requires { has_float (view value) ≡ false }
    ensures { (b : Tree) → done_of b result ≡ returned b (view value) }
{
    returned(ReplyBody::Value(IntegerJson::new(value)))
}

/// A command that is refused.
pub(crate) fn refused(code: Code) -> Done
    ensures done { (b : Tree) → done_of b result ≡ refused_with b code }
    ensures refused { result.result ≡ Err code }
    ensures touched { result.touched ≡ Nothing }
{
    Done {
        result: Err(code),
        event: None,
        ends: false,
        touched: Touched::Nothing,
    }
}

/// What a change comes to that returns nothing, and touched this where it was not refused.
pub(crate) fn outcome_of(answer: Result<(), Refusal>, touched: Touched) -> Result<Done, AllocError>
    ensures comes { ComesTo answer result }
    ensures touched { IfOk result (λ d. d.touched ≡ unless_refused touched d.result) }
{
    match answer {
        Ok(()) => Ok(having_touched(touched, ReplyBody::Empty)),
        Err(Refusal::Refused(code)) => Ok(refused(code)),
        Err(Refusal::Memory) => Err(AllocError),
    }
}

/// What a change comes to that returns nothing and takes no memory, and touched this where it was not
/// refused.
pub(crate) fn done_by(answer: Result<(), Code>, touched: Touched) -> Done
    ensures done { (b : Tree) → done_of b result ≡ by_answer b answer }
    ensures touched { result.touched ≡ unless_refused touched result.result }
{
    match answer {
        Ok(()) => having_touched(touched, ReplyBody::Empty),
        Err(code) => refused(code),
    }
}

/// The run ends, and each session that commands is told so.
fn quit() -> Done
    ensures { (b : Tree) → done_of b result ≡ record { result = Ok empty; board = b; events = event.Shutdown false ∷ []; ends = true } }
{
    Done {
        result: Ok(ReplyBody::Empty),
        event: Some(Event::Shutdown { guest: false }),
        ends: true,
        touched: Touched::Nothing,
    }
}

/// A command that leaves the board. The error is want of memory.
#[tactic(auto, unfolding(crate::specs::Commands::queried))]
pub fn ask<L: Ledger>(
    alloc: Global,
    board: &Board,
    query: &Query,
    steps: &mut Steps<L>,
) -> Result<Done, AllocError>
    ensures { (b : Tree) → Stands b board.now → IfOk result (λ d. done_of b d ≡ queried b query.now) }
{
    match query {
        Query::QomList { path } => Ok(list(board, path.as_str(), steps)),
        Query::QomGet { path, property } => {
            get(alloc, board, path.as_str(), property.as_str(), steps)
        }
        Query::QomListTypes {
            implements,
            with_abstract,
        } => {
            let types = list_types(alloc, implements.as_ref(), with_abstract.unwrap_or(false))?;
            Ok(returned_value(types))
        }
        Query::DeviceListProperties { typename } => list_properties(alloc, typename.as_str()),
        Query::XQueryNotes { from } => query_notes(alloc, board, *from),
        Query::XQueryDetached => query_detached(alloc, board, steps),
        Query::XDescribe => query_description(alloc, board, steps),
        Query::XMemmap => query_memmap(alloc, board, steps),
        Query::QueryVersion => Ok(returned_value(version(alloc)?)),
        Query::QueryCommands => Ok(returned_value(commands(alloc)?)),
        Query::QueryStatus => Ok(returned(ReplyBody::Status(board.running()))),
        Query::Quit => Ok(quit()),
    }
}
