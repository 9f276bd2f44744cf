//! Rebuilds a board of its description, and tells the description of that board.

ghost use Rattle.std.specs.Prelude.{◌≡◌, ◌≢◌, ◌<◌, List, ℕ, Option, IfOk};
ghost use Rattle.qo_causes.specs.Cause.{Rose};
ghost use Rattle.qo_model.specs.Board.{Board as Tree};
ghost use Rattle.qo_realize.specs.Representation.{Stands};
ghost use Rattle.qo_rebuild.specs.Texts.{rebuilt_of_text};
ghost use Rattle.compose.specs.Rebuild.{GaveAll, RebuiltBy, TellsBoard, board_text};

use crate::statuses::Status;
use crate::whole_sources::{Stop, read_all};
use qo_causes::{Failed, Sink, Source, put_all};
use qo_commands::board_value;
use qo_heap::Steps;
use qo_json::Json;
use qo_realize::Board;
use qo_rebuild::{SaveError, rebuild_text};
use qo_replies::json_text;
use qo_values::{Code, Text};
use std::alloc::{AllocError, Global};
use std::marker::Brand;
use std::sync::ledger::{Blank, Ledger};

/// The description of a board as text, and the end of the line.
fn text_of<L: Ledger>(
    alloc: Global,
    board: &Board,
    steps: &mut Steps<L>,
) -> Result<Text, AllocError>
    ensures { (b : Tree) → Stands b board.now → IfOk result (λ line. line ≡ board_text b) }
{
    board.reveal_board();
    let value = board_value(alloc, board, steps)?;
    let text = json_text(alloc, &Json::of(alloc, &value)?)?;
    let mut line = String::from_str(alloc, text.as_str())?;
    line.push('\n')?;
    Ok(Text::from_string(line))
}

/// The same of the board that a text describes, made with a counter of steps over a blank.
fn line_counting<L: Ledger>(alloc: Global, text: &[u8], blank: Blank) -> Result<Text, SaveError>
    requires name { blank.name ≡ L.name }
    requires parts { blank.parts ≡ L.parts }
    requires some { 0 < blank.parts }
    ensures { TellsBoard (rebuilt_of_text text.now) result }
{
    let mut steps = Steps::<L>::from_blank(blank);
    let board = rebuild_text(text, alloc, &mut steps)?;
    Ok(text_of(alloc, &board, &mut steps)?)
}

/// The description of the board that a text describes, and the end of the line.
fn line_of(alloc: Global, text: &[u8]) -> Result<Text, SaveError>
    ensures { TellsBoard (rebuilt_of_text text.now) result }
{
    line_counting::<Brand>(alloc, text, Blank::new(1))
}

/// Puts the description of the board that a text describes, and gives the code that refuses it, if one
/// does.
fn put_board<K: Sink>(alloc: Global, text: &[u8], sink: &mut K) -> (Status, Option<Code>)
    ensures told { (old new : Option (List ℕ)) → GaveAll old new text.now → RebuiltBy result.0 result.1 old new (K.held sink.old) (K.held sink.new) text.now }
    ensures write_cause { result.0 ≡ Status.WriteFault → Rose (K.faults sink.old) (K.faults sink.new) }
    ensures write_quiet { result.0 ≢ Status.WriteFault → K.faults sink.new ≡ K.faults sink.old }
    ensures other { (result.0 ≢ Status.Usage) × (result.0 ≢ Status.HubFault) × (result.0 ≢ Status.ReadFault) }
{
    match line_of(alloc, text) {
        Ok(line) => match put_all(sink, line.as_str().as_bytes()) {
            Ok(()) => (Status::Done, None),
            Err(Failed) => (Status::WriteFault, None),
        },
        Err(SaveError::Shape) => (Status::BadBoard, None),
        Err(SaveError::Refused(code)) => (Status::BadBoard, Some(code)),
        Err(SaveError::Memory) => (Status::Memory, None),
    }
}

/// Reads a source to its end, and puts the description of the board that it describes into a sink. The code
/// is that which refuses the board, if one does.
pub(crate) fn tell_board<S: Source, K: Sink>(
    alloc: Global,
    source: &mut S,
    sink: &mut K,
) -> (Status, Option<Code>)
    ensures told { (bytes : List ℕ) × RebuiltBy result.0 result.1 (S.left source.old) (S.left source.new) (K.held sink.old) (K.held sink.new) bytes }
    ensures read_cause { result.0 ≡ Status.ReadFault → Rose (S.faults source.old) (S.faults source.new) }
    ensures write_cause { result.0 ≡ Status.WriteFault → Rose (K.faults sink.old) (K.faults sink.new) }
    ensures read_quiet { result.0 ≢ Status.ReadFault → S.faults source.new ≡ S.faults source.old }
    ensures write_quiet { result.0 ≢ Status.WriteFault → K.faults sink.new ≡ K.faults sink.old }
    ensures other { (result.0 ≢ Status.Usage) × (result.0 ≢ Status.HubFault) }
{
    let mut bytes = Vec::new(alloc);
    match read_all(source, &mut bytes) {
        Stop::End => put_board(alloc, bytes.as_slice(), sink),
        Stop::Limit => (Status::InputLimit, None),
        Stop::Fault => (Status::ReadFault, None),
        Stop::Memory => (Status::Memory, None),
    }
}
