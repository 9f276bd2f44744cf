//! The notes on objects: `x-query-notes`.

ghost use Rattle.std.specs.Prelude.{◌≡◌, ◌++◌, [], ◌∷◌, map, IfOk, OnOk};
ghost use Rattle.serde_json.specs.Data.{array};
ghost use Rattle.serde_json.specs.View.{items_of, view};
ghost use Rattle.qo_model.specs.Board.{Board as Tree};
ghost use Rattle.qo_realize.specs.Representation.{Stands};
ghost use Rattle.qo_commands.specs.Commands.{note_data, notes_data, notes_reply, returned};
ghost use Rattle.qo_commands.specs.Views.{done_of};

use crate::commands::{Done, returned_value};
use qo_model::Note;
use qo_realize::Board;
use serde_json::{Value, json};
use std::alloc::{AllocError, Global};

/// A note, by its text.
fn note_value(alloc: Global, note: &Note) -> Result<Value, AllocError>
    ensures { IfOk result (λ v. view v ≡ note_data note.now) }
{
    Ok(Value::String(note.text(alloc)?))
}

/// Adds a note to a list.
fn push_note(alloc: Global, values: &mut Vec<Value>, note: &Note) -> Result<(), AllocError>
    ensures { OnOk result (map view values.new.items ≡ map view values.old.items ++ map note_data (note.now ∷ [])) }
{
    let value = note_value(alloc, note)?;
    values.push(value)?;
    Ok(())
}

/// Notes as a list.
fn note_list(alloc: Global, notes: &[Note]) -> Result<Value, AllocError>
    ensures { IfOk result (λ v. view v ≡ array (items_of (map note_data notes.now))) }
{
    let mut values = Vec::new(alloc);
    for note in notes {
        push_note(alloc, &mut values, note)?;
    }
    Ok(Value::Array(values))
}

/// The number of the first note that is told, the notes, and how many there were.
fn told(alloc: Global, first: u64, notes: &[Note], total: u64) -> Result<Value, AllocError>
    ensures { IfOk result (λ v. view v ≡ notes_reply first notes.now total) }
{
    let notes = note_list(alloc, notes)?;
    json!(in alloc; {"first": first, "notes": notes, "total": total})
}

/// The notes from a number on.
pub(crate) fn query_notes(alloc: Global, board: &Board, from: u64) -> Result<Done, AllocError>
    ensures { (b : Tree) → Stands b board.now → IfOk result (λ d. done_of b d ≡ returned b (notes_data from b.notes)) }
{
    let notes = board.notes(from, alloc)?;
    let value = told(alloc, board.notes_first(from), &notes, board.notes_total())?;
    Ok(returned_value(value))
}
