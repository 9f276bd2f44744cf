//! Listeners are told the notes of a board, from a number on.

ghost use Rattle.std.specs.Prelude.{OnOk, OnErr, List};
ghost use Rattle.qo_model.specs.Board.{Board as Tree};
ghost use Rattle.qo_model.specs.declared.notes.Note.{Note as NoteView};
ghost use Rattle.qo_listen.specs.Ears.{AllHeard, AllOpen, ears};
ghost use Rattle.qo_realize.specs.Representation.{Stands};
ghost use Rattle.qo_telling.specs.Telling.{HeardFronts, IsNew};

use qo_listen::{Listener, Listeners};
use qo_model::Note;
use qo_realize::Board;
use qo_values::NOTES_PER_REPLY;
use std::alloc::{AllocError, Global};

/// Each listener is told some notes, note by note. Where one has no memory for a note, each has heard a front
/// of them.
fn tell_each(notes: &[Note], listeners: &mut Listeners) -> Result<(), AllocError>
    requires { AllOpen (ears ⟦<Box<dyn Listener> as Listener>⟧ listeners.old.all.items) }
    ensures told { OnOk result (AllHeard notes.now (ears ⟦<Box<dyn Listener> as Listener>⟧ listeners.old.all.items) (ears ⟦<Box<dyn Listener> as Listener>⟧ listeners.new.all.items)) }
    ensures left { OnErr result (HeardFronts notes.now (ears ⟦<Box<dyn Listener> as Listener>⟧ listeners.old.all.items) (ears ⟦<Box<dyn Listener> as Listener>⟧ listeners.new.all.items)) }
    ensures listening { AllOpen (ears ⟦<Box<dyn Listener> as Listener>⟧ listeners.new.all.items) }
{
    for note in notes {
        listeners.tell(note)?;
    }
    Ok(())
}

/// Each listener is told the notes of a board from a number on, in order, note by note. The error is want of
/// memory: each has then heard a front of them.
fn tell_from(
    alloc: Global,
    board: &Board,
    from: u64,
    listeners: &mut Listeners,
) -> Result<(), AllocError>
    requires { AllOpen (ears ⟦<Box<dyn Listener> as Listener>⟧ listeners.old.all.items) }
    ensures told { (b : Tree) (more : List NoteView) → Stands b board.now → IsNew b from more → OnOk result (AllHeard more (ears ⟦<Box<dyn Listener> as Listener>⟧ listeners.old.all.items) (ears ⟦<Box<dyn Listener> as Listener>⟧ listeners.new.all.items)) }
    ensures left { (b : Tree) (more : List NoteView) → Stands b board.now → IsNew b from more → OnErr result (HeardFronts more (ears ⟦<Box<dyn Listener> as Listener>⟧ listeners.old.all.items) (ears ⟦<Box<dyn Listener> as Listener>⟧ listeners.new.all.items)) }
    ensures listening { AllOpen (ears ⟦<Box<dyn Listener> as Listener>⟧ listeners.new.all.items) }
{
    let total = board.notes_total();
    let mut at = from;
    while at < total {
        let notes = board.notes(at, alloc)?;
        tell_each(&notes, listeners)?;
        at = at.saturating_add(NOTES_PER_REPLY);
    }
    Ok(())
}

/// Each listener is told the notes of a board from a number on, in order, note by note. The error is want of
/// memory: each has then heard a front of them. Where there is no listener no note is read.
#[inline(always)]
pub fn tell_new(
    alloc: Global,
    board: &Board,
    from: u64,
    listeners: &mut Listeners,
) -> Result<(), AllocError>
    requires { AllOpen (ears ⟦<Box<dyn Listener> as Listener>⟧ listeners.old.all.items) }
    ensures told { (b : Tree) (more : List NoteView) → Stands b board.now → IsNew b from more → OnOk result (AllHeard more (ears ⟦<Box<dyn Listener> as Listener>⟧ listeners.old.all.items) (ears ⟦<Box<dyn Listener> as Listener>⟧ listeners.new.all.items)) }
    ensures left { (b : Tree) (more : List NoteView) → Stands b board.now → IsNew b from more → OnErr result (HeardFronts more (ears ⟦<Box<dyn Listener> as Listener>⟧ listeners.old.all.items) (ears ⟦<Box<dyn Listener> as Listener>⟧ listeners.new.all.items)) }
    ensures listening { AllOpen (ears ⟦<Box<dyn Listener> as Listener>⟧ listeners.new.all.items) }
{
    if listeners.all.is_empty() {
        return Ok(());
    }
    tell_from(alloc, board, from, listeners)
}
