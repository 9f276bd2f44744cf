//! Commands on rings: `chardev-add`, `chardev-remove`, `ringbuf-read` and `ringbuf-write`.

ghost use Rattle.std.specs.Prelude.{IfOk};
ghost use Rattle.qo_model.specs.Board.{Board as Tree};
ghost use Rattle.qo_requests.specs.declared.calls.Alteration.TheVariants as alteration;
ghost use Rattle.qo_commands.specs.Changes.{Alters, Came};
ghost use Rattle.qo_commands.specs.Commands.{altered};
ghost use Rattle.qo_commands.specs.Touched.{Touches};
ghost use Rattle.qo_realize.specs.Representation.{Stands};

use crate::commands::{Done, ReplyBody, done_by, outcome_of, refused, returned};
use crate::touched::Touched;
use qo_properties::Refusal;
use qo_realize::Board;
use qo_values::Form;
use std::alloc::{AllocError, Global};

/// Adds a ring under an id, by a backend of a type's name, with a size in bytes if one is given.
pub(crate) fn add_ring(
    alloc: Global,
    board: &mut Board,
    id: &str,
    kind: &str,
    size: Option<u64>,
) -> Result<Done, AllocError>
    ensures came { (b : Tree) → Stands b board.old → Alters b (altered b (alteration.ChardevAdd id.now kind.now size)) result board.new }
    ensures touched { (b : Tree) → Stands b board.old → IfOk result (λ d. Touches d.touched b (altered b (alteration.ChardevAdd id.now kind.now size)).board) }
{
    outcome_of(board.chardev_add(id, kind, size, alloc), Touched::Nothing)
}

/// Removes the ring of an id.
pub(crate) fn remove_ring(board: &mut Board, id: &str) -> Done
    ensures came { (b : Tree) → Stands b board.old → Came (altered b (alteration.ChardevRemove id.now)) result board.new }
    ensures touched { (b : Tree) → Stands b board.old → Touches result.touched b (altered b (alteration.ChardevRemove id.now)).board }
{
    done_by(board.chardev_remove(id), Touched::Nothing)
}

/// Takes the oldest bytes of the ring of an id, at most so many, and tells them in a form.
pub(crate) fn read_ring(
    board: &mut Board,
    id: &str,
    most: u64,
    form: Option<Form>,
) -> Result<Done, AllocError>
    ensures came { (b : Tree) → Stands b board.old → Alters b (altered b (alteration.RingbufRead id.now most form)) result board.new }
    ensures touched { (b : Tree) → Stands b board.old → IfOk result (λ d. Touches d.touched b (altered b (alteration.RingbufRead id.now most form)).board) }
{
    match board.ringbuf_read(id, most, form) {
        Ok(text) => Ok(returned(ReplyBody::Told(text))),
        Err(Refusal::Refused(code)) => Ok(refused(code)),
        Err(Refusal::Memory) => Err(AllocError),
    }
}

/// Puts the bytes that a text gives in a form after those of the ring of an id.
pub(crate) fn write_ring(board: &mut Board, id: &str, text: &str, form: Option<Form>) -> Done
    ensures came { (b : Tree) → Stands b board.old → Came (altered b (alteration.RingbufWrite id.now text.now form)) result board.new }
    ensures touched { (b : Tree) → Stands b board.old → Touches result.touched b (altered b (alteration.RingbufWrite id.now text.now form)).board }
{
    done_by(board.ringbuf_write(id, text, form), Touched::Nothing)
}
