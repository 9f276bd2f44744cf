//! Users' objects are added.

ghost use Rattle.std.specs.Prelude.{map};
ghost use Rattle.qo_model.specs.Board.{Board as Tree};
ghost use Rattle.qo_realize.specs.Answers.{Writes};
ghost use Rattle.qo_realize.specs.Representation.{Stands};
ghost use Rattle.qo_save.specs.Rebuilding.{add_object, all_done};
ghost use Rattle.qo_shape.specs.Said.{object_said};

use qo_heap::Steps;
use qo_properties::Refusal;
use qo_realize::Board;
use qo_shape::ObjectItem;
use std::alloc::Global;
use std::sync::ledger::Ledger;

/// Adds a user's object.
fn add_object<L: Ledger>(
    board: &mut Board,
    object: &ObjectItem,
    alloc: Global,
    steps: &mut Steps<L>,
) -> Result<(), Refusal>
    ensures { (b : Tree) → Stands b board.old → Writes board.new result (add_object (object_said object.now) b) }
{
    board.object_add(
        object.kind.as_str(),
        object.id.as_str(),
        &object.props,
        alloc,
        steps,
    )
}

/// Adds users' objects, one after another.
pub(crate) fn add_objects<L: Ledger>(
    board: &mut Board,
    objects: &[ObjectItem],
    alloc: Global,
    steps: &mut Steps<L>,
) -> Result<(), Refusal>
    ensures { (b : Tree) → Stands b board.old → Writes board.new result (all_done (map add_object (map object_said objects.now)) b) }
{
    for object in objects {
        add_object(board, object, alloc, steps)?;
    }
    Ok(())
}
