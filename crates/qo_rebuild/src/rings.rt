//! Rings are added.

ghost use Rattle.std.specs.Prelude.{map};
ghost use Rattle.qo_model.specs.Board.{Board as Tree};
ghost use Rattle.qo_realize.specs.Answers.{Writes};
ghost use Rattle.qo_realize.specs.Representation.{Stands};
ghost use Rattle.qo_save.specs.Rebuilding.{add_ring, all_done};
ghost use Rattle.qo_shape.specs.Said.{ring_said};

use qo_properties::Refusal;
use qo_realize::Board;
use qo_shape::RingItem;
use std::alloc::Global;

/// Adds a ring.
fn add_ring(board: &mut Board, ring: &RingItem, alloc: Global) -> Result<(), Refusal>
    ensures { (b : Tree) → Stands b board.old → Writes board.new result (add_ring (ring_said ring.now) b) }
{
    board.chardev_add(ring.id.as_str(), "ringbuf", Some(ring.size), alloc)
}

/// Adds rings, one after another.
pub(crate) fn add_rings(board: &mut Board, rings: &[RingItem], alloc: Global) -> Result<(), Refusal>
    ensures { (b : Tree) → Stands b board.old → Writes board.new result (all_done (map add_ring (map ring_said rings.now)) b) }
{
    for ring in rings {
        add_ring(board, ring, alloc)?;
    }
    Ok(())
}
