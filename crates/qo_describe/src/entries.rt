//! The children of an object under their names.

ghost use Rattle.std.specs.Prelude.{◌≡◌, ◌==◌, IfSome, length, not, option_map, slice_get};
ghost use Rattle.std.specs.Option.{option_and_then};
ghost use Rattle.qo_heap.specs.Board.{Shows};
ghost use Rattle.qo_heap.specs.Rows.{IsLive};
ghost use Rattle.qo_model.specs.Board.{Board, slots_at};
ghost use Rattle.qo_model.specs.Paths.{children_of};
ghost use Rattle.qo_sound_devices.specs.SoundPlaces.{child_entry};

use qo_heap::{Heap, Oid, Slot, Steps};
use std::sync::ledger::Ledger;

/// The child in a slot of an object, under its name; `None` where no child stands there, and past the
/// last slot.
pub(crate) fn entry_at<'h, L: Ledger>(
    heap: &'h Heap,
    o: Oid,
    at: usize,
    steps: &mut Steps<L>,
) -> Option<(&'h str, Oid)>
    requires { IsLive heap.now.rows o }
    ensures child { (b : Board) → Shows b heap.now → option_map (λ e. (e.0.now, e.1.birth)) result ≡ option_and_then child_entry (slice_get (slots_at b o.birth) at) }
    ensures live { IfSome result (λ e. IsLive heap.now.rows e.1) }
{
    heap.reveal_invariant();
    let slot = heap.slot_at(o, at, steps)?;
    match slot.what {
        Slot::Child(child) => Some((slot.name, *child)),
        _ => None,
    }
}

/// Whether an object has children.
pub(crate) fn has_children<L: Ledger>(heap: &Heap, o: Oid, steps: &mut Steps<L>) -> bool
    requires { IsLive heap.now.rows o }
    ensures { (b : Board) → Shows b heap.now → (length (children_of b o.birth) == 0) ≡ not result }
{
    let count = heap.slot_count(o, steps);
    for at in 0..count {
        if entry_at(heap, o, at, steps).is_some() {
            return true;
        }
    }
    false
}
