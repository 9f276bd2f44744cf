//! The kids of a bus, and its slots (docs/PROFILE.md: the slots of a bus and the names of its links).

ghost use Rattle.std.specs.Prelude.{◌≡◌, IfSome, slice_get};
ghost use Rattle.std.specs.Option.{option_and_then};
ghost use Rattle.qo_model.specs.Board.{Board, slots_at};
ghost use Rattle.qo_model.specs.Devices.{kid_at, kids_of, strong_in};
ghost use Rattle.qo_model.specs.Unplug.{first_of};
ghost use Rattle.qo_object.specs.BoardObject.{birth_of};
ghost use Rattle.qo_heap.specs.Rows.{IsLive};
ghost use Rattle.qo_heap.specs.Board.{Shows};

use crate::slots::strong_in;
use qo_heap::{Heap, Oid, Steps};
use std::sync::ledger::Ledger;

/// The kid in a slot of a bus; `None` exactly where there is none.
#[inline(always)]
pub fn kid_at<L: Ledger>(heap: &Heap, bus: Oid, slot: u8, steps: &mut Steps<L>) -> Option<Oid>
    requires { IsLive heap.now.rows bus }
    ensures kid { (b : Board) → Shows b heap.now → birth_of result ≡ kid_at b bus.birth slot }
    ensures live { IfSome result (IsLive heap.now.rows) }
{
    heap.reveal_invariant();
    let view = heap.kid(bus, slot, steps)?;
    strong_in(view.what)
}

/// The kid that the slot of a bus at a place, from 0, links to; `None` where the slot is no strong
/// link, or this has no target, and past the last.
pub fn kid_in_slot<L: Ledger>(heap: &Heap, bus: Oid, at: usize, steps: &mut Steps<L>) -> Option<Oid>
    requires { IsLive heap.now.rows bus }
    ensures kid { (b : Board) → Shows b heap.now → birth_of result ≡ option_and_then (λ s. strong_in s.1) (slice_get (slots_at b bus.birth) at) }
    ensures live { IfSome result (IsLive heap.now.rows) }
{
    heap.reveal_invariant();
    let view = heap.slot_at(bus, at, steps)?;
    strong_in(view.what)
}

/// The first kid of a bus in the order of plugging; `None` exactly where it has none.
pub fn first_kid<L: Ledger>(heap: &Heap, bus: Oid, steps: &mut Steps<L>) -> Option<Oid>
    requires { IsLive heap.now.rows bus }
    ensures kid { (b : Board) → Shows b heap.now → birth_of result ≡ first_of (kids_of b bus.birth) }
    ensures live { IfSome result (IsLive heap.now.rows) }
{
    let mut at = 0;
    while heap.slot_at(bus, at, steps).is_some() {
        if let Some(kid) = kid_in_slot(heap, bus, at, steps) {
            return Some(kid);
        }
        at += 1;
    }
    None
}
