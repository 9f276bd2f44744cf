//! Cutting the links of a detached object.

ghost use Rattle.std.specs.Prelude.{◌≡◌, ◌<◌, ◌^◌, OnErr};
ghost use Rattle.qo_model.specs.Board.{Board};
ghost use Rattle.qo_model.specs.Objects.{sever};
ghost use Rattle.qo_model.specs.Release.{pin};
ghost use Rattle.qo_heap.specs.Rows.{IsLive};
ghost use Rattle.qo_heap.specs.Board.{Shows};
ghost use Rattle.qo_heap.specs.Objects.{pins_of, slots_of};
ghost use Rattle.qo_life.specs.Life.{Goes};
ghost use Rattle.qo_properties.specs.Changes.{IsAnswered, is_strong_in, severed, severed_at};
ghost use Rattle.qo_properties.specs.Claims.{KeepsBook};
ghost use Rattle.qo_properties.specs.KeptClaims.{KeptBefore};
ghost use Rattle.qo_properties.specs.Pins.{OnlyRootPinned};

use crate::reading::lookup::object_of;
use qo_heap::{Heap, Oid, Steps};
use qo_life::{drop_pin, let_go};
use qo_paths::is_attached;
use qo_values::Code;
use std::sync::ledger::Ledger;

/// Whether a strong link stands in the slot of an object at a place.
fn is_strong_at<L: Ledger>(heap: &Heap, o: Oid, at: usize, steps: &mut Steps<L>) -> bool
    requires { IsLive heap.now.rows o }
    ensures { result ≡ is_strong_in (slots_of heap.now o.birth) at }
{
    match heap.slot_at(o, at, steps) {
        Some(view) => view.what.is_strong(),
        None => false,
    }
}

/// Lets the slot of an object at a place go, where it is a strong link.
fn sever_at<L: Ledger>(heap: &mut Heap, o: Oid, at: usize, steps: &mut Steps<L>)
    requires { IsLive heap.old.rows o }
    ensures { Goes (severed_at o.birth at) heap.old heap.new }
{
    if is_strong_at(heap, o, at, steps) {
        let_go(heap, o, at, steps);
    }
}

/// Lets the strong links of an object go, in order, while it is held from outside the tree.
fn sever_links<L: Ledger>(heap: &mut Heap, o: Oid, steps: &mut Steps<L>)
    requires live { IsLive heap.old.rows o }
    requires room { pins_of heap.old o.birth < 2 ^ 32 }
    ensures { Goes (λ b. severed b o.birth) heap.old heap.new }
{
    heap.reveal_invariant();
    heap.pin(o, steps);
    let count = heap.slot_count(o, steps);
    for at in 0..count {
        sever_at(heap, o, at, steps);
    }
    heap.reveal_invariant();
    drop_pin(heap, o, steps);
}

/// Cuts the strong links of a detached object, in order, which is held meanwhile and finalized in the
/// end where nothing refers to it (the profile's `x-sever`). `E33` comes exactly where no object of
/// that birth is live, else `E50` exactly where it is attached. An error leaves the heap as it was.
pub fn sever<L: Ledger>(heap: &mut Heap, birth: u64, steps: &mut Steps<L>) -> Result<(), Code>
    requires pinned { OnlyRootPinned heap.old }
    ensures change { (b : Board) → Shows b heap.old → IsAnswered (sever b birth) result heap.new }
    ensures err { OnErr result (heap.new ≡ heap.old) }
    ensures pinned { OnlyRootPinned heap.new }
    ensures book { KeepsBook heap.old heap.new }
    ensures kept { KeptBefore heap.old heap.new }
{
    let Some(o) = object_of(heap, birth) else {
        return Err(Code::E33);
    };
    if is_attached(heap, o, steps) {
        return Err(Code::E50);
    }
    sever_links(heap, o, steps);
    Ok(())
}
