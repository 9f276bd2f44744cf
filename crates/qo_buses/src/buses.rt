//! The buses of devices: those that a device has, and the way up from a bus.

ghost use Rattle.std.specs.Prelude.{◌≡◌, IfSome, slice_get};
ghost use Rattle.std.specs.Option.{option_and_then};
ghost use Rattle.qo_model.specs.Board.{Board, slots_at};
ghost use Rattle.qo_model.specs.Devices.{bridge_of, bus_above, bus_in, depth_of, first_bus, is_going};
ghost use Rattle.qo_object.specs.BoardObject.{birth_of, shown_slot};
ghost use Rattle.qo_object.specs.Slots.{target_of};
ghost use Rattle.qo_heap.specs.Rows.{IsLive};
ghost use Rattle.qo_heap.specs.Board.{Shows};

use crate::devices::{bus_of, is_of};
use crate::slots::child_in;
use qo_heap::{Heap, Oid, Slot, Steps};
use qo_hotplug::Hotplug;
use qo_values::TypeId;
use std::sync::ledger::Ledger;

/// The bus that stands in a slot of a name; the clock's slot has none.
fn bus_in<L: Ledger>(heap: &Heap, name: &str, what: &Slot, steps: &mut Steps<L>) -> Option<Oid>
    requires { IfSome (target_of what.now) (IsLive heap.now.rows) }
    ensures bus { (b : Board) → Shows b heap.now → birth_of result ≡ bus_in b (name.now, shown_slot what.now) }
    ensures live { IfSome result (IsLive heap.now.rows) }
{
    let child = child_in(what)?;
    if is_of(heap, child, TypeId::Bus, steps) && name != "clk" {
        return Some(child);
    }
    None
}

/// The bus that stands in the slot of an object at a place, from 0; `None` where no bus stands there,
/// and past the last.
#[inline(always)]
pub fn bus_in_slot<L: Ledger>(heap: &Heap, o: Oid, at: usize, steps: &mut Steps<L>) -> Option<Oid>
    requires { IsLive heap.now.rows o }
    ensures bus { (b : Board) → Shows b heap.now → birth_of result ≡ option_and_then (bus_in b) (slice_get (slots_at b o.birth) at) }
    ensures live { IfSome result (IsLive heap.now.rows) }
{
    heap.reveal_invariant();
    let view = heap.slot_at(o, at, steps)?;
    bus_in(heap, view.name, view.what, steps)
}

/// The first bus of a device, in the order of its slots; `None` exactly where it has none.
pub fn first_bus<L: Ledger>(heap: &Heap, dev: Oid, steps: &mut Steps<L>) -> Option<Oid>
    requires { IsLive heap.now.rows dev }
    ensures bus { (b : Board) → Shows b heap.now → birth_of result ≡ first_bus b dev.birth }
    ensures live { IfSome result (IsLive heap.now.rows) }
{
    let mut at = 0;
    while heap.slot_at(dev, at, steps).is_some() {
        if let Some(bus) = bus_in_slot(heap, dev, at, steps) {
            return Some(bus);
        }
        at += 1;
    }
    None
}

/// The device whose bus this is; `None` exactly where the bus is no device's.
pub fn bridge_of<L: Ledger>(heap: &Heap, bus: Oid, steps: &mut Steps<L>) -> Option<Oid>
    ensures bridge { (b : Board) → Shows b heap.now → birth_of result ≡ bridge_of b bus.birth }
    ensures live { IfSome result (IsLive heap.now.rows) }
{
    heap.reveal_invariant();
    let parent = heap.parent(bus, steps)?;
    if is_of(heap, parent, TypeId::Device, steps) {
        return Some(parent);
    }
    None
}

/// The bus that the device whose bus this is is on; `None` exactly where there is none.
pub fn bus_above<L: Ledger>(heap: &Heap, bus: Oid, steps: &mut Steps<L>) -> Option<Oid>
    ensures bus { (b : Board) → Shows b heap.now → birth_of result ≡ bus_above b bus.birth }
    ensures live { IfSome result (IsLive heap.now.rows) }
{
    let bridge = bridge_of(heap, bus, steps)?;
    bus_of(heap, bridge, steps)
}

/// How many bridges stand above a bus; a round counts as deep.
pub fn depth<L: Ledger>(heap: &Heap, bus: Oid, steps: &mut Steps<L>) -> u64
    ensures { (b : Board) → Shows b heap.now → result ≡ depth_of b bus.birth }
{
    heap.reveal_invariant();
    let mut at = bus;
    // A way that is longer than there are objects goes round.
    for turn in 0..heap.live() + 1 {
        match bus_above(heap, at, steps) {
            Some(above) => at = above,
            None => return turn as u64,
        }
    }
    heap.live() as u64 + 1
}

/// Whether a removal is pending of the device whose bus this is, or of one above it.
pub fn is_going<L: Ledger>(heap: &Heap, bus: Oid, hotplug: &Hotplug, steps: &mut Steps<L>) -> bool
    ensures { (b : Board) → Shows b heap.now → b.pending ≡ hotplug.now.pending → result ≡ is_going b bus.birth }
{
    heap.reveal_invariant();
    let mut at = bus;
    // A way that is longer than there are objects goes round.
    for _turn in 0..heap.live() + 1 {
        let Some(bridge) = bridge_of(heap, at, steps) else {
            return false;
        };
        if hotplug.is_pending(bridge) {
            return true;
        }
        match bus_of(heap, bridge, steps) {
            Some(above) => at = above,
            None => return false,
        }
    }
    false
}
