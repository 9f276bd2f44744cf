//! Where a device stands for the guest (docs/PROFILE.md, guest lines).

ghost use Rattle.std.specs.Prelude.{◌≡◌, ◌≤◌, IfSome, length};
ghost use Rattle.qo_guest.specs.declared.addresses.TheConstants.{STEPS_MAX};
ghost use Rattle.qo_model.specs.Board.{Board};
ghost use Rattle.qo_object.specs.BoardObject.{birth_of};
ghost use Rattle.qo_heap.specs.Rows.{IsLive};
ghost use Rattle.qo_heap.specs.Board.{Shows};
ghost use Rattle.qo_realize.specs.Guest.{above, address_of, is_in_slot, is_on_memory, slot_in, slot_of, slots_to};

use qo_buses::{bridge_of, bus_of, kid_at};
use qo_guest::{Addr, SlotPath};
use qo_heap::{Heap, Oid, Steps};
use qo_values::{BUS_SLOTS, MEMORY_BUS_BIRTH};
use std::sync::ledger::Ledger;

/// Slots on the way to a device, at most.
const LEVELS: usize = 9;

/// Whether a device is in a slot of a bus.
fn is_in_slot<L: Ledger>(heap: &Heap, bus: Oid, dev: Oid, slot: u8, steps: &mut Steps<L>) -> bool
    requires { IsLive heap.now.rows bus }
    ensures { (b : Board) → Shows b heap.now → result ≡ is_in_slot b bus.birth dev.birth slot }
{
    match kid_at(heap, bus, slot, steps) {
        Some(kid) => kid.birth == dev.birth,
        None => false,
    }
}

/// The slot of a bus in which a device is; 0 where it is in none.
fn slot_in<L: Ledger>(heap: &Heap, bus: Oid, dev: Oid, steps: &mut Steps<L>) -> u8
    requires { IsLive heap.now.rows bus }
    ensures { (b : Board) → Shows b heap.now → result ≡ slot_in b bus.birth dev.birth }
{
    for slot in 0..BUS_SLOTS {
        if is_in_slot(heap, bus, dev, slot, steps) {
            return slot;
        }
    }
    0
}

/// The slot of its bus in which a device is; 0 where it is in none.
fn slot_of<L: Ledger>(heap: &Heap, dev: Oid, steps: &mut Steps<L>) -> u8
    requires { IsLive heap.now.rows dev }
    ensures { (b : Board) → Shows b heap.now → result ≡ slot_of b dev.birth }
{
    match bus_of(heap, dev, steps) {
        Some(bus) => slot_in(heap, bus, dev, steps),
        None => 0,
    }
}

/// The device whose bus a device is on; `None` where there is none.
fn above<L: Ledger>(heap: &Heap, dev: Oid, steps: &mut Steps<L>) -> Option<Oid>
    requires { IsLive heap.now.rows dev }
    ensures above { (b : Board) → Shows b heap.now → birth_of result ≡ above b dev.birth }
    ensures live { IfSome result (IsLive heap.now.rows) }
{
    let bus = bus_of(heap, dev, steps)?;
    bridge_of(heap, bus, steps)
}

/// The slots on the way to a device, at most so many, the outermost first.
fn slots_to<L: Ledger>(heap: &Heap, dev: Oid, levels: usize, steps: &mut Steps<L>) -> SlotPath
    requires live { IsLive heap.now.rows dev }
    requires some { 1 ≤ levels }
    requires few { levels ≤ STEPS_MAX }
    ensures slots { (b : Board) → Shows b heap.now → result ≡ slots_to b levels dev.birth }
    ensures few { length result ≤ levels }
{
    let slot = slot_of(heap, dev, steps);
    if levels == 1 {
        return SlotPath::one(slot);
    }
    let Some(device) = above(heap, dev, steps) else {
        return SlotPath::one(slot);
    };
    let mut slots = slots_to(heap, device, levels - 1, steps);
    slots.push(slot);
    slots
}

/// Whether a device is on the memory bus.
fn is_on_memory<L: Ledger>(heap: &Heap, dev: Oid, steps: &mut Steps<L>) -> bool
    requires { IsLive heap.now.rows dev }
    ensures { (b : Board) → Shows b heap.now → result ≡ is_on_memory b dev.birth }
{
    match bus_of(heap, dev, steps) {
        Some(bus) => bus.birth == MEMORY_BUS_BIRTH,
        None => false,
    }
}

/// The address of a device: its slot on the memory bus, or else the slots on the way to it from the
/// root bus, the outermost first.
pub fn address_of<L: Ledger>(heap: &Heap, dev: Oid, steps: &mut Steps<L>) -> Addr
    requires { IsLive heap.now.rows dev }
    ensures { (b : Board) → Shows b heap.now → result ≡ address_of b dev.birth }
{
    if is_on_memory(heap, dev, steps) {
        Addr::Mem(slot_of(heap, dev, steps))
    } else {
        Addr::Slots(slots_to(heap, dev, LEVELS, steps))
    }
}
