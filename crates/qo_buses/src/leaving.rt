//! How a device leaves its bus (include/hw/qdev-core.h: `unparent`; docs/PROFILE.md, letting go).

ghost use Rattle.std.specs.Prelude.{◌≡◌, true, Some, IfSome, option_map};
ghost use Rattle.qo_model.specs.Board.{Board};
ghost use Rattle.qo_model.specs.Objects.{index_from};
ghost use Rattle.qo_model.specs.RowNames.{property_name};
ghost use Rattle.qo_model.specs.Unplug.{is_bus_child, is_child_slot, is_named, left_bus, left_parent, let_go_where, names_kid, take_slot, take_where};
ghost use Rattle.qo_object.specs.BoardObject.{shown_slot, shown_slots};
ghost use Rattle.qo_object.specs.Slots.{is_strong, slot_in};
ghost use Rattle.qo_heap.specs.Rows.{IsLive};
ghost use Rattle.qo_heap.specs.Board.{Shows};
ghost use Rattle.qo_heap.specs.Objects.{slots_of};
ghost use Rattle.qo_life.specs.Life.{Goes, KeepsNames};

use crate::devices::bus_of;
use crate::slots::strong_in;
use qo_heap::{Heap, Oid, Slot, Steps};
use qo_life::{drop_hold, let_go};
use qo_model::PropertyName;
use qo_values::{ANONYMOUS_BIRTH, PERIPHERAL_BIRTH};
use std::sync::ledger::Ledger;

/// Whether a slot is a strong link to the object of a birth.
fn links_to(name: &str, what: &Slot, birth: u64) -> bool
    ensures { result ≡ names_kid birth (name.now, shown_slot what.now) }
{
    match strong_in(what) {
        Some(target) => target.birth == birth,
        None => false,
    }
}

/// The place of the first strong link of an object to that of a birth; `None` where it has none.
fn place_linked<L: Ledger>(heap: &Heap, o: Oid, birth: u64, steps: &mut Steps<L>) -> Option<usize>
    requires { IsLive heap.now.rows o }
    ensures place { result ≡ index_from (names_kid birth) 0 (shown_slots (slots_of heap.now o.birth)) }
    ensures strong { IfSome result (λ at. option_map is_strong (slot_in (slots_of heap.now o.birth) at) ≡ Some true) }
{
    let mut at = 0;
    while let Some(view) = heap.slot_at(o, at, steps) {
        if links_to(view.name, view.what, birth) {
            return Some(at);
        }
        at += 1;
    }
    None
}

/// Lets the strong link of an object at a place go and removes it, and finalizes what it held where
/// nothing refers to that any more.
fn take_link<L: Ledger>(heap: &mut Heap, o: Oid, at: usize, steps: &mut Steps<L>)
    requires live { IsLive heap.old.rows o }
    requires link { option_map is_strong (slot_in (slots_of heap.old o.birth) at) ≡ Some true }
    ensures { Goes (λ b. take_slot b o.birth at) heap.old heap.new }
{
    heap.reveal_invariant();
    let held = heap.empty(o, at, steps);
    heap.cut(o, at, steps);
    drop_hold(heap, held, steps);
}

/// Takes the first link of a bus to the device of a birth away, where it has one.
fn take_kid<L: Ledger>(heap: &mut Heap, bus: Oid, birth: u64, steps: &mut Steps<L>)
    requires { IsLive heap.old.rows bus }
    ensures { Goes (take_where (names_kid birth) bus.birth) heap.old heap.new }
{
    if let Some(at) = place_linked(heap, bus, birth, steps) {
        take_link(heap, bus, at, steps);
    }
}

/// Lets the slot of a property of the object of a birth go, where it is there and has one.
fn let_go_named<L: Ledger>(heap: &mut Heap, birth: u64, name: PropertyName, steps: &mut Steps<L>)
    ensures { Goes (let_go_where (is_named (property_name name)) birth) heap.old heap.new }
{
    let Some(o) = heap.by_birth(birth) else {
        return;
    };
    let Some(view) = heap.property(o, name, steps) else {
        return;
    };
    let at = view.at;
    let_go(heap, o, at, steps);
}

/// A device leaves its bus: the link of the bus to it is let go and removed, and then its own link to
/// the bus is let go; what nothing refers to any more is finalized. A device that is on no bus stays.
pub fn leave<L: Ledger>(heap: &mut Heap, dev: Oid, steps: &mut Steps<L>)
    requires { IsLive heap.old.rows dev }
    ensures release { (b : Board) → Shows b heap.old → Shows (left_bus dev.birth b) heap.new }
    ensures goes { Goes (left_bus dev.birth) heap.old heap.new }
    ensures names { KeepsNames heap.old heap.new }
{
    heap.reveal_board();
    if let Some(bus) = bus_of(heap, dev, steps) {
        take_kid(heap, bus, dev.birth, steps);
        let_go_named(heap, dev.birth, PropertyName::ParentBus, steps);
    }
}

/// Lets the slot go by which the object of a birth is the parent of that of another, where it is.
fn let_go_child<L: Ledger>(heap: &mut Heap, birth: u64, child: u64, steps: &mut Steps<L>)
    ensures { Goes (let_go_where (is_child_slot child) birth) heap.old heap.new }
{
    let Some(o) = heap.by_birth(birth) else {
        return;
    };
    let Some(view) = heap.child_slot(o, child, steps) else {
        return;
    };
    let at = view.at;
    let_go(heap, o, at, steps);
}

/// A device leaves the container of devices that it is in: the child slot is let go, and what nothing
/// refers to any more is finalized. A device that is in none stays.
pub fn leave_parent<L: Ledger>(heap: &mut Heap, dev: Oid, steps: &mut Steps<L>)
    ensures release { (b : Board) → Shows b heap.old → Shows (left_parent dev.birth b) heap.new }
    ensures goes { Goes (left_parent dev.birth) heap.old heap.new }
    ensures names { KeepsNames heap.old heap.new }
{
    let_go_child(heap, PERIPHERAL_BIRTH, dev.birth, steps);
    let_go_child(heap, ANONYMOUS_BIRTH, dev.birth, steps);
}

/// Whether a slot has the object of a birth as a child, and is not the clock's.
fn is_bus_child(name: &str, what: &Slot, birth: u64) -> bool
    ensures { result ≡ is_bus_child birth (name.now, shown_slot what.now) }
{
    match what {
        Slot::Child(child) => child.birth == birth && name != "clk",
        _ => false,
    }
}

/// The place of the slot of a bus of an object; `None` where it has none.
fn place_of_bus<L: Ledger>(heap: &Heap, o: Oid, birth: u64, steps: &mut Steps<L>) -> Option<usize>
    requires { IsLive heap.now.rows o }
    ensures { result ≡ index_from (is_bus_child birth) 0 (shown_slots (slots_of heap.now o.birth)) }
{
    let mut at = 0;
    while let Some(view) = heap.slot_at(o, at, steps) {
        if is_bus_child(view.name, view.what, birth) {
            return Some(at);
        }
        at += 1;
    }
    None
}

/// Lets the bus of a birth of a device go, and finalizes it where nothing refers to it any more; where
/// the device has no such bus, all stays.
pub fn let_go_bus<L: Ledger>(heap: &mut Heap, dev: Oid, bus: u64, steps: &mut Steps<L>)
    requires { IsLive heap.old.rows dev }
    ensures goes { Goes (let_go_where (is_bus_child bus) dev.birth) heap.old heap.new }
    ensures names { KeepsNames heap.old heap.new }
{
    if let Some(at) = place_of_bus(heap, dev, bus, steps) {
        let_go(heap, dev, at, steps);
    }
}
