//! What is below a device is taken apart, and the device is taken out: from each of its buses the
//! kids, then the bus, and then the device leaves its own bus and its parent (include/hw/qdev-core.h:
//! `unparent`; the order is the profile's). Who is taken apart is held meanwhile.

ghost use Rattle.std.specs.Prelude.{◌≡◌, ◌<◌, false, None, IfSome};
ghost use Rattle.qo_model.specs.Board.{Board};
ghost use Rattle.qo_model.specs.Devices.{buses_of, kids_of};
ghost use Rattle.qo_model.specs.Unplug.{apart_within, first_of};
ghost use Rattle.qo_heap.specs.Log.{Log};
ghost use Rattle.qo_object.specs.BoardObject.{birth_of};
ghost use Rattle.qo_heap.specs.Rows.{IsLive};
ghost use Rattle.qo_heap.specs.Board.{Shows};
ghost use Rattle.qo_life.specs.Life.{Goes, with_log};
ghost use Rattle.qo_unplug.specs.Unparenting.{HasRoom, bus_lost, buses_lost, drained_within, first_apart, first_lost, pin_count, taken_within};

use qo_buses::{first_bus, first_kid, leave, leave_parent, let_go_bus};
use qo_heap::{Heap, Oid, Steps};
use qo_life::drop_pin;
use std::sync::ledger::Ledger;

/// The first kid of the bus of a birth; `None` exactly where there is no such bus, or it has none.
fn first_kid_of<L: Ledger>(heap: &Heap, bus: u64, steps: &mut Steps<L>) -> Option<Oid>
    ensures kid { (b : Board) → Shows b heap.now → birth_of result ≡ first_of (kids_of b bus) }
    ensures live { IfSome result (IsLive heap.now.rows) }
{
    let bus = heap.by_birth(bus)?;
    first_kid(heap, bus, steps)
}

/// The first kid of the bus of a birth is taken apart, if there is one; `false` where there is none.
#[cycle(apart)]
fn take_first_kid<L: Ledger>(heap: &mut Heap, bus: u64, levels: usize, steps: &mut Steps<L>) -> bool
    requires { HasRoom heap.old levels }
    ensures goes { Goes (first_apart levels bus) heap.old heap.new }
    ensures none { result ≡ false → (b : Board) (log : Log) → Shows b (with_log log heap.new) → first_of (kids_of b bus) ≡ None }
{
    heap.reveal_board();
    let Some(kid) = first_kid_of(heap, bus, steps) else {
        return false;
    };
    take_apart(heap, kid, levels, steps);
    true
}

/// The kids of a bus are taken apart, one after another. The bus may end with one of them.
#[cycle(apart)]
fn drain<L: Ledger>(heap: &mut Heap, bus: Oid, levels: usize, steps: &mut Steps<L>)
    requires live { IsLive heap.old.rows bus }
    requires room { HasRoom heap.old levels }
    ensures { Goes (drained_within levels bus.birth) heap.old heap.new }
{
    let count = heap.slot_count(bus, steps);
    for _turn in 0..count {
        if !take_first_kid(heap, bus.birth, levels, steps) {
            return;
        }
    }
}

/// A bus of a device is lost: its kids are taken apart, and it is let go.
#[cycle(apart)]
fn lose_bus<L: Ledger>(heap: &mut Heap, dev: Oid, bus: Oid, levels: usize, steps: &mut Steps<L>)
    requires live { IsLive heap.old.rows dev }
    requires pinned { 0 < pin_count heap.old dev.birth }
    requires bus { IsLive heap.old.rows bus }
    requires room { HasRoom heap.old levels }
    ensures { Goes (bus_lost levels dev.birth bus.birth) heap.old heap.new }
{
    drain(heap, bus, levels, steps);
    let_go_bus(heap, dev, bus.birth, steps);
}

/// The first bus of a device is lost, if there is one; `false` where there is none.
#[cycle(apart)]
fn lose_first_bus<L: Ledger>(heap: &mut Heap, dev: Oid, levels: usize, steps: &mut Steps<L>) -> bool
    requires live { IsLive heap.old.rows dev }
    requires pinned { 0 < pin_count heap.old dev.birth }
    requires room { HasRoom heap.old levels }
    ensures goes { Goes (first_lost levels dev.birth) heap.old heap.new }
    ensures none { result ≡ false → (b : Board) (log : Log) → Shows b (with_log log heap.new) → first_of (buses_of b dev.birth) ≡ None }
{
    heap.reveal_board();
    let Some(bus) = first_bus(heap, dev, steps) else {
        return false;
    };
    lose_bus(heap, dev, bus, levels, steps);
    true
}

/// The buses of a device are lost, one after another.
#[cycle(apart)]
fn lose_buses<L: Ledger>(heap: &mut Heap, dev: Oid, levels: usize, steps: &mut Steps<L>)
    requires live { IsLive heap.old.rows dev }
    requires pinned { 0 < pin_count heap.old dev.birth }
    requires room { HasRoom heap.old levels }
    ensures { Goes (buses_lost levels dev.birth) heap.old heap.new }
{
    let count = heap.slot_count(dev, steps);
    for _turn in 0..count {
        if !lose_first_bus(heap, dev, levels, steps) {
            return;
        }
    }
}

/// A device that is held is taken out: its buses are lost, and it leaves its bus and its parent.
#[cycle(apart)]
pub fn take_out<L: Ledger>(heap: &mut Heap, dev: Oid, levels: usize, steps: &mut Steps<L>)
    requires live { IsLive heap.old.rows dev }
    requires pinned { 0 < pin_count heap.old dev.birth }
    requires room { HasRoom heap.old levels }
    ensures { Goes (taken_within levels dev.birth) heap.old heap.new }
{
    lose_buses(heap, dev, levels, steps);
    leave(heap, dev, steps);
    leave_parent(heap, dev, steps);
}

/// A device is taken out, to a depth, and is held meanwhile.
#[cycle(apart)]
fn take_apart<L: Ledger>(heap: &mut Heap, dev: Oid, levels: usize, steps: &mut Steps<L>)
    requires live { IsLive heap.old.rows dev }
    requires room { HasRoom heap.old levels }
    ensures { Goes (apart_within levels dev.birth) heap.old heap.new }
{
    if levels == 0 {
        return;
    }
    heap.reveal_invariant();
    heap.pin(dev, steps);
    take_out(heap, dev, levels - 1, steps);
    heap.reveal_invariant();
    drop_pin(heap, dev, steps);
}
