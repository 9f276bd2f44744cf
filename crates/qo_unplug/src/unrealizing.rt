//! A device is unrealized, with all that is below it: the kids of each bus, the bus, and then the
//! device (include/hw/qdev-core.h, "Realization").

ghost use Rattle.std.specs.Prelude.{◌≡◌, ℕ, ◌+◌, Some, length};
ghost use Rattle.qo_heap.specs.Rows.{IsLive};
ghost use Rattle.qo_heap.specs.Moments.{Timely};
ghost use Rattle.qo_unplug.specs.Feeding.{BusFeeds, FeedsWithin};
ghost use Rattle.qo_unplug.specs.Unrealizing.{Ends, bus_at, bus_undone, bus_within, device_within, kid_in_place, kid_undone, parts};

use crate::ending::{end_bus, end_device};
use qo_buses::{bus_in_slot, kid_in_slot};
use qo_heap::{Heap, Oid, Steps};
use qo_hotplug::Hotplug;
use qo_reset::Resets;
use std::sync::ledger::Ledger;

/// The kid in a slot of a bus is unrealized, if there is one.
#[cycle(unrealizing)]
fn unrealize_kid<L: Ledger>(
    heap: &mut Heap,
    resets: &mut Resets,
    hotplug: &mut Hotplug,
    bus: Oid,
    at: usize,
    levels: usize,
    steps: &mut Steps<L>,
)
    requires live { IsLive heap.old.rows bus }
    requires timely { Timely heap.old }
    ensures { Ends (λ b _. (k : ℕ) → kid_in_place b bus.birth at ≡ Some k → FeedsWithin b levels k) (λ b. kid_undone b levels bus.birth at)
        (parts heap.old resets.old.births hotplug.old) (parts heap.new resets.new.births hotplug.new) }
{
    if let Some(kid) = kid_in_slot(heap, bus, at, steps) {
        unrealize_device(heap, resets, hotplug, kid, levels, steps);
    }
}

/// The kids of a bus are unrealized, and then the bus.
#[cycle(unrealizing)]
fn unrealize_bus<L: Ledger>(
    heap: &mut Heap,
    resets: &mut Resets,
    hotplug: &mut Hotplug,
    bus: Oid,
    levels: usize,
    steps: &mut Steps<L>,
)
    requires live { IsLive heap.old.rows bus }
    requires timely { Timely heap.old }
    ensures { Ends (λ b _. BusFeeds b levels bus.birth) (λ b. bus_within b levels bus.birth)
        (parts heap.old resets.old.births hotplug.old) (parts heap.new resets.new.births hotplug.new) }
{
    let count = heap.slot_count(bus, steps);
    for at in 0..count {
        unrealize_kid(heap, resets, hotplug, bus, at, levels, steps);
    }
    end_bus(heap, resets, bus, steps);
}

/// The bus in a slot of a device is unrealized, if there is one.
#[cycle(unrealizing)]
fn unrealize_bus_at<L: Ledger>(
    heap: &mut Heap,
    resets: &mut Resets,
    hotplug: &mut Hotplug,
    dev: Oid,
    at: usize,
    levels: usize,
    steps: &mut Steps<L>,
)
    requires live { IsLive heap.old.rows dev }
    requires timely { Timely heap.old }
    ensures { Ends (λ b _. (m : ℕ) → bus_at b dev.birth at ≡ Some m → BusFeeds b levels m) (λ b. bus_undone b levels dev.birth at)
        (parts heap.old resets.old.births hotplug.old) (parts heap.new resets.new.births hotplug.new) }
{
    if let Some(bus) = bus_in_slot(heap, dev, at, steps) {
        unrealize_bus(heap, resets, hotplug, bus, levels, steps);
    }
}

/// The buses of a device are unrealized, and then the device, to a depth.
#[cycle(unrealizing)]
fn unrealize_device<L: Ledger>(
    heap: &mut Heap,
    resets: &mut Resets,
    hotplug: &mut Hotplug,
    dev: Oid,
    levels: usize,
    steps: &mut Steps<L>,
)
    requires live { IsLive heap.old.rows dev }
    requires timely { Timely heap.old }
    ensures { Ends (λ b _. FeedsWithin b levels dev.birth) (λ b. device_within b levels dev.birth)
        (parts heap.old resets.old.births hotplug.old) (parts heap.new resets.new.births hotplug.new) }
{
    if levels == 0 {
        return;
    }
    let count = heap.slot_count(dev, steps);
    for at in 0..count {
        unrealize_bus_at(heap, resets, hotplug, dev, at, levels - 1, steps);
    }
    end_device(heap, resets, hotplug, dev, steps);
}

/// A device is unrealized, with all that is below it.
pub fn unrealize<L: Ledger>(
    heap: &mut Heap,
    resets: &mut Resets,
    hotplug: &mut Hotplug,
    dev: Oid,
    steps: &mut Steps<L>,
)
    requires live { IsLive heap.old.rows dev }
    requires timely { Timely heap.old }
    ensures { Ends (λ b _. FeedsWithin b (length heap.old.rows + 1) dev.birth) (λ b. device_within b (length heap.old.rows + 1) dev.birth)
        (parts heap.old resets.old.births hotplug.old) (parts heap.new resets.new.births hotplug.new) }
{
    heap.reveal_invariant();
    let levels = heap.live() + 1;
    unrealize_device(heap, resets, hotplug, dev, levels, steps);
}
