//! A device that stands in its place starts: it is realized with its buses, goes through the phases
//! of a reset, and the guest is told of it (include/hw/qdev-core.h, "Realization";
//! include/hw/hotplug.h). No call here takes memory.

ghost use Rattle.std.specs.Prelude.{◌≡◌, ◌≤◌, ◌<◌, ◌∷◌, ℕ, false, Some, None, length, option_and_then, option_to_list, slice_get};
ghost use Rattle.qo_values.specs.declared.kinds.Act.TheVariants.{Realize};
ghost use Rattle.qo_values.specs.declared.kinds.TypeId.{TypeId};
ghost use Rattle.qo_values.specs.declared.limits.TheConstants.{NOTICES_MAX};
ghost use Rattle.qo_model.specs.Board.{Board, slots_at};
ghost use Rattle.qo_model.specs.Devices.{bus_in, buses_of};
ghost use Rattle.qo_model.specs.Paths.{canonical};
ghost use Rattle.qo_model.specs.Plug.{acted_all, bus_births, started};
ghost use Rattle.qo_heap.specs.Rows.{IsLive};
ghost use Rattle.qo_heap.specs.Acts.{Acts, KeepsCounts, KeepsPeriods, counted_in};
ghost use Rattle.qo_heap.specs.Board.{Shows, pins_in};
ghost use Rattle.qo_heap.specs.Objects.{content_of, pins_of};
ghost use Rattle.qo_properties.specs.Claims.{KeepsBook};
ghost use Rattle.qo_properties.specs.OpeningSteps.{KeepsNames};
ghost use Rattle.qo_reset.specs.Counts.{CountedBelow};
ghost use Rattle.qo_reset.specs.Phases.{Holds, is_under};
ghost use Rattle.qo_properties.specs.KeptClaims.{kept_by};

use qo_buses::bus_in_slot;
use qo_heap::{Heap, Oid, Steps};
use qo_hotplug::Hotplug;
use qo_reset::Resets;
use qo_values::{Act, Text};
use std::sync::ledger::Ledger;

/// The bus in the slot of a device at a place is realized, where one stands there.
fn realize_at<L: Ledger>(heap: &mut Heap, device: Oid, at: usize, steps: &mut Steps<L>)
    requires { IsLive heap.old.rows device }
    ensures shown { (b : Board) → Shows b heap.old → Shows (acted_all Realize (option_to_list (option_and_then (bus_in b) (slice_get (slots_at b device.birth) at))) b) heap.new }
    ensures acts { Acts heap.old heap.new }
    ensures counts { KeepsCounts heap.old heap.new }
    ensures periods { KeepsPeriods heap.old heap.new }
{
    if let Some(bus) = bus_in_slot(heap, device, at, steps) {
        heap.act(bus, Act::Realize, 0, steps);
    }
}

/// The buses of a device are realized, in the order of its slots.
fn realize_buses<L: Ledger>(heap: &mut Heap, device: Oid, steps: &mut Steps<L>)
    requires { IsLive heap.old.rows device }
    ensures shown { (b : Board) → Shows b heap.old → Shows (acted_all Realize (buses_of b device.birth) b) heap.new }
    ensures acts { Acts heap.old heap.new }
    ensures counts { KeepsCounts heap.old heap.new }
    ensures periods { KeepsPeriods heap.old heap.new }
{
    let mut at = 0;
    while heap.slot_at(device, at, steps).is_some() {
        realize_at(heap, device, at, steps);
        at += 1;
    }
}

/// A device is realized, and then its buses.
fn realize<L: Ledger>(heap: &mut Heap, device: Oid, steps: &mut Steps<L>)
    requires { IsLive heap.old.rows device }
    ensures shown { (b : Board) → Shows b heap.old → Shows (acted_all Realize (device.birth ∷ buses_of b device.birth) b) heap.new }
    ensures acts { Acts heap.old heap.new }
    ensures counts { KeepsCounts heap.old heap.new }
    ensures periods { KeepsPeriods heap.old heap.new }
{
    heap.act(device, Act::Realize, 0, steps);
    realize_buses(heap, device, steps);
}

/// A device that stands in its place starts: it is realized, and then its buses; it goes through the
/// phases, and stays held where it is below a hold; its canonical path is kept for its end; and the
/// guest is told that it was plugged in. There must be room for the event of its end, and for a
/// notice.
pub fn start<L: Ledger>(
    heap: &mut Heap,
    resets: &Resets,
    hotplug: &mut Hotplug,
    device: Oid,
    path: Text,
    steps: &mut Steps<L>,
)
    requires live { IsLive heap.old.rows device }
    requires pathless { option_and_then (λ c. c.kept_path) (content_of heap.old device.birth) ≡ None }
    requires room { 1 ≤ heap.old.events.spare }
    requires few { length hotplug.old.notices < NOTICES_MAX }
    ensures shown { (b : Board) (t : TypeId) → Holds b resets.now.births heap.old → buses_of b device.birth ≡ bus_births device.birth t → canonical b device.birth ≡ Some path → Shows (started device.birth t b) heap.new }
    ensures told { (b : Board) (t : TypeId) → b.notices ≡ hotplug.old.notices → (started device.birth t b).notices ≡ hotplug.new.notices }
    ensures pending { hotplug.new.pending ≡ hotplug.old.pending }
    ensures book { KeepsBook heap.old heap.new }
    ensures names { KeepsNames heap.old heap.new }
    ensures pins { pins_in heap.new.rows ≡ pins_in heap.old.rows }
    ensures pinned { pins_of heap.new device.birth ≡ pins_of heap.old device.birth }
    ensures path { option_and_then (λ c. c.kept_path) (content_of heap.new device.birth) ≡ Some path }
    ensures claims { (n : ℕ) → kept_by heap.new n ≡ kept_by heap.old n }
    ensures counted { CountedBelow device.birth resets.now.births heap.new }
    ensures others { (n : ℕ) → is_under heap.new n device.birth ≡ false → counted_in heap.new n ≡ counted_in heap.old n }
    ensures periods { KeepsPeriods heap.old heap.new }
{
    realize(heap, device, steps);
    resets.plugged(heap, device, steps);
    heap.keep_path(device, path, steps);
    hotplug.plug(device).unwrap();
}
