//! The own step of a bus, and of a device, that is unrealized (include/hw/qdev-core.h,
//! "Realization").

ghost use Rattle.std.specs.Prelude.{false, codes};
ghost use Rattle.qo_values.specs.declared.kinds.Act.TheVariants.{Unrealize};
ghost use Rattle.qo_values.specs.declared.properties.Val.TheVariants as val;
ghost use Rattle.qo_model.specs.Clocks.{acted};
ghost use Rattle.qo_model.specs.Unplug.{set_named, unrealized_bus, unrealized_device};
ghost use Rattle.qo_hotplug.specs.Hotplug.{Asked};
ghost use Rattle.qo_heap.specs.Rows.{IsLive};
ghost use Rattle.qo_heap.specs.Moments.{Timely};
ghost use Rattle.qo_properties.specs.KeptClaims.{ClaimsBefore, CountsBefore, KeptBefore};
ghost use Rattle.qo_unplug.specs.Feeding.{FeedsNone};
ghost use Rattle.qo_unplug.specs.Unrealizing.{Ends, HeapUndoes, nothing_needed, parts, stopped};

use crate::claims::free_claims;
use qo_buses::{clock_of, set_named};
use qo_clocks::{device_period, disconnect};
use qo_heap::{Heap, Oid, Steps};
use qo_hotplug::Hotplug;
use qo_model::PropertyName;
use qo_reset::Resets;
use qo_values::{Act, Val};
use std::sync::ledger::Ledger;

/// The act of an object that is unrealized, where `period` is that of its clock.
fn act<L: Ledger>(heap: &mut Heap, o: Oid, period: u64, steps: &mut Steps<L>)
    requires live { IsLive heap.old.rows o }
    requires timely { Timely heap.old }
    ensures undoes { HeapUndoes nothing_needed (λ _ c. acted Unrealize o.birth period c) heap.old heap.new }
    ensures kept { KeptBefore heap.old heap.new }
{
    heap.act(o, Act::Unrealize, period, steps);
}

/// A bus is unrealized, whose kids are; no hold is left on it.
pub fn end_bus<L: Ledger>(heap: &mut Heap, resets: &mut Resets, bus: Oid, steps: &mut Steps<L>)
    requires live { IsLive heap.old.rows bus }
    requires timely { Timely heap.old }
    ensures { (asked : Asked) → Ends nothing_needed (λ _. unrealized_bus bus.birth)
        (parts heap.old resets.old.births asked) (parts heap.new resets.new.births asked) }
{
    act(heap, bus, 0, steps);
    resets.gone(heap, bus, steps);
}

/// A device acts with the period of its clock, which then loses its source and stands still. No clock
/// is to go by it.
fn stop<L: Ledger>(heap: &mut Heap, dev: Oid, steps: &mut Steps<L>)
    requires live { IsLive heap.old.rows dev }
    requires timely { Timely heap.old }
    ensures undoes { HeapUndoes (λ _. FeedsNone dev.birth) (λ _. stopped dev.birth) heap.old heap.new }
    ensures claims { ClaimsBefore heap.old heap.new }
    ensures counts { CountsBefore heap.old heap.new }
{
    let clock = clock_of(heap, dev, steps);
    let period = device_period(heap, dev, steps);
    act(heap, dev, period, steps);
    if let Some(clock) = clock {
        disconnect(heap, clock, steps);
    }
}

/// A device is told to be realized no more.
fn unset<L: Ledger>(heap: &mut Heap, dev: Oid, steps: &mut Steps<L>)
    requires { IsLive heap.old.rows dev }
    ensures undoes { HeapUndoes nothing_needed (λ _. set_named dev.birth (codes "realized") (val.Bool false)) heap.old heap.new }
    ensures kept { KeptBefore heap.old heap.new }
{
    set_named(heap, dev, PropertyName::Realized, Val::Bool(false), steps);
}

/// A device is unrealized, whose buses are: it acts, its clock stands still, it is realized no more,
/// its claims are free, and no hold, pending removal or notice of it is left. No clock is to go by its own.
pub fn end_device<L: Ledger>(
    heap: &mut Heap,
    resets: &mut Resets,
    hotplug: &mut Hotplug,
    dev: Oid,
    steps: &mut Steps<L>,
)
    requires live { IsLive heap.old.rows dev }
    requires timely { Timely heap.old }
    ensures { Ends (λ _. FeedsNone dev.birth) (λ _. unrealized_device dev.birth)
        (parts heap.old resets.old.births hotplug.old) (parts heap.new resets.new.births hotplug.new) }
{
    stop(heap, dev, steps);
    unset(heap, dev, steps);
    free_claims(heap, dev, steps);
    resets.gone(heap, dev, steps);
    hotplug.gone(dev);
}
