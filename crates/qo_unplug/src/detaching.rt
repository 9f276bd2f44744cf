//! A device is detached: it is unrealized, and then taken out of the tree.

ghost use Rattle.std.specs.Prelude.{◌≡◌, ℕ, ◌≤◌};
ghost use Rattle.qo_model.specs.Board.{Board};
ghost use Rattle.qo_model.specs.Unplug.{detach};
ghost use Rattle.qo_heap.specs.Rows.{IsLive};
ghost use Rattle.qo_heap.specs.Board.{Shows, pins_in};
ghost use Rattle.qo_heap.specs.Objects.{pins_of};
ghost use Rattle.qo_heap.specs.Moments.{Timely};
ghost use Rattle.qo_life.specs.Life.{KeepsNames};
ghost use Rattle.qo_properties.specs.Claims.{KeepsBook};
ghost use Rattle.qo_kinds.specs.declared.kept_set.KeptSet.{KeptSet};
ghost use Rattle.qo_clocks.specs.Kept.{PeriodsKept};
ghost use Rattle.qo_unplug.specs.BoardParts.{Beside};
ghost use Rattle.qo_unplug.specs.Feeding.{MayDetach};
ghost use Rattle.qo_unplug.specs.RealizedClaims.{KeepsDue};
ghost use Rattle.qo_unplug.specs.Unrealizing.{KeepsHeld};

use crate::unparenting::take_out;
use crate::unrealizing::unrealize;
use qo_heap::{Heap, Oid, Steps};
use qo_hotplug::Hotplug;
use qo_life::drop_pin;
use qo_reset::Resets;
use std::sync::ledger::Ledger;

/// A device is unrealized, with all that is below it, and taken out of the tree, while it is held
/// (include/hw/qdev-core.h, "Realization" and `unparent`; include/hw/hotplug.h; the order is the
/// profile's). What nothing refers to any more is finalized. No hold, no pending removal and no
/// notice is left of a device that was unrealized, and no hold is kept of it. A timer stops at the heap's time, which none may be
/// ahead of. Each object may be held from outside the tree once at most. Where the device stands on a
/// sound board, no clock goes by its own any more once those below it are unrealized, so the periods
/// that are kept of clocks stay right. It always succeeds, and takes no memory.
pub fn detach<L: Ledger>(
    heap: &mut Heap,
    resets: &mut Resets,
    hotplug: &mut Hotplug,
    dev: Oid,
    steps: &mut Steps<L>,
)
    requires live { IsLive heap.old.rows dev }
    requires timely { Timely heap.old }
    requires pins { (n : ℕ) → pins_of heap.old n ≤ 1 }
    ensures shown { (b : Board) → MayDetach b dev.birth heap.old → Beside b heap.old resets.old.births hotplug.old →
        Beside (detach b dev.birth) heap.new resets.new.births hotplug.new }
    ensures seen { (b : Board) → MayDetach b dev.birth heap.old → Shows b heap.old → Shows (detach b dev.birth) heap.new }
    ensures counts { (b : Board) → MayDetach b dev.birth heap.old → Shows b heap.old → (n : ℕ) (was : ℕ × ℕ) →
        KeepsHeld n was b heap.old → KeepsHeld n was (detach b dev.birth) heap.new }
    ensures periods { (b : Board) → MayDetach b dev.birth heap.old → Shows b heap.old → PeriodsKept heap.new }
    ensures claims { (b : Board) → MayDetach b dev.birth heap.old → Beside b heap.old resets.old.births hotplug.old → (due : ℕ → KeptSet) →
        KeepsDue due b heap.old → KeepsDue due (detach b dev.birth) heap.new }
    ensures book { KeepsBook heap.old heap.new }
    ensures names { KeepsNames heap.old heap.new }
    ensures pins { pins_in heap.new.rows ≡ pins_in heap.old.rows }
    ensures timely { Timely heap.new }
{
    heap.reveal_invariant();
    let levels = heap.live();
    heap.pin(dev, steps);
    unrealize(heap, resets, hotplug, dev, steps);
    take_out(heap, dev, levels, steps);
    heap.reveal_invariant();
    drop_pin(heap, dev, steps);
}
