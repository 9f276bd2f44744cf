//! What no clause says: that a device is detached with ample memory for what comes before.
ghost use Rattle.std.specs.Prelude.{◌≡◌, ◌<◌};

use qo_heap::{Heap, Steps};
use qo_hotplug::Hotplug;
use qo_reset::Resets;
use qo_unplug::detach;
use qo_values::TypeId;
use std::alloc::Global;
use std::marker::Brand;
use std::sync::ledger::{Blank, Ledger};

/// A bridge alone, whose removal is asked for, is detached: how many objects and notes there are then,
/// and how many removals are pending.
fn detached<L: Ledger>(alloc: Global, blank: Blank) -> Option<(usize, u64, usize)>
    requires name { blank.name ≡ L.name }
    requires parts { blank.parts ≡ L.parts }
    requires some { 0 < blank.parts }
{
    let mut steps = Steps::<L>::from_blank(blank);
    let Ok(mut heap) = Heap::new(alloc) else {
        return None;
    };
    let Ok(bridge) = heap.make(alloc, TypeId::SlotBridge, &mut steps) else {
        return None;
    };
    let mut resets = Resets::new(alloc);
    let mut hotplug = Hotplug::new(alloc).ok()?;
    let bridge = heap.by_birth(bridge.birth)?;
    hotplug.ask(bridge, heap.time()).ok()?;
    detach(&mut heap, &mut resets, &mut hotplug, bridge, &mut steps);
    Some((heap.live(), heap.notes_total(), hotplug.pending().len()))
}

/// It over a new ledger.
fn detached_once(alloc: Global) -> Option<(usize, u64, usize)> {
    detached::<Brand>(alloc, Blank::new(1))
}

#[test]
fn a_device_is_detached_with_ample_memory(rt: HostRuntime) {
    assert_eq!(rt; detached_once(rt.alloc()), Some((1, 1, 0)));
}
