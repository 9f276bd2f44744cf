//! What no clause says: that room is made where there is enough memory.
ghost use Rattle.std.specs.Prelude.{◌≡◌, ◌<◌};

use qo_heap::{Heap, Steps};
use qo_reset::Resets;
use qo_values::{ResetKind, TypeId};
use std::alloc::Global;
use std::marker::Brand;
use std::sync::ledger::{Blank, Ledger};

/// How many holds there are on an object that was held, and how many notes there are once it was let
/// go and then held and let go at once.
fn held_and_released<L: Ledger>(alloc: Global, blank: Blank) -> Option<(u32, u64)>
    requires name { blank.name ≡ L.name }
    requires parts { blank.parts ≡ L.parts }
    requires some { 0 < blank.parts }
{
    let mut steps = Steps::<L>::from_blank(blank);
    let mut heap = Heap::new(alloc).ok()?;
    heap.make(alloc, TypeId::Machine, &mut steps).ok()?;
    let mut resets = Resets::new(alloc);
    resets.reserve().ok()?;
    let root = heap.by_birth(1)?;
    resets
        .hold(&mut heap, root, ResetKind::Cold, &mut steps)
        .ok()?;
    let root = heap.by_birth(1)?;
    let count = resets.count(&heap, root, &mut steps);
    resets.release(&mut heap, root, &mut steps).ok()?;
    let root = heap.by_birth(1)?;
    resets.pulse(&mut heap, root, ResetKind::Wakeup, &mut steps);
    Some((count, heap.notes_total()))
}

/// It over a new ledger.
fn holds_and_notes(alloc: Global) -> Option<(u32, u64)> {
    held_and_released::<Brand>(alloc, Blank::new(1))
}

#[test]
fn an_object_is_held_with_ample_memory(rt: HostRuntime) {
    assert_eq!(rt; holds_and_notes(rt.alloc()), Some((1, 6)));
}
