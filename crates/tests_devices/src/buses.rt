//! What no clause says: that each call that takes memory succeeds where there is enough.
ghost use Rattle.std.specs.Prelude.{◌≡◌, ◌<◌};

use qo_buses::{anonymous_name, join_bus, kid_at, kid_name};
use qo_heap::{Heap, Steps};
use qo_values::TypeId;
use std::alloc::{AllocError, Global};
use std::marker::Brand;
use std::sync::ledger::{Blank, Ledger};
use std::test::Fail;

/// Whether a device that joins a bus is the kid in its slot.
fn joined<L: Ledger>(alloc: Global, blank: Blank) -> Result<bool, AllocError>
    requires name { blank.name ≡ L.name }
    requires parts { blank.parts ≡ L.parts }
    requires some { 0 < blank.parts }
{
    let mut steps = Steps::<L>::from_blank(blank);
    let mut heap = Heap::new(alloc)?;
    heap.make(alloc, TypeId::SlotBus, &mut steps)?;
    heap.make(alloc, TypeId::SlotTimer, &mut steps)?;
    let (Some(bus), Some(dev)) = (heap.by_birth(1), heap.by_birth(2)) else {
        return Ok(false);
    };
    join_bus(&mut heap, bus, dev, kid_name(3), &mut steps)?;
    let Some(bus) = heap.by_birth(1) else {
        return Ok(false);
    };
    let kid = kid_at(&heap, bus, 3, &mut steps);
    Ok(kid.is_some_and(|kid| kid.birth == 2))
}

#[test]
fn joins(rt: HostRuntime) -> Result<(), Fail> {
    assert!(rt; joined::<Brand>(rt.alloc(), Blank::new(1))?);
    Ok(())
}

#[test]
fn names(rt: HostRuntime) -> Result<(), Fail> {
    assert_eq!(rt; kid_name(7).as_str(), "child[7]");
    assert_eq!(rt; anonymous_name(12, rt.alloc())?.as_str(), "device[12]");
    Ok(())
}
