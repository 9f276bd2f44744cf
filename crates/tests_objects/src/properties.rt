//! What no clause says: that objects are given their slots, and attempted, where there is enough
//! memory.
ghost use Rattle.std.specs.Prelude.{◌≡◌, ◌<◌};

use qo_heap::{Heap, Steps};
use qo_properties::{failed_add, set_default_slots};
use qo_values::TypeId;
use std::alloc::{AllocError, Global};
use std::marker::Brand;
use std::sync::ledger::{Blank, Ledger};
use std::test::Fail;

/// A new tag with its slots, and an attempt, which takes a birth and leaves two notes.
fn attempted<L: Ledger>(alloc: Global, blank: Blank) -> Result<bool, AllocError>
    requires name { blank.name ≡ L.name }
    requires parts { blank.parts ≡ L.parts }
    requires some { 0 < blank.parts }
{
    let mut steps = Steps::<L>::from_blank(blank);
    let mut heap = Heap::new(alloc)?;
    heap.reveal_invariant();
    let tag = heap.make(alloc, TypeId::Tag, &mut steps)?;
    set_default_slots(&mut heap, tag, TypeId::Tag, alloc, &mut steps)?;
    failed_add(&mut heap, TypeId::Tag, alloc, &mut steps)?;
    let next = heap.make(alloc, TypeId::Tag, &mut steps)?;
    Ok(next.birth == 3 && heap.live() == 2 && heap.notes_total() == 2)
}

#[test]
fn attempts(rt: HostRuntime) -> Result<(), Fail> {
    assert!(rt; attempted::<Brand>(rt.alloc(), Blank::new(1))?);
    Ok(())
}
