//! What no clause says: that an object is made with ample memory.
ghost use Rattle.std.specs.Prelude.{◌≡◌, ◌<◌};

use qo_heap::{Heap, Steps};
use qo_life::create;
use qo_values::TypeId;
use std::alloc::Global;
use std::marker::Brand;
use std::sync::ledger::{Blank, Ledger};

/// How many notes there are of a new object.
fn noted<L: Ledger>(alloc: Global, blank: Blank) -> Option<u64>
    requires name { blank.name ≡ L.name }
    requires parts { blank.parts ≡ L.parts }
    requires some { 0 < blank.parts }
{
    let mut steps = Steps::<L>::from_blank(blank);
    let mut heap = Heap::new(alloc).ok()?;
    create(&mut heap, alloc, TypeId::MemoryBackendRam, &mut steps).ok()?;
    Some(heap.notes_total())
}

/// It over a new ledger.
fn noted_once(alloc: Global) -> Option<u64> {
    noted::<Brand>(alloc, Blank::new(1))
}

#[test]
fn an_object_is_made_with_ample_memory(rt: HostRuntime) {
    assert_eq!(rt; noted_once(rt.alloc()), Some(2));
}
