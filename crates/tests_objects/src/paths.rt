//! What no clause says: that a path is written with ample memory.
ghost use Rattle.std.specs.Prelude.{◌≡◌, ◌<◌};

use crate::names::name_of;
use qo_heap::{Heap, Steps};
use qo_paths::canonical;
use qo_values::TypeId;
use std::alloc::Global;
use std::marker::Brand;
use std::sync::ledger::{Blank, Ledger};

/// A root with a child.
fn tree<L: Ledger>(alloc: Global, steps: &mut Steps<L>) -> Option<Heap> {
    let mut heap = Heap::new(alloc).ok()?;
    heap.make(alloc, TypeId::Container, steps).ok()?;
    heap.make(alloc, TypeId::Machine, steps).ok()?;
    let name = name_of(alloc, "machine")?;
    let root = heap.by_birth(1)?;
    let child = heap.by_birth(2)?;
    heap.add_child(root, name, child, steps).ok()?;
    Some(heap)
}

/// The path of the child.
fn written<L: Ledger>(alloc: Global, blank: Blank) -> Option<String>
    requires name { blank.name ≡ L.name }
    requires parts { blank.parts ≡ L.parts }
    requires some { 0 < blank.parts }
{
    let mut steps = Steps::<L>::from_blank(blank);
    let heap = tree(alloc, &mut steps)?;
    let child = heap.by_birth(2)?;
    canonical(&heap, child, alloc, &mut steps).ok()?
}

/// It over a new ledger.
fn written_once(alloc: Global) -> Option<String> {
    written::<Brand>(alloc, Blank::new(1))
}

#[test]
fn a_path_is_written_with_ample_memory(rt: HostRuntime) {
    let path = written_once(rt.alloc()).expect(&rt, "ample memory");
    assert_eq!(rt; path.as_str(), "/machine");
}
