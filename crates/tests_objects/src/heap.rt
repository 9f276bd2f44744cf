//! What no clause says: that each call that takes memory succeeds where there is enough.
ghost use Rattle.std.specs.Prelude.{◌≡◌, ◌<◌};

use crate::names::name_of;
use qo_heap::{Heap, Steps};
use qo_values::{Act, TypeId, Val};
use std::alloc::Global;
use std::marker::Brand;
use std::sync::ledger::{Blank, Ledger};

/// Adds a truth value and a child to the first object.
fn add_first<L: Ledger>(heap: &mut Heap, alloc: Global, steps: &mut Steps<L>) -> Option<()> {
    let (value, child) = (name_of(alloc, "value")?, name_of(alloc, "child")?);
    let owner = heap.by_birth(1)?;
    heap.add_plain(owner, value, Val::Bool(false), steps).ok()?;
    let owner = heap.by_birth(1)?;
    let second = heap.by_birth(2)?;
    heap.add_child(owner, child, second, steps).ok()
}

/// Adds a link and an alias to the second object.
fn add_second<L: Ledger>(heap: &mut Heap, alloc: Global, steps: &mut Steps<L>) -> Option<()> {
    let (link, alias) = (name_of(alloc, "link")?, name_of(alloc, "alias")?);
    let owner = heap.by_birth(2)?;
    heap.add_link(owner, link, TypeId::Device, true, None, steps)
        .ok()?;
    let owner = heap.by_birth(2)?;
    let first = heap.by_birth(1)?;
    let property = name_of(alloc, "value")?;
    heap.add_alias(owner, alias, first, property, steps).ok()
}

/// Makes two objects with slots of each kind, and reads the notes.
fn made<L: Ledger>(alloc: Global, blank: Blank) -> Option<usize>
    requires name { blank.name ≡ L.name }
    requires parts { blank.parts ≡ L.parts }
    requires some { 0 < blank.parts }
{
    let mut steps = Steps::<L>::from_blank(blank);
    let mut heap = Heap::new(alloc).ok()?;
    heap.make(alloc, TypeId::Container, &mut steps).ok()?;
    let first = heap.by_birth(1)?;
    heap.act(first, Act::Init(TypeId::Container), 0, &mut steps);
    heap.make(alloc, TypeId::Device, &mut steps).ok()?;
    add_first(&mut heap, alloc, &mut steps)?;
    add_second(&mut heap, alloc, &mut steps)?;
    heap.reserve_event().ok()?;
    Some(heap.notes(0, alloc).ok()?.len())
}

/// It over a new ledger.
fn notes_made(alloc: Global) -> Option<usize> {
    made::<Brand>(alloc, Blank::new(1))
}

#[test]
fn objects_are_made_with_ample_memory(rt: HostRuntime) {
    assert_eq!(rt; notes_made(rt.alloc()), Some(1));
}
