//! The objects that have a region, in the order of their numbers: all that is below the buses of the
//! machine, each after what is below it.

ghost use Rattle.std.specs.Prelude.{◌≡◌, ◌==◌, ◌≤◌, ◌++◌, All, IfOk, IfSome, OnOk, codes, length, nat_eq, position, true};
ghost use Rattle.std.specs.List.{position_or_len};
ghost use Rattle.qo_heap.specs.Rows.{IsLive};
ghost use Rattle.qo_model.specs.Board.{Board};
ghost use Rattle.qo_model.specs.Paths.{is_of};
ghost use Rattle.qo_model.specs.Reset.{post};
ghost use Rattle.qo_object.specs.BoardObject.{birth_of};
ghost use Rattle.qo_heap.specs.Board.{Shows};
ghost use Rattle.qo_layout.specs.Layout.{mapped};
ghost use Rattle.qo_layout.specs.Numbering.{below_at, births_of, first_below, is_leaf, post_at, post_within};
ghost use Rattle.qo_sound_shapes.specs.SoundShape.{SoundShape};

use crate::registers::wiring;
use crate::wiring::Wiring;
use qo_buses::{bus_in_slot, is_of, kid_in_slot};
use qo_heap::{Heap, Oid, Steps};
use qo_values::{MEMORY_BUS_BIRTH, ROOT_BUS_BIRTH, TypeId};
use std::alloc::{AllocError, Global};
use std::sync::ledger::Ledger;

/// What is below an object in the slot at a place: of a bus a device, of any other object a bus.
#[inline(always)]
pub(crate) fn below_in_slot<L: Ledger>(
    heap: &Heap,
    o: Oid,
    bus: bool,
    at: usize,
    steps: &mut Steps<L>,
) -> Option<Oid>
    requires { IsLive heap.now.rows o }
    ensures below { (b : Board) → Shows b heap.now → birth_of result ≡ below_at b bus o.birth at }
    ensures live { IfSome result (IsLive heap.now.rows) }
{
    if bus {
        kid_in_slot(heap, o, at, steps)
    } else {
        bus_in_slot(heap, o, at, steps)
    }
}

/// The first place of a slot with something below an object, of so many slots: of a bus any may be, of a
/// bridge the last one, and of another device none is.
pub(crate) fn first_below(driven: Wiring, count: usize) -> usize
    ensures first { result ≡ first_below driven count }
    ensures within { result ≤ count }
{
    match driven {
        Wiring::Own => count,
        Wiring::Masked => count.saturating_sub(1),
        Wiring::Joined => 0,
    }
}

/// Whether nothing is below an object whatever slots it has: its line is an input.
pub(crate) fn is_leaf(driven: Wiring) -> bool
    ensures { result ≡ is_leaf driven }
{
    match driven {
        Wiring::Own => true,
        Wiring::Masked | Wiring::Joined => false,
    }
}

/// Adds what is in a slot of an object, after all that is below it, to a depth.
#[cycle(numbering)]
fn list_in_slot<L: Ledger>(
    heap: &Heap,
    o: Oid,
    bus: bool,
    at: usize,
    levels: usize,
    objects: &mut Vec<Oid>,
    steps: &mut Steps<L>,
) -> Result<(), AllocError>
    requires live { IsLive heap.now.rows o }
    requires all_live { All (IsLive heap.now.rows) objects.old.items }
    ensures listed { (b : Board) → Shows b heap.now → SoundShape b → OnOk result (births_of objects.new.items ≡ births_of objects.old.items ++ post_at b levels bus o.birth at) }
    ensures all_live { All (IsLive heap.now.rows) objects.new.items }
{
    if let Some(child) = below_in_slot(heap, o, bus, at, steps) {
        list_below(heap, child, levels, objects, steps)?;
    }
    Ok(())
}

/// Adds an object after all that is below it, to a depth.
#[cycle(numbering)]
fn list_below<L: Ledger>(
    heap: &Heap,
    o: Oid,
    levels: usize,
    objects: &mut Vec<Oid>,
    steps: &mut Steps<L>,
) -> Result<(), AllocError>
    requires live { IsLive heap.now.rows o }
    requires all_live { All (IsLive heap.now.rows) objects.old.items }
    ensures listed { (b : Board) → Shows b heap.now → SoundShape b → OnOk result (births_of objects.new.items ≡ births_of objects.old.items ++ post_within b levels o.birth) }
    ensures all_live { All (IsLive heap.now.rows) objects.new.items }
{
    if levels == 0 {
        return Ok(());
    }
    let bus = is_of(heap, o, TypeId::Bus, steps);
    let count = heap.slot_count(o, steps);
    let first = first_below(wiring(heap, o, steps), count);
    for at in first..count {
        list_in_slot(heap, o, bus, at, levels - 1, objects, steps)?;
    }
    objects.push(o)?;
    Ok(())
}

/// Adds a bus of the machine after all that is below it; nothing where there is no such bus.
fn list_bus<L: Ledger>(
    heap: &Heap,
    birth: u64,
    objects: &mut Vec<Oid>,
    steps: &mut Steps<L>,
) -> Result<(), AllocError>
    requires { All (IsLive heap.now.rows) objects.old.items }
    ensures listed { (b : Board) → Shows b heap.now → SoundShape b → is_of b (codes "bus") birth ≡ true → OnOk result (births_of objects.new.items ≡ births_of objects.old.items ++ post b birth) }
    ensures all_live { All (IsLive heap.now.rows) objects.new.items }
{
    heap.reveal_invariant();
    let Some(bus) = heap.by_birth(birth) else {
        return Ok(());
    };
    list_below(heap, bus, heap.live() + 1, objects, steps)
}

/// Lists the objects that have a region, in the order of their numbers, in place of what was listed.
pub(crate) fn list_mapped<L: Ledger>(
    heap: &Heap,
    objects: &mut Vec<Oid>,
    steps: &mut Steps<L>,
) -> Result<(), AllocError>
    ensures listed { (b : Board) → Shows b heap.now → SoundShape b → is_of b (codes "bus") ROOT_BUS_BIRTH ≡ true → is_of b (codes "bus") MEMORY_BUS_BIRTH ≡ true → OnOk result (births_of objects.new.items ≡ mapped b) }
    ensures live { All (IsLive heap.now.rows) objects.new.items }
{
    objects.clear();
    list_bus(heap, ROOT_BUS_BIRTH, objects, steps)?;
    list_bus(heap, MEMORY_BUS_BIRTH, objects, steps)
}

/// The objects that have a region, in the order of their numbers.
pub(crate) fn mapped<L: Ledger>(
    alloc: Global,
    heap: &Heap,
    steps: &mut Steps<L>,
) -> Result<Vec<Oid>, AllocError>
    ensures listed { (b : Board) → Shows b heap.now → SoundShape b → is_of b (codes "bus") ROOT_BUS_BIRTH ≡ true → is_of b (codes "bus") MEMORY_BUS_BIRTH ≡ true → IfOk result (λ objects. births_of objects.items ≡ mapped b) }
    ensures live { IfOk result (λ objects. All (IsLive heap.now.rows) objects.items) }
{
    let mut objects = Vec::new(alloc);
    list_mapped(heap, &mut objects, steps)?;
    Ok(objects)
}

/// Where the object of a birth stands in a list, if it does.
fn place_of(objects: &[Oid], birth: u64) -> Option<usize>
    ensures { result ≡ position (λ o. birth == o.birth) objects.now }
{
    objects.iter().position(|o| birth == o.birth)
}

/// The number of an object's region; how many there are, where it has none.
#[tactic(auto, using(crate::proofs::NumberingLemmas::number_there, crate::proofs::NumberingLemmas::number_absent))]
pub(crate) fn number_of(objects: &[Oid], birth: u64) -> usize
    ensures number { result ≡ position_or_len (nat_eq birth) (births_of objects.now) }
    ensures within { result ≤ length objects.now }
{
    match place_of(objects, birth) {
        Some(at) => at,
        None => objects.len(),
    }
}
