//! Where regions stand in the region of a bus, slot after slot.

ghost use Rattle.std.specs.Prelude.{◌≡◌, ◌+◌, ◌-◌, ◌*◌, ◌^◌, ◌<◌, ◌≤◌, ◌++◌, IfOk, OnOk, flat_map, length};
ghost use Rattle.qo_values.specs.declared.births.TheConstants.{MEMORY_BUS_BIRTH as memory_bus};
ghost use Rattle.qo_heap.specs.Rows.{IsLive};
ghost use Rattle.qo_model.specs.Board.{Board};
ghost use Rattle.qo_heap.specs.Board.{Shows};
ghost use Rattle.qo_layout.specs.Layout.{device_places, mapped, memory_places, placed, range_of, slot_places, slots_of_bus};
ghost use Rattle.qo_layout.specs.Numbering.{births_of};

use crate::addresses::MEMORY_AT;
use crate::numbering::number_of;
use qo_buses::{first_bus, kid_at};
use qo_dimm::Dimm;
use qo_heap::{Heap, Oid, Steps};
use qo_kinds::Device;
use qo_memmap::Place;
use qo_values::BUS_SLOTS;
use std::alloc::{AllocError, Global};
use std::sync::ledger::Ledger;

/// The region of an object as a child of another, at an address.
pub(crate) fn placed(objects: &[Oid], birth: u64, at: u64) -> Place
    requires few { length objects.now < 2 ^ 32 }
    ensures { (b : Board) → births_of objects.now ≡ mapped b → result ≡ placed b birth at }
{
    Place {
        region: number_of(objects, birth) as u32,
        at,
        priority: 0,
    }
}

/// Adds a device at the beginning of a slot, and the bus of a bridge in the slot's second half.
fn push_device<L: Ledger>(
    heap: &Heap,
    objects: &[Oid],
    at: u64,
    size: u64,
    dev: Oid,
    places: &mut Vec<Place>,
    steps: &mut Steps<L>,
) -> Result<(), AllocError>
    requires live { IsLive heap.now.rows dev }
    requires few { length objects.now < 2 ^ 32 }
    requires fits { at + size < 2 ^ 64 }
    ensures { (b : Board) → Shows b heap.now → births_of objects.now ≡ mapped b → OnOk result (places.new.items ≡ places.old.items ++ device_places b at size dev.birth) }
{
    places.push(placed(objects, dev.birth, at))?;
    if let Some(bus) = first_bus(heap, dev, steps) {
        places.push(placed(objects, bus.birth, at + size / 2))?;
    }
    Ok(())
}

/// Adds what stands in a slot of a bus.
fn push_slot<L: Ledger>(
    heap: &Heap,
    objects: &[Oid],
    bus: Oid,
    size: u64,
    slot: u8,
    places: &mut Vec<Place>,
    steps: &mut Steps<L>,
) -> Result<(), AllocError>
    requires live { IsLive heap.now.rows bus }
    requires few { length objects.now < 2 ^ 32 }
    requires low { slot < 8 }
    requires fits { size ≤ 2 ^ 44 }
    ensures { (b : Board) → Shows b heap.now → births_of objects.now ≡ mapped b → OnOk result (places.new.items ≡ places.old.items ++ slot_places b bus.birth size slot) }
{
    if let Some(dev) = kid_at(heap, bus, slot, steps) {
        push_device(
            heap,
            objects,
            u64::from(slot) * size,
            size,
            dev,
            places,
            steps,
        )?;
    }
    Ok(())
}

/// What stands in the slots of a bus, each of so many bytes.
pub(crate) fn slot_places<L: Ledger>(
    alloc: Global,
    heap: &Heap,
    objects: &[Oid],
    bus: Oid,
    size: u64,
    steps: &mut Steps<L>,
) -> Result<Vec<Place>, AllocError>
    requires live { IsLive heap.now.rows bus }
    requires few { length objects.now < 2 ^ 32 }
    requires fits { size ≤ 2 ^ 44 }
    ensures { (b : Board) → Shows b heap.now → births_of objects.now ≡ mapped b → IfOk result (λ places. places.items ≡ flat_map (slot_places b bus.birth size) slots_of_bus) }
{
    let mut places = Vec::new(alloc);
    for slot in 0..BUS_SLOTS {
        push_slot(heap, objects, bus, size, slot, &mut places, steps)?;
    }
    Ok(places)
}

/// The range of addresses on which a DIMM stands; an empty one of any other device.
pub(crate) fn range_of<L: Ledger>(heap: &Heap, dev: Oid, steps: &mut Steps<L>) -> Dimm
    requires { IsLive heap.now.rows dev }
    ensures { (b : Board) → Shows b heap.now → result ≡ range_of b dev.birth }
{
    match &heap.body(dev, steps).device {
        Device::Dimm(dimm) => *dimm,
        _ => Dimm { addr: 0, size: 0 },
    }
}

/// Adds the DIMM in a slot of the memory bus, at its address.
fn push_dimm<L: Ledger>(
    heap: &Heap,
    objects: &[Oid],
    bus: Oid,
    slot: u8,
    places: &mut Vec<Place>,
    steps: &mut Steps<L>,
) -> Result<(), AllocError>
    requires live { IsLive heap.now.rows bus }
    requires few { length objects.now < 2 ^ 32 }
    requires memory { bus.birth ≡ memory_bus }
    ensures { (b : Board) → Shows b heap.now → births_of objects.now ≡ mapped b → OnOk result (places.new.items ≡ places.old.items ++ memory_places b slot) }
{
    if let Some(dev) = kid_at(heap, bus, slot, steps) {
        let range = range_of(heap, dev, steps);
        places.push(placed(objects, dev.birth, range.addr.saturating_sub(MEMORY_AT)))?;
    }
    Ok(())
}

/// What stands in the slots of the memory bus.
pub(crate) fn memory_places<L: Ledger>(
    alloc: Global,
    heap: &Heap,
    objects: &[Oid],
    bus: Oid,
    steps: &mut Steps<L>,
) -> Result<Vec<Place>, AllocError>
    requires live { IsLive heap.now.rows bus }
    requires few { length objects.now < 2 ^ 32 }
    requires memory { bus.birth ≡ memory_bus }
    ensures { (b : Board) → Shows b heap.now → births_of objects.now ≡ mapped b → IfOk result (λ places. places.items ≡ flat_map (memory_places b) slots_of_bus) }
{
    let mut places = Vec::new(alloc);
    for slot in 0..BUS_SLOTS {
        push_dimm(heap, objects, bus, slot, &mut places, steps)?;
    }
    Ok(places)
}
