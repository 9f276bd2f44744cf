//! The region of an object of the board.

ghost use Rattle.std.specs.Prelude.{◌≡◌, ◌^◌, ◌<◌, ◌≤◌, IfOk, length};
ghost use Rattle.qo_heap.specs.Rows.{IsLive};
ghost use Rattle.qo_memmap.specs.Regions.{area_of};
ghost use Rattle.qo_model.specs.Board.{Board};
ghost use Rattle.qo_heap.specs.Board.{Shows};
ghost use Rattle.qo_layout.specs.Layout.{device_size, is_memory, mapped, region_of, slot_size};
ghost use Rattle.qo_layout.specs.Numbering.{births_of};

use crate::addresses::{DEVICE_SIZE, MEMORY_SIZE};
use crate::places::{memory_places, range_of, slot_places};
use qo_buses::{bus_of, depth, is_of};
use qo_heap::{Heap, Oid, Steps};
use qo_memmap::{Kind, Region};
use qo_values::{BUS_SLOTS, MEMORY_BUS_BIRTH, TypeId};
use std::alloc::{AllocError, Global};
use std::sync::ledger::Ledger;

/// Bits of the size of a slot of the root bus, and by how many fewer a slot has for each bridge above.
const SLOT_BITS: u64 = 44;

const BITS_PER_BRIDGE: u64 = 4;

/// Bytes of a slot of a bus below so many bridges.
fn slot_size(depth: u64) -> u64
    ensures size { result ≡ slot_size depth }
    ensures most { result ≤ 2 ^ 44 }
{
    1 << SLOT_BITS.saturating_sub(depth.saturating_mul(BITS_PER_BRIDGE))
}

/// Whether a device is a DIMM on the memory bus.
fn is_memory<L: Ledger>(heap: &Heap, dev: Oid, steps: &mut Steps<L>) -> bool
    requires { IsLive heap.now.rows dev }
    ensures { (b : Board) → Shows b heap.now → result ≡ is_memory b dev.birth }
{
    let Some(bus) = bus_of(heap, dev, steps) else {
        return false;
    };
    if bus.birth != MEMORY_BUS_BIRTH {
        return false;
    }
    is_of(heap, dev, TypeId::MemDimm, steps)
}

/// Bytes of a device: of a DIMM on the memory bus all that it has, of any other those of its registers.
fn device_size<L: Ledger>(heap: &Heap, dev: Oid, steps: &mut Steps<L>) -> u64
    requires { IsLive heap.now.rows dev }
    ensures { (b : Board) → Shows b heap.now → result ≡ device_size b dev.birth }
{
    if is_memory(heap, dev, steps) {
        return range_of(heap, dev, steps).size;
    }
    DEVICE_SIZE
}

/// The region of an object.
pub(crate) fn region_of<L: Ledger>(
    alloc: Global,
    heap: &Heap,
    objects: &[Oid],
    o: Oid,
    steps: &mut Steps<L>,
) -> Result<Region, AllocError>
    requires live { IsLive heap.now.rows o }
    requires few { length objects.now < 2 ^ 32 }
    ensures { (b : Board) → Shows b heap.now → births_of objects.now ≡ mapped b → IfOk result (λ r. area_of r ≡ region_of b o.birth) }
{
    if o.birth == MEMORY_BUS_BIRTH {
        return Ok(Region {
            size: MEMORY_SIZE,
            kind: Kind::Container,
            children: memory_places(alloc, heap, objects, o, steps)?,
        });
    }
    if is_of(heap, o, TypeId::Bus, steps) {
        let size = slot_size(depth(heap, o, steps));
        return Ok(Region {
            size: u64::from(BUS_SLOTS) * size,
            kind: Kind::Container,
            children: slot_places(alloc, heap, objects, o, size, steps)?,
        });
    }
    Ok(Region {
        size: device_size(heap, o, steps),
        kind: Kind::Leaf(o.birth),
        children: Vec::new(alloc),
    })
}
