//! The memory map of a board, made from its heap.

ghost use Rattle.std.specs.Prelude.{◌≡◌, ◌<◌, ◌^◌, ◌++◌, [], ◌∷◌, length, IfErr, IfOk, OnOk};
ghost use Rattle.qo_heap.specs.Rows.{IsLive};
ghost use Rattle.qo_model.specs.Board.{Board};
ghost use Rattle.qo_heap.specs.Board.{Shows};
ghost use Rattle.qo_memmap.specs.declared.errors.MapError.TheVariants.{Memory};
ghost use Rattle.qo_sound_devices.specs.SoundDevices.{SoundDevices};
ghost use Rattle.qo_sound_claims.specs.SoundClaims.{SoundClaims};
ghost use Rattle.qo_sound_shapes.specs.SoundShape.{SoundShape};
ghost use Rattle.qo_layout.specs.Layout.{MayAdd, board_map, boot_leaf, boot_number, low_alias, low_number, mapped, region_of, root_number, root_region};
ghost use Rattle.qo_layout.specs.Numbering.{births_of};

use crate::addresses::{BOOT_LEAF, BOOT_SIZE, LOW_SIZE, MEMORY_AT, ROOT_SIZE, SLOTS_AT};
use crate::numbering::{mapped, number_of};
use crate::places::placed;
use crate::regions::region_of;
use qo_heap::{Heap, Oid, Steps};
use qo_memmap::{Kind, MAX_REGIONS, Map, MapError, Place, Region};
use qo_values::{MEMORY_BUS_BIRTH, ROOT_BUS_BIRTH};
use std::alloc::{AllocError, Global};
use std::sync::ledger::Ledger;

/// The regions of a board, and the number of the root, in which all others stand.
#[derive(Drop)]
pub struct BoardMap {
    pub map: Map,
    pub root: u32,
}

/// Adds the region of an object.
#[tactic(auto, using(crate::proofs::AddLemmas::added_memory))]
fn add_object<L: Ledger>(
    alloc: Global,
    heap: &Heap,
    objects: &[Oid],
    o: Oid,
    map: &mut Map,
    steps: &mut Steps<L>,
) -> Result<(), MapError>
    requires live { IsLive heap.now.rows o }
    requires few { length objects.now < 2 ^ 32 }
    ensures added { (b : Board) → Shows b heap.now → births_of objects.now ≡ mapped b → OnOk result (map.new ≡ map.old ++ region_of b o.birth ∷ []) }
    ensures err { (b : Board) → Shows b heap.now → births_of objects.now ≡ mapped b → MayAdd map.old (region_of b o.birth) → IfErr result (λ e. e ≡ Memory) }
{
    let region = region_of(alloc, heap, objects, o, steps)?;
    map.add(region)?;
    Ok(())
}

/// Adds what a board boots from.
#[tactic(auto, using(crate::proofs::AddLemmas::added_memory))]
fn add_boot(alloc: Global, map: &mut Map) -> Result<u32, MapError>
    ensures added { IfOk result (λ number. (number ≡ length map.old) × (map.new ≡ map.old ++ boot_leaf ∷ [])) }
    ensures err { MayAdd map.old boot_leaf → IfErr result (λ e. e ≡ Memory) }
{
    map.add(Region {
        size: BOOT_SIZE,
        kind: Kind::Leaf(BOOT_LEAF),
        children: Vec::new(alloc),
    })
}

/// Adds the low addresses, at which the memory shows.
#[tactic(auto, using(crate::proofs::AddLemmas::added_memory))]
fn add_low(alloc: Global, objects: &[Oid], map: &mut Map) -> Result<u32, MapError>
    requires few { length objects.now < 2 ^ 32 }
    ensures added { (b : Board) → births_of objects.now ≡ mapped b → IfOk result (λ number. (number ≡ length map.old) × (map.new ≡ map.old ++ low_alias b ∷ [])) }
    ensures err { (b : Board) → births_of objects.now ≡ mapped b → MayAdd map.old (low_alias b) → IfErr result (λ e. e ≡ Memory) }
{
    let memory = number_of(objects, MEMORY_BUS_BIRTH) as u32;
    map.add(Region {
        size: LOW_SIZE,
        kind: Kind::Alias(memory, 0),
        children: Vec::new(alloc),
    })
}

/// What stands in the root.
fn root_places(
    alloc: Global,
    objects: &[Oid],
    boot: u32,
    low: u32,
) -> Result<Vec<Place>, AllocError>
    requires few { length objects.now < 2 ^ 32 }
    ensures { (b : Board) → births_of objects.now ≡ mapped b → boot ≡ boot_number b → low ≡ low_number b → IfOk result (λ places. places.items ≡ (root_region b).children) }
{
    let boot = Place {
        region: boot,
        at: 0,
        priority: 0,
    };
    let memory = placed(objects, MEMORY_BUS_BIRTH, MEMORY_AT);
    let slots = placed(objects, ROOT_BUS_BIRTH, SLOTS_AT);
    let low = Place {
        region: low,
        at: 0,
        priority: -1,
    };
    let places = Vec::from_array(alloc, [boot, memory, slots, low])?;
    Ok(places)
}

/// Adds the root.
#[tactic(auto, using(crate::proofs::AddLemmas::added_memory))]
fn add_root(
    alloc: Global,
    objects: &[Oid],
    boot: u32,
    low: u32,
    map: &mut Map,
) -> Result<u32, MapError>
    requires few { length objects.now < 2 ^ 32 }
    ensures added { (b : Board) → births_of objects.now ≡ mapped b → boot ≡ boot_number b → low ≡ low_number b → IfOk result (λ number. (number ≡ length map.old) × (map.new ≡ map.old ++ root_region b ∷ [])) }
    ensures there { IfOk result (λ number. number < length map.new) }
    ensures err { (b : Board) → births_of objects.now ≡ mapped b → boot ≡ boot_number b → low ≡ low_number b → MayAdd map.old (root_region b) → IfErr result (λ e. e ≡ Memory) }
{
    map.add(Region {
        size: ROOT_SIZE,
        kind: Kind::Container,
        children: root_places(alloc, objects, boot, low)?,
    })
}

/// The memory map of the board of a heap. On a sound board the one error is want of memory.
pub fn memory_map<L: Ledger>(
    alloc: Global,
    heap: &Heap,
    steps: &mut Steps<L>,
) -> Result<BoardMap, MapError>
    ensures map { (b : Board) → Shows b heap.now → SoundShape b → IfOk result (λ m. (m.map ≡ board_map b) × (m.root ≡ root_number b)) }
    ensures there { IfOk result (λ m. m.root < length m.map) }
    ensures err { (b : Board) → Shows b heap.now → SoundDevices b → SoundShape b → SoundClaims b → IfErr result (λ e. e ≡ Memory) }
{
    heap.reveal_invariant();
    let objects = mapped(alloc, heap, steps)?;
    if objects.len() >= MAX_REGIONS {
        return Err(MapError::Full);
    }
    let mut map = Map::new(alloc);
    for o in &objects {
        add_object(alloc, heap, &objects, *o, &mut map, steps)?;
    }
    let boot = add_boot(alloc, &mut map)?;
    let low = add_low(alloc, &objects, &mut map)?;
    let root = add_root(alloc, &objects, boot, low, &mut map)?;
    Ok(BoardMap { map, root })
}
