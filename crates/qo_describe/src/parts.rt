//! The lists of a description, which are told of the objects in a container one after another.

ghost use Rattle.std.specs.Prelude.{◌≡◌, ◌++◌, [], flat_map, map, slice_get, IfOk, OnOk};
ghost use Rattle.std.specs.Option.{option_and_then, option_map_or};
ghost use Rattle.serde_json.specs.Data.{array};
ghost use Rattle.serde_json.specs.View.{items_of, view};
ghost use Rattle.qo_heap.specs.Board.{Shows};
ghost use Rattle.qo_heap.specs.Rows.{IsLive};
ghost use Rattle.qo_model.specs.Board.{Board, slots_at};
ghost use Rattle.qo_sound_devices.specs.SoundPlaces.{child_entries, child_entry};
ghost use Rattle.qo_values.specs.declared.births.TheConstants.{OBJECTS_BIRTH, PERIPHERAL_BIRTH};
ghost use Rattle.qo_describe.specs.Told.{entry_told};
ghost use Rattle.qo_describe.specs.declared.parts.Part.TheVariants.{Links};

use crate::clocks::push_clock_of;
use crate::devices::push_device;
use crate::entries::entry_at;
use crate::links::push_links;
use crate::objects::push_object;
use qo_heap::{Heap, Oid, Steps};
use qo_values::{OBJECTS_BIRTH, PERIPHERAL_BIRTH};
use serde_json::Value;
use std::alloc::{AllocError, Global};
use std::sync::ledger::Ledger;

/// A list of a description.
#[derive(Clone, Copy, Debug)]
pub(crate) enum Part {
    /// How the clocks of devices divide and multiply.
    Clocks,
    /// Devices.
    Devices,
    /// Links of devices and users' objects.
    Links,
    /// Users' objects.
    Objects,
}

/// Adds to a list what is told of an object under a name.
fn push_entry<L: Ledger>(
    heap: &Heap,
    part: Part,
    name: &str,
    o: Oid,
    values: &mut Vec<Value>,
    alloc: Global,
    steps: &mut Steps<L>,
) -> Result<(), AllocError>
    requires { IsLive heap.now.rows o }
    ensures { OnOk result ((b : Board) → Shows b heap.now → map view values.new.items ≡ map view values.old.items ++ entry_told part b (name.now, o.birth)) }
{
    match part {
        Part::Clocks => push_clock_of(heap, o, values, alloc, steps),
        Part::Devices => push_device(heap, name, o, values, alloc, steps),
        Part::Links => push_links(heap, o, values, alloc, steps),
        Part::Objects => push_object(heap, name, o, values, alloc, steps),
    }
}

/// Adds to a list what is told of the object in a slot of a container; nothing where none stands there.
fn push_slot<L: Ledger>(
    heap: &Heap,
    part: Part,
    container: Oid,
    at: usize,
    values: &mut Vec<Value>,
    alloc: Global,
    steps: &mut Steps<L>,
) -> Result<(), AllocError>
    requires { IsLive heap.now.rows container }
    ensures { OnOk result ((b : Board) → Shows b heap.now → map view values.new.items ≡ map view values.old.items ++ option_map_or (entry_told part b) (option_and_then child_entry (slice_get (slots_at b container.birth) at)) []) }
{
    match entry_at(heap, container, at, steps) {
        Some((name, o)) => push_entry(heap, part, name, o, values, alloc, steps),
        None => Ok(()),
    }
}

/// Adds to a list what is told of the objects in a container.
fn push_slots<L: Ledger>(
    heap: &Heap,
    part: Part,
    container: Oid,
    values: &mut Vec<Value>,
    alloc: Global,
    steps: &mut Steps<L>,
) -> Result<(), AllocError>
    requires { IsLive heap.now.rows container }
    ensures { OnOk result ((b : Board) → Shows b heap.now → map view values.new.items ≡ map view values.old.items ++ flat_map (entry_told part b) (child_entries b container.birth)) }
{
    let count = heap.slot_count(container, steps);
    for at in 0..count {
        push_slot(heap, part, container, at, values, alloc, steps)?;
    }
    Ok(())
}

/// The same of the container of a birth, where there is one.
fn push_all<L: Ledger>(
    heap: &Heap,
    part: Part,
    birth: u64,
    values: &mut Vec<Value>,
    alloc: Global,
    steps: &mut Steps<L>,
) -> Result<(), AllocError>
    ensures { OnOk result ((b : Board) → Shows b heap.now → map view values.new.items ≡ map view values.old.items ++ flat_map (entry_told part b) (child_entries b birth)) }
{
    match heap.by_birth(birth) {
        Some(container) => push_slots(heap, part, container, values, alloc, steps),
        None => Ok(()),
    }
}

/// A list of what is told of the objects in the container of a birth.
pub(crate) fn part_list<L: Ledger>(
    heap: &Heap,
    part: Part,
    birth: u64,
    alloc: Global,
    steps: &mut Steps<L>,
) -> Result<Value, AllocError>
    ensures { (b : Board) → Shows b heap.now → IfOk result (λ v. view v ≡ array (items_of (flat_map (entry_told part b) (child_entries b birth)))) }
{
    let mut values = Vec::new(alloc);
    push_all(heap, part, birth, &mut values, alloc, steps)?;
    Ok(Value::Array(values))
}

/// The links of users' objects, and then those of devices.
pub(crate) fn link_list<L: Ledger>(
    heap: &Heap,
    alloc: Global,
    steps: &mut Steps<L>,
) -> Result<Value, AllocError>
    ensures { (b : Board) → Shows b heap.now → IfOk result (λ v. view v ≡ array (items_of (flat_map (entry_told Links b) (child_entries b OBJECTS_BIRTH ++ child_entries b PERIPHERAL_BIRTH)))) }
{
    let mut values = Vec::new(alloc);
    push_all(heap, Part::Links, OBJECTS_BIRTH, &mut values, alloc, steps)?;
    push_all(
        heap,
        Part::Links,
        PERIPHERAL_BIRTH,
        &mut values,
        alloc,
        steps,
    )?;
    Ok(Value::Array(values))
}
