//! Devices, as they were added.

ghost use Rattle.std.specs.Prelude.{◌≡◌, ◌++◌, [], ◌∷◌, map, option_map, unwrap_or, Some, IfOk, OnOk};
ghost use Rattle.std.specs.String.{string_bytes};
ghost use Rattle.serde_json.specs.Data.{string};
ghost use Rattle.serde_json.specs.View.{view};
ghost use Rattle.qo_heap.specs.Board.{Shows};
ghost use Rattle.qo_heap.specs.Rows.{IsLive};
ghost use Rattle.qo_model.specs.Board.{Board};
ghost use Rattle.qo_model.specs.Devices.{bus_of, bus_slot_of};
ghost use Rattle.qo_model.specs.Properties.{target_text};
ghost use Rattle.qo_save.specs.Described.{device_item};
ghost use Rattle.qo_save.specs.Description.{device_data, device_names, named, whole};
ghost use Rattle.qo_describe.specs.Told.{entry_told};
ghost use Rattle.qo_describe.specs.declared.parts.Part.TheVariants.{Devices};

use crate::given::{Owner, props_value};
use qo_buses::{bus_of, bus_slot_of};
use qo_heap::{Heap, Oid, Steps};
use qo_properties::target_text;
use serde_json::{Value, json};
use std::alloc::{AllocError, Global};
use std::sync::ledger::Ledger;

/// A device as a JSON object.
fn device_json(
    alloc: Global,
    bus: &str,
    driver: &str,
    id: &str,
    props: Value,
    slot: u64,
) -> Result<Value, AllocError>
    ensures { IfOk result (λ v. view v ≡ named device_names (string bus.now ∷ string driver.now ∷ string id.now ∷ view props ∷ whole slot ∷ [])) }
{
    json!(in alloc; {"bus": bus, "driver": driver, "id": id, "props": props, "slot": slot})
}

/// The path of the bus that a device is on; empty where it is on none.
fn bus_text<L: Ledger>(
    heap: &Heap,
    dev: Oid,
    alloc: Global,
    steps: &mut Steps<L>,
) -> Result<String, AllocError>
    requires { IsLive heap.now.rows dev }
    ensures { (b : Board) → Shows b heap.now → IfOk result (λ text. string_bytes text ≡ target_text b (bus_of b dev.birth)) }
{
    let bus = bus_of(heap, dev, steps);
    target_text(heap, bus, alloc, steps)
}

/// The slot of a device on its bus; 0 where it has none.
fn slot_of<L: Ledger>(heap: &Heap, dev: Oid, steps: &mut Steps<L>) -> u64
    requires { IsLive heap.now.rows dev }
    ensures { (b : Board) → Shows b heap.now → result ≡ unwrap_or (bus_slot_of b dev.birth) 0 }
{
    bus_slot_of(heap, dev, steps).unwrap_or(0)
}

/// A device of an id.
fn device_value<L: Ledger>(
    heap: &Heap,
    id: &str,
    dev: Oid,
    alloc: Global,
    steps: &mut Steps<L>,
) -> Result<Value, AllocError>
    requires { IsLive heap.now.rows dev }
    ensures { (b : Board) → Shows b heap.now → IfOk result (λ v. option_map device_data (device_item b (id.now, dev.birth)) ≡ Some (view v)) }
{
    let bus = bus_text(heap, dev, alloc, steps)?;
    let driver = heap.kind(dev, steps).name();
    let props = props_value(heap, dev, Owner::Device, alloc, steps)?;
    let slot = slot_of(heap, dev, steps);
    device_json(alloc, bus.as_str(), driver, id, props, slot)
}

/// Adds a device of an id to a list.
pub(crate) fn push_device<L: Ledger>(
    heap: &Heap,
    id: &str,
    dev: Oid,
    values: &mut Vec<Value>,
    alloc: Global,
    steps: &mut Steps<L>,
) -> Result<(), AllocError>
    requires { IsLive heap.now.rows dev }
    ensures { OnOk result ((b : Board) → Shows b heap.now → map view values.new.items ≡ map view values.old.items ++ entry_told Devices b (id.now, dev.birth)) }
{
    values.push(device_value(heap, id, dev, alloc, steps)?)?;
    Ok(())
}
