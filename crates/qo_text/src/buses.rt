//! What `info qtree` tells (docs/PROFILE.md, monitor lines).

ghost use Rattle.std.specs.Prelude.{◌≡◌, ◌+◌, ◌*◌, ◌≤◌, ◌^◌, ◌++◌, [], string_bytes, slice_get, option_map, IfOk, IfSome, OnOk};
ghost use Rattle.std.specs.Option.{option_and_then, option_map_or};
ghost use Rattle.qo_heap.specs.Board.{Shows};
ghost use Rattle.qo_heap.specs.Rows.{IsLive};
ghost use Rattle.qo_model.specs.Board.{Board, slots_at};
ghost use Rattle.qo_model.specs.Depth.{by_depth};
ghost use Rattle.qo_model.specs.Devices.{strong_in};
ghost use Rattle.qo_text.specs.Buses.{bus_entry, bus_text, bus_turn, buses_text, device_text, id_text};

use crate::rows::{put_line, put_names};
use crate::trees::kind_name;
use qo_buses::{bus_in_slot, kid_in_slot};
use qo_heap::{Heap, Oid, Steps};
use qo_values::{MEMORY_BUS_BIRTH, ROOT_BUS_BIRTH};
use std::alloc::{AllocError, Global};
use std::sync::ledger::Ledger;

/// The id of a device; empty where it has none.
fn id_of<'h, L: Ledger>(heap: &'h Heap, dev: Oid, steps: &mut Steps<L>) -> &'h str
    requires { IsLive heap.now.rows dev }
    ensures { (b : Board) → Shows b heap.now → result.now ≡ id_text b dev.birth }
{
    match heap.device_id(dev, steps) {
        Some(id) => id.as_str(),
        None => "",
    }
}

/// The bus in a slot of a device, under its name; `None` where no bus stands there, and past the last
/// slot.
fn bus_at<'h, L: Ledger>(
    heap: &'h Heap,
    dev: Oid,
    at: usize,
    steps: &mut Steps<L>,
) -> Option<(&'h str, Oid)>
    requires { IsLive heap.now.rows dev }
    ensures bus { (b : Board) → Shows b heap.now → option_map (λ e. (e.0.now, e.1.birth)) result ≡ option_and_then (bus_entry b) (slice_get (slots_at b dev.birth) at) }
    ensures live { IfSome result (λ e. IsLive heap.now.rows e.1) }
{
    let slot = heap.slot_at(dev, at, steps)?;
    let bus = bus_in_slot(heap, dev, at, steps)?;
    Some((slot.name, bus))
}

/// Puts the lines of the bus in a slot of a device, and of what is on it, to a text; nothing where no
/// bus stands there.
#[cycle(buses)]
fn put_bus_at<L: Ledger>(
    heap: &Heap,
    dev: Oid,
    at: usize,
    spaces: usize,
    levels: usize,
    text: &mut String,
    steps: &mut Steps<L>,
) -> Result<(), AllocError>
    requires live { IsLive heap.now.rows dev }
    requires few { spaces + 4 * levels ≤ 2 ^ 32 }
    ensures { OnOk result ((b : Board) → Shows b heap.now → string_bytes text.new ≡ string_bytes text.old ++ option_map_or (λ e. by_depth (bus_turn b) (λ _ _ _. []) levels e.1 e.0 spaces) (option_and_then (bus_entry b) (slice_get (slots_at b dev.birth) at)) []) }
{
    let Some((name, bus)) = bus_at(heap, dev, at, steps) else {
        return Ok(());
    };
    put_bus(heap, bus, name, spaces, levels, text, steps)?;
    Ok(())
}

/// Puts the lines of a device on a bus, and of its buses, to a text.
#[cycle(buses)]
fn put_device<L: Ledger>(
    heap: &Heap,
    dev: Oid,
    spaces: usize,
    levels: usize,
    text: &mut String,
    steps: &mut Steps<L>,
) -> Result<(), AllocError>
    requires live { IsLive heap.now.rows dev }
    requires few { spaces + 4 + 4 * levels ≤ 2 ^ 32 }
    ensures { OnOk result ((b : Board) → Shows b heap.now → string_bytes text.new ≡ string_bytes text.old ++ device_text b (by_depth (bus_turn b) (λ _ _ _. []) levels) spaces dev.birth) }
{
    let kind = kind_name(heap, dev, steps);
    let id = id_of(heap, dev, steps);
    put_names(text, spaces + 2, "dev: ", kind, ", id \"", id, "\"\n")?;
    let count = heap.slot_count(dev, steps);
    for at in 0..count {
        put_bus_at(heap, dev, at, spaces + 4, levels, text, steps)?;
    }
    Ok(())
}

/// Puts the lines of the device in a slot of a bus to a text; nothing where no device stands there.
#[cycle(buses)]
fn put_kid<L: Ledger>(
    heap: &Heap,
    bus: Oid,
    at: usize,
    spaces: usize,
    levels: usize,
    text: &mut String,
    steps: &mut Steps<L>,
) -> Result<(), AllocError>
    requires live { IsLive heap.now.rows bus }
    requires few { spaces + 4 + 4 * levels ≤ 2 ^ 32 }
    ensures { OnOk result ((b : Board) → Shows b heap.now → string_bytes text.new ≡ string_bytes text.old ++ option_map_or (device_text b (by_depth (bus_turn b) (λ _ _ _. []) levels) spaces) (option_and_then (λ s. strong_in s.1) (slice_get (slots_at b bus.birth) at)) []) }
{
    let Some(kid) = kid_in_slot(heap, bus, at, steps) else {
        return Ok(());
    };
    put_device(heap, kid, spaces, levels, text, steps)?;
    Ok(())
}

/// Puts the lines of a bus under a name, and of the devices on it, to a text, so many levels deep.
#[cycle(buses)]
fn put_bus<L: Ledger>(
    heap: &Heap,
    bus: Oid,
    name: &str,
    spaces: usize,
    levels: usize,
    text: &mut String,
    steps: &mut Steps<L>,
) -> Result<(), AllocError>
    requires live { IsLive heap.now.rows bus }
    requires few { spaces + 4 * levels ≤ 2 ^ 32 }
    ensures { OnOk result ((b : Board) → Shows b heap.now → string_bytes text.new ≡ string_bytes text.old ++ by_depth (bus_turn b) (λ _ _ _. []) levels bus.birth name.now spaces) }
{
    if levels == 0 {
        return Ok(());
    }
    let kind = kind_name(heap, bus, steps);
    put_line(text, spaces, "bus: ", name)?;
    put_line(text, spaces + 2, "type ", kind)?;
    let count = heap.slot_count(bus, steps);
    for at in 0..count {
        put_kid(heap, bus, at, spaces, levels - 1, text, steps)?;
    }
    Ok(())
}

/// Puts the lines of the bus of a birth under a name to a text.
fn put_root<L: Ledger>(
    heap: &Heap,
    birth: u64,
    name: &str,
    text: &mut String,
    steps: &mut Steps<L>,
) -> Result<(), AllocError>
    ensures { OnOk result ((b : Board) → Shows b heap.now → string_bytes text.new ≡ string_bytes text.old ++ bus_text b birth name.now 0) }
{
    heap.reveal_invariant();
    let Some(bus) = heap.by_birth(birth) else {
        put_line(text, 0, "bus: ", name)?;
        put_line(text, 2, "type ", "")?;
        return Ok(());
    };
    put_bus(heap, bus, name, 0, heap.live() + 1, text, steps)?;
    Ok(())
}

/// The text of `info qtree`: each bus with the devices on it, and below these their buses. The error is
/// want of memory.
pub fn bus_tree<L: Ledger>(
    heap: &Heap,
    alloc: Global,
    steps: &mut Steps<L>,
) -> Result<String, AllocError>
    ensures { (b : Board) → Shows b heap.now → IfOk result (λ text. string_bytes text ≡ buses_text b) }
{
    let mut text = String::new(alloc);
    put_root(heap, ROOT_BUS_BIRTH, "root.0", &mut text, steps)?;
    put_root(heap, MEMORY_BUS_BIRTH, "mem.0", &mut text, steps)?;
    Ok(text)
}
