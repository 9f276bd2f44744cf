//! The whole description.

ghost use Rattle.std.specs.Prelude.{◌≡◌, ◌==◌, ◌&&◌, [], ◌∷◌, length, map, not, option_map, IfOk};
ghost use Rattle.serde_json.specs.View.{view};
ghost use Rattle.qo_heap.specs.Board.{Shows};
ghost use Rattle.qo_model.specs.Board.{Board};
ghost use Rattle.qo_model.specs.Objects.{detached};
ghost use Rattle.qo_model.specs.Paths.{children_of};
ghost use Rattle.qo_values.specs.declared.births.TheConstants.{ANONYMOUS_BIRTH};
ghost use Rattle.qo_save.specs.Described.{described, description};
ghost use Rattle.qo_save.specs.Description.{description_data, description_names, named, whole};
ghost use Rattle.qo_describe.specs.Beside.{HasBeside};

use crate::clocks::clock_value;
use crate::entries::has_children;
use crate::parts::{Part, link_list, part_list};
use crate::rings::ring_list;
use qo_heap::{Heap, Steps};
use qo_properties::detached_list;
use qo_values::{ANONYMOUS_BIRTH, OBJECTS_BIRTH, PERIPHERAL_BIRTH, Text};
use serde_json::{Value, json};
use std::alloc::{AllocError, Global};
use std::sync::ledger::Ledger;

/// A description as a JSON object.
fn description_json(
    alloc: Global,
    clock: Value,
    clocks: Value,
    devices: Value,
    links: Value,
    objects: Value,
    rings: Value,
) -> Result<Value, AllocError>
    ensures { IfOk result (λ v. view v ≡ named description_names (view clock ∷ view clocks ∷ view devices ∷ view links ∷ view objects ∷ view rings ∷ whole 1 ∷ [])) }
{
    json!(in alloc; {
        "clock": clock,
        "clocks": clocks,
        "devices": devices,
        "links": links,
        "objects": objects,
        "rings": rings,
        "version": 1u64,
    })
}

/// What a description says of a board with these objects and rings.
fn description<L: Ledger>(
    heap: &Heap,
    rings: &[(Text, u64)],
    alloc: Global,
    steps: &mut Steps<L>,
) -> Result<Value, AllocError>
    ensures { (b : Board) → Shows b heap.now → map (λ r. (r.id, r.size)) b.rings ≡ rings.now → IfOk result (λ v. view v ≡ description_data (description b)) }
{
    let clock = clock_value(heap, alloc, steps)?;
    let clocks = part_list(heap, Part::Clocks, PERIPHERAL_BIRTH, alloc, steps)?;
    let devices = part_list(heap, Part::Devices, PERIPHERAL_BIRTH, alloc, steps)?;
    let links = link_list(heap, alloc, steps)?;
    let objects = part_list(heap, Part::Objects, OBJECTS_BIRTH, alloc, steps)?;
    let rings = ring_list(alloc, rings)?;
    description_json(alloc, clock, clocks, devices, links, objects, rings)
}

/// Whether there are devices that were added without an id.
fn has_anonymous<L: Ledger>(heap: &Heap, steps: &mut Steps<L>) -> bool
    ensures { (b : Board) → Shows b heap.now → (length (children_of b ANONYMOUS_BIRTH) == 0) ≡ not result }
{
    match heap.by_birth(ANONYMOUS_BIRTH) {
        Some(container) => has_children(heap, container, steps),
        None => false,
    }
}

/// Whether each object but `/` has a parent, and each device was added with an id.
fn is_plain<L: Ledger>(heap: &Heap, alloc: Global, steps: &mut Steps<L>) -> Result<bool, AllocError>
    ensures { (b : Board) → Shows b heap.now → IfOk result (λ plain. plain ≡ ((length (detached b) == 0) && (length (children_of b ANONYMOUS_BIRTH) == 0))) }
{
    if has_anonymous(heap, steps) {
        return Ok(false);
    }
    let list = detached_list(heap, alloc, steps)?;
    Ok(list.as_slice().is_empty())
}

/// The description of a board with these objects, these rings, each an id and a size, and with pending
/// removals or without (docs/PROFILE.md, descriptions). `None` exactly where the board has none: an object
/// but `/` has no parent, a removal is pending, or a device was added without an id. The error is want of
/// memory.
pub fn describe<L: Ledger>(
    heap: &Heap,
    rings: &[(Text, u64)],
    pending: bool,
    alloc: Global,
    steps: &mut Steps<L>,
) -> Result<Option<Value>, AllocError>
    ensures { (b : Board) → Shows b heap.now → HasBeside b rings.now pending → IfOk result (λ told. option_map view told ≡ option_map description_data (described b)) }
{
    if pending {
        return Ok(None);
    }
    let plain = is_plain(heap, alloc, steps)?;
    if !plain {
        return Ok(None);
    }
    let told = description(heap, rings, alloc, steps)?;
    Ok(Some(told))
}
