//! Links that `qom-set` writes.

ghost use Rattle.std.specs.Prelude.{◌≡◌, ◌++◌, ℕ, false, if◌then◌else◌, List, [], ◌∷◌, map, None, Some, option_map, slice_get, IfOk, IfSome, OnOk};
ghost use Rattle.std.specs.Option.{option_and_then, option_map_or};
ghost use Rattle.serde_json.specs.Data.{string};
ghost use Rattle.serde_json.specs.View.{view};
ghost use Rattle.qo_heap.specs.Board.{Shows};
ghost use Rattle.qo_heap.specs.Rows.{IsLive};
ghost use Rattle.qo_model.specs.Board.{Board, slots_at};
ghost use Rattle.qo_model.specs.Properties.{may_set, property_named};
ghost use Rattle.qo_object.specs.BoardObject.{birth_of, shown_slot};
ghost use Rattle.qo_object.specs.Slots.{target_of};
ghost use Rattle.qo_save.specs.Described.{is_link, is_set, link_item, link_to};
ghost use Rattle.qo_save.specs.Description.{link_data, link_names, named};
ghost use Rattle.qo_model.specs.Board as tree;
ghost use Rattle.qo_describe.specs.Told.{entry_told, link_entry, link_told};
ghost use Rattle.qo_describe.specs.declared.parts.Part.TheVariants.{Links};

use qo_heap::{Heap, Oid, Slot, Steps};
use qo_model::Access;
use qo_properties::path_text;
use qo_types::TypeTable;
use qo_values::TypeId;
use serde_json::{Value, json};
use std::alloc::{AllocError, Global};
use std::sync::ledger::Ledger;

/// Whether `qom-set` and the adding command both write a property with this access.
fn may_set(access: Access) -> bool
    ensures { result ≡ may_set access }
{
    match access {
        Access::Both => true,
        _ => false,
    }
}

/// Whether they write the property of a name of an object of a type.
fn is_written(kind: TypeId, name: &str) -> bool
    ensures { result ≡ option_map_or (λ p. may_set p.access) (property_named kind name.now) false }
{
    match TypeTable::board().property(kind, name) {
        Some(row) => may_set(row.access),
        None => false,
    }
}

/// Whether they write the property of a name of an object.
fn is_set<L: Ledger>(heap: &Heap, o: Oid, name: &str, steps: &mut Steps<L>) -> bool
    requires { IsLive heap.now.rows o }
    ensures { (b : Board) → Shows b heap.now → result ≡ is_set b o.birth name.now }
{
    is_written(heap.kind(o, steps), name)
}

/// The target of a slot that is a link.
fn linked(what: &Slot) -> Option<Oid>
    ensures linked { birth_of result ≡ (if is_link (shown_slot what.now) then tree.target_of (shown_slot what.now) else None) }
    ensures named { IfSome result (λ key. target_of what.now ≡ Some key) }
{
    match what {
        Slot::Link { target, .. } => *target,
        _ => None,
    }
}

/// The name and the target of the link in a slot of an object; `None` where no link stands there that is
/// written and has a target, and past the last slot.
fn link_at<'h, L: Ledger>(
    heap: &'h Heap,
    o: Oid,
    at: usize,
    steps: &mut Steps<L>,
) -> Option<(&'h str, Oid)>
    requires { IsLive heap.now.rows o }
    ensures link { (b : Board) → Shows b heap.now → option_map (λ l. (l.0.now, l.1.birth)) result ≡ option_and_then (link_entry b o.birth) (slice_get (slots_at b o.birth) at) }
    ensures live { IfSome result (λ l. IsLive heap.now.rows l.1) }
{
    heap.reveal_invariant();
    let slot = heap.slot_at(o, at, steps)?;
    let target = linked(slot.what)?;
    if is_set(heap, o, slot.name, steps) {
        return Some((slot.name, target));
    }
    None
}

/// A link as a JSON object.
fn link_json(alloc: Global, path: &str, property: &str, value: &str) -> Result<Value, AllocError>
    ensures { IfOk result (λ v. view v ≡ named link_names (string path.now ∷ string property.now ∷ string value.now ∷ [])) }
{
    json!(in alloc; {"path": path, "property": property, "value": value})
}

/// A link of an object to a target.
fn link_value<L: Ledger>(
    heap: &Heap,
    o: Oid,
    name: &str,
    target: Oid,
    alloc: Global,
    steps: &mut Steps<L>,
) -> Result<Value, AllocError>
    ensures { (b : Board) → Shows b heap.now → IfOk result (λ v. view v ≡ link_data (link_to b o.birth name.now target.birth)) }
{
    let path = path_text(heap, o, alloc, steps)?;
    let value = path_text(heap, target, alloc, steps)?;
    link_json(alloc, path.as_str(), name, value.as_str())
}

/// Adds the link in a slot of an object to a list, where one stands there.
fn push_link_at<L: Ledger>(
    heap: &Heap,
    o: Oid,
    at: usize,
    values: &mut Vec<Value>,
    alloc: Global,
    steps: &mut Steps<L>,
) -> Result<(), AllocError>
    requires { IsLive heap.now.rows o }
    ensures { OnOk result ((b : Board) → Shows b heap.now → map view values.new.items ≡ map view values.old.items ++ option_map_or link_told (option_and_then (link_item b o.birth) (slice_get (slots_at b o.birth) at)) []) }
{
    let Some((name, target)) = link_at(heap, o, at, steps) else {
        return Ok(());
    };
    values.push(link_value(heap, o, name, target, alloc, steps)?)?;
    Ok(())
}

/// Adds the links of an object to a list.
pub(crate) fn push_links<L: Ledger>(
    heap: &Heap,
    o: Oid,
    values: &mut Vec<Value>,
    alloc: Global,
    steps: &mut Steps<L>,
) -> Result<(), AllocError>
    requires { IsLive heap.now.rows o }
    ensures { OnOk result ((b : Board) → Shows b heap.now → (name : List ℕ) → map view values.new.items ≡ map view values.old.items ++ entry_told Links b (name, o.birth)) }
{
    let count = heap.slot_count(o, steps);
    for at in 0..count {
        push_link_at(heap, o, at, values, alloc, steps)?;
    }
    Ok(())
}
