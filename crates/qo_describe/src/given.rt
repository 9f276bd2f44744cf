//! What was given for the properties of devices and of users' objects.

ghost use Rattle.std.specs.Prelude.{◌≡◌, if◌then◌else◌, IfOk, OnOk, map};
ghost use Rattle.std.specs.Option.{option_map_or};
ghost use Rattle.serde_json.specs.Data.{object};
ghost use Rattle.serde_json.specs.View.{members_view, view};
ghost use Rattle.qo_values.specs.declared.properties.Val.TheVariants as val;
ghost use Rattle.qo_model.specs.Board.{Board, slot_named};
ghost use Rattle.qo_model.specs.RowNames.{property_name};
ghost use Rattle.qo_model.specs.Properties.{target_text};
ghost use Rattle.qo_object.specs.BoardObject.{birth_of, shown_slot};
ghost use Rattle.qo_heap.specs.Board.{Shows};
ghost use Rattle.qo_heap.specs.Rows.{IsLive};
ghost use Rattle.qo_save.specs.Described.{given_in, is_nothing, is_unset, prop_under, props_under};
ghost use Rattle.qo_save.specs.Description.{props_members};
ghost use Rattle.qo_describe.specs.Given.{given_names, left_out, with_prop};

use qo_heap::{Heap, Oid, Slot, Steps};
use qo_model::PropertyName;
use qo_properties::{copy_of, target_text};
use qo_values::{Text, Val, to_json};
use serde_json::{Map, Value, put};
use std::alloc::{AllocError, Global};
use std::sync::ledger::Ledger;

/// Whose properties are told.
#[derive(Clone, Copy, Debug)]
pub(crate) enum Owner {
    /// Those of a device; an empty text says nothing.
    Device,
    /// Those of a user's object.
    Object,
}

/// Whether a value is none.
fn is_nothing(val: &Val) -> bool
    ensures { result ≡ is_nothing val.now }
{
    matches!(val, Val::Nothing)
}

/// Whether a value says nothing of a device.
fn is_unset(val: &Val) -> bool
    ensures { result ≡ is_unset val.now }
{
    match val {
        Val::Text(text) => text.as_str().is_empty(),
        _ => is_nothing(val),
    }
}

impl Owner {
    /// The names of the properties that are told, in byte order.
    fn names(self) -> &'static [PropertyName]
        ensures { map property_name result.now ≡ given_names self }
    {
        match self {
            Owner::Device => &[
                PropertyName::Addr,
                PropertyName::Chardev,
                PropertyName::Memdev,
            ],
            Owner::Object => &[
                PropertyName::Flag,
                PropertyName::Number,
                PropertyName::Size,
                PropertyName::Text,
            ],
        }
    }

    /// Whether a value is left out.
    fn leaves_out(self, val: &Val) -> bool
        ensures { result ≡ left_out self val.now }
    {
        match self {
            Owner::Device => is_unset(val),
            Owner::Object => is_nothing(val),
        }
    }
}

/// What a link has of it: the path of the target, where it is strong.
fn target_given<L: Ledger>(
    heap: &Heap,
    strong: bool,
    target: Option<Oid>,
    alloc: Global,
    steps: &mut Steps<L>,
) -> Result<Val, AllocError>
    ensures { (b : Board) → Shows b heap.now → IfOk result (λ given. given ≡ (if strong then val.Text (target_text b (birth_of target)) else val.Nothing)) }
{
    if !strong {
        return Ok(Val::Nothing);
    }
    let path = target_text(heap, target, alloc, steps)?;
    Ok(Val::Text(Text::from_string(path)))
}

/// What a slot has of what was given: a value, or the path of a target.
fn given_in<L: Ledger>(
    heap: &Heap,
    what: &Slot,
    alloc: Global,
    steps: &mut Steps<L>,
) -> Result<Val, AllocError>
    ensures { (b : Board) → Shows b heap.now → IfOk result (λ given. given ≡ given_in b (shown_slot what.now)) }
{
    match what {
        Slot::Plain(val) => copy_of(val, alloc),
        Slot::Link { strong, target, .. } => target_given(heap, *strong, *target, alloc, steps),
        Slot::Child(_) | Slot::Alias(_, _) => Ok(Val::Nothing),
    }
}

/// What a property of an object has of what was given; nothing where the object has no such property.
fn given_at<L: Ledger>(
    heap: &Heap,
    o: Oid,
    name: PropertyName,
    alloc: Global,
    steps: &mut Steps<L>,
) -> Result<Val, AllocError>
    requires { IsLive heap.now.rows o }
    ensures { (b : Board) → Shows b heap.now → IfOk result (λ given. given ≡ option_map_or (given_in b) (slot_named b o.birth (property_name name)) val.Nothing) }
{
    match heap.property(o, name, steps) {
        Some(slot) => given_in(heap, slot.what, alloc, steps),
        None => Ok(Val::Nothing),
    }
}

/// Puts a property of an object among members, where something is said of it.
fn put_given<L: Ledger>(
    heap: &Heap,
    o: Oid,
    owner: Owner,
    name: PropertyName,
    members: &mut Map<String, Value>,
    alloc: Global,
    steps: &mut Steps<L>,
) -> Result<(), AllocError>
    requires { IsLive heap.now.rows o }
    ensures { OnOk result ((b : Board) → Shows b heap.now → members_view members.new.entries ≡ with_prop (prop_under b (left_out owner) o.birth (property_name name)) (members_view members.old.entries)) }
{
    let given = given_at(heap, o, name, alloc, steps)?;
    if owner.leaves_out(&given) {
        return Ok(());
    }
    let value = to_json(alloc, &given)?;
    put(members, alloc, name.as_str(), value)?;
    Ok(())
}

/// The properties of an object as a JSON object.
pub(crate) fn props_value<L: Ledger>(
    heap: &Heap,
    o: Oid,
    owner: Owner,
    alloc: Global,
    steps: &mut Steps<L>,
) -> Result<Value, AllocError>
    requires { IsLive heap.now.rows o }
    ensures { (b : Board) → Shows b heap.now → IfOk result (λ v. view v ≡ object (props_members (props_under b (left_out owner) (given_names owner) o.birth))) }
{
    let mut members = Map::new(alloc);
    let names = owner.names();
    for name in names {
        put_given(heap, o, owner, *name, &mut members, alloc, steps)?;
    }
    Ok(Value::Object(members))
}
