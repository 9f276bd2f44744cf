//! The slots that a new object of a type has.

ghost use Rattle.std.specs.Prelude.{◌≡◌, ◌++◌, [], List, None, option_to_list, OnOk, OnErr, IfOk};
ghost use Rattle.std.specs.Vec.Iter.{into_iter_items};
ghost use Rattle.qo_values.specs.Names.{IsName};
ghost use Rattle.qo_model.specs.Opening.{first_value};
ghost use Rattle.qo_model.specs.RowNames.{property_name};
ghost use Rattle.qo_heap.specs.Rows.{IsLive};
ghost use Rattle.qo_object.specs.declared.slots.Slot.TheVariants.{Plain, Link};
ghost use Rattle.qo_object.specs.Content.{with_all_slots, with_slot};
ghost use Rattle.qo_object.specs.Slots.{Named};
ghost use Rattle.qo_heap.specs.Objects.{slots_of, with_edit};
ghost use Rattle.qo_properties.specs.Filling.{filled, filled_with};
ghost use Rattle.qo_properties.specs.NewSlots.{new_slots, slot_begun};

use crate::adding::filling::InitialValue;
use qo_heap::{Heap, NewSlots, Oid, Slot, SlotName, Steps};
use qo_model::{First, Property, PropertyName, PropertyRole};
use qo_types::TypeTable;
use qo_values::{Name, Text, TypeId, Val};
use std::alloc::{AllocError, Global};
use std::sync::ledger::Ledger;
use std::vec::IntoIter;

/// The name that a text is.
pub fn name_of(text: &str, alloc: Global) -> Result<Name, AllocError>
    requires { IsName text.now }
    ensures { IfOk result (λ name. name ≡ text.now) }
{
    let text = String::from_str(alloc, text)?;
    Ok(Name::from_string(text))
}

/// What a plain property of an object of a type holds at first.
fn first_val(kind: TypeId, first: First, alloc: Global) -> Result<Val, AllocError>
    ensures { IfOk result (λ val. val ≡ first_value kind first) }
{
    Ok(match first {
        First::TypeName => Val::Text(Text::from_string(String::from_str(alloc, kind.name())?)),
        First::Nothing => Val::Nothing,
        First::Bool(truth) => Val::Bool(truth),
        First::Uint(number) => Val::Uint(number),
        First::NoText => Val::Text(Text::from_string(String::new(alloc))),
    })
}

/// What a plain property of a new object of a type holds: the value planned, or its first where none
/// is.
#[inline(always)]
fn plain_val(
    kind: TypeId,
    first: First,
    fill: InitialValue,
    alloc: Global,
) -> Result<Val, AllocError>
    ensures { IfOk result (λ val. Plain val ≡ filled_with fill (Plain (first_value kind first))) }
{
    match fill {
        InitialValue::Value(val) => Ok(val),
        InitialValue::Default => first_val(kind, first, alloc),
        InitialValue::Target(_) => first_val(kind, first, alloc),
    }
}

/// Adds the slot of a plain property to an object of a type, with the value planned, or with its first
/// where none is. The error is want of memory, and leaves the heap as it was.
pub fn add_value<L: Ledger>(
    heap: &mut Heap,
    o: Oid,
    kind: TypeId,
    name: PropertyName,
    first: First,
    fill: InitialValue,
    alloc: Global,
    steps: &mut Steps<L>,
) -> Result<(), AllocError>
    requires { IsLive heap.old.rows o }
    ensures ok { OnOk result (heap.new ≡ with_edit o.birth (with_slot (property_name name) (filled_with fill (Plain (first_value kind first)))) heap.old) }
    ensures err { OnErr result (heap.new ≡ heap.old) }
{
    let val = plain_val(kind, first, fill, alloc)?;
    heap.add_plain(o, SlotName::row(name), val, steps)?;
    Ok(())
}

/// The slot that a link of a new object begins as: with the target planned, or with none.
fn link_slot(ty: TypeId, strong: bool, fill: InitialValue) -> Slot
    ensures { result ≡ filled_with fill (Link ty strong None) }
{
    let target = match fill {
        InitialValue::Target(target) => Some(target),
        InitialValue::Default => None,
        InitialValue::Value(_) => None,
    };
    Slot::Link { ty, strong, target }
}

/// Puts the slot that a new object of a type has for a row, if it has one, after others, filled with
/// what is planned next.
#[inline(always)]
fn put_row(
    slots: &mut NewSlots,
    fills: &mut IntoIter<InitialValue>,
    kind: TypeId,
    row: Property,
    alloc: Global,
) -> Result<(), AllocError>
    ensures { OnOk result ((rest : List Named) → slots.new ++ filled (into_iter_items fills.new) rest ≡ slots.old ++ filled (into_iter_items fills.old) (option_to_list (slot_begun kind row) ++ rest)) }
{
    match row.role {
        PropertyRole::Plain(_, first) => {
            let fill = fills.next().unwrap_or(InitialValue::Default);
            let val = plain_val(kind, first, fill, alloc)?;
            slots.push(SlotName::row(row.name), Slot::Plain(val))?;
            Ok(())
        }
        PropertyRole::Link { ty, strong } => {
            let fill = fills.next().unwrap_or(InitialValue::Default);
            slots.push(SlotName::row(row.name), link_slot(ty, strong, fill))?;
            Ok(())
        }
        PropertyRole::Child(_) => Ok(()),
        PropertyRole::Alias { .. } => Ok(()),
    }
}

/// The slots of a new object of a type, in order: its plain properties and its links, each filled as
/// it is planned. A plain property for which nothing is planned has its first value, and a link no
/// target. Children and aliases stay away. The error is want of memory.
pub(crate) fn planned_slots(
    kind: TypeId,
    plan: Vec<InitialValue>,
    alloc: Global,
) -> Result<NewSlots, AllocError>
    ensures { IfOk result (λ slots. slots ≡ filled plan.items (new_slots kind)) }
{
    let rows = TypeTable::board().props(kind);
    let mut slots = NewSlots::with_capacity(alloc, rows.len())?;
    let mut fills = plan.into_iter();
    for row in rows {
        put_row(&mut slots, &mut fills, kind, *row, alloc)?;
    }
    Ok(slots)
}

/// Gives a new object of a type, which has no slots, its slots: its plain properties with their first
/// values and its links without targets, in order. Children and aliases stay away. The
/// error is want of memory, and leaves the heap as it was.
pub fn set_default_slots<L: Ledger>(
    heap: &mut Heap,
    o: Oid,
    kind: TypeId,
    alloc: Global,
    steps: &mut Steps<L>,
) -> Result<(), AllocError>
    requires live { IsLive heap.old.rows o }
    requires bare { slots_of heap.old o.birth ≡ [] }
    ensures ok { OnOk result (heap.new ≡ with_edit o.birth (with_all_slots (new_slots kind)) heap.old) }
    ensures err { OnErr result (heap.new ≡ heap.old) }
{
    let slots = planned_slots(kind, Vec::new(alloc), alloc)?;
    heap.set_slots(o, slots, steps);
    Ok(())
}
