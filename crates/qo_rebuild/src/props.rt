//! The properties of a device with its slot among them.

ghost use Rattle.std.specs.Prelude.{◌≡◌, ◌++◌, [], ◌∷◌, codes, true, IfOk, OnOk};
ghost use Rattle.std.specs.List.{position, position_or_len};
ghost use Rattle.qo_values.specs.PropertyLists.{NamesRise, is_above, names_of};
ghost use Rattle.qo_values.specs.declared.properties.Val.TheVariants as val;
ghost use Rattle.qo_save.specs.Rebuilding.{with_slot};
ghost use Rattle.qo_rebuild.specs.Slots.{behind_slot, is_from_slot};

use qo_properties::copy_of;
use qo_values::{PropList, PushError, Text, Val};
use std::alloc::{AllocError, Global};

/// Puts a property after others, whose names come before its own.
fn put(props: &mut PropList, name: Text, val: Val) -> Result<(), AllocError>
    requires { is_above (names_of props.old) name ≡ true }
    ensures { OnOk result (props.new ≡ props.old ++ (name, val) ∷ []) }
{
    match props.push(name, val) {
        Ok(()) => Ok(()),
        Err(PushError::Memory) => Err(AllocError),
        Err(PushError::OutOfOrder) => unreachable!(),
    }
}

/// Puts a property after others once more.
fn put_copy(props: &mut PropList, prop: &(Text, Val), alloc: Global) -> Result<(), AllocError>
    requires { is_above (names_of props.old) prop.now.0 ≡ true }
    ensures { OnOk result (props.new ≡ props.old ++ prop.now ∷ []) }
{
    let name = Text::from_string(String::from_str(alloc, prop.0.as_str())?);
    let val = copy_of(&prop.1, alloc)?;
    put(props, name, val)
}

/// Puts properties after others once more.
fn put_copies(props: &mut PropList, more: &[(Text, Val)], alloc: Global) -> Result<(), AllocError>
    requires { NamesRise (names_of (props.old ++ more.now)) }
    ensures { OnOk result (props.new ≡ props.old ++ more.now) }
{
    for prop in more {
        put_copy(props, prop, alloc)?;
    }
    Ok(())
}

/// Puts the slot of a device after other properties.
fn put_slot(props: &mut PropList, slot: u64, alloc: Global) -> Result<(), AllocError>
    requires { is_above (names_of props.old) (codes "slot") ≡ true }
    ensures { OnOk result (props.new ≡ props.old ++ (codes "slot", val.Uint slot) ∷ []) }
{
    let name = Text::from_string(String::from_str(alloc, "slot")?);
    put(props, name, Val::Uint(slot))
}

/// The place of the first property whose name is no earlier than that of the slot.
fn first_from_slot(props: &[(Text, Val)]) -> Option<usize>
    ensures { result ≡ position is_from_slot props.now }
{
    props.iter().position(|prop| "slot" <= prop.0.as_str())
}

/// Where the slot goes among properties in byte order: before that.
fn slot_place(props: &[(Text, Val)]) -> usize
    ensures { result ≡ position_or_len is_from_slot props.now }
{
    match first_from_slot(props) {
        Some(place) => place,
        None => props.len(),
    }
}

/// Properties without a slot at their front.
fn behind_slot(props: &[(Text, Val)]) -> &[(Text, Val)]
    ensures { result.now ≡ behind_slot props.now }
{
    let Some((first, others)) = props.split_first() else {
        return props;
    };
    if "slot" == first.0.as_str() {
        others
    } else {
        props
    }
}

/// Properties with a slot among them, in byte order of their names.
pub(crate) fn with_slot(slot: u64, props: &PropList, alloc: Global) -> Result<PropList, AllocError>
    ensures { IfOk result (λ all. all ≡ with_slot slot props.now) }
{
    let given = props.as_slice();
    let place = slot_place(given);
    let (before, after) = given.split_at(place);
    let mut all = PropList::new(alloc);
    put_copies(&mut all, before, alloc)?;
    put_slot(&mut all, slot, alloc)?;
    let behind = behind_slot(after);
    put_copies(&mut all, behind, alloc)?;
    Ok(all)
}
