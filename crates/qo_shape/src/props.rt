//! The properties of devices and of users' objects.

ghost use Rattle.std.specs.Prelude.{◌≡◌, ◌++◌, [], ◌∷◌, true, Err, OnErr, OnOk};
ghost use Rattle.serde_json.specs.View.{number_view};
ghost use Rattle.qo_json.specs.Order.{IsOrdered, NamesRise, names_of as member_names};
ghost use Rattle.qo_json.specs.View.{members_view, view};
ghost use Rattle.qo_values.specs.PlainValues.{plain_of, whole_of};
ghost use Rattle.qo_values.specs.PropertyLists.{is_above, names_of};
ghost use Rattle.qo_save.specs.Shape.{props_in, props_of};
ghost use Rattle.qo_shape.specs.Reads.{Reads};
ghost use Rattle.qo_shape.specs.declared.errors.ShapeError.TheVariants.{Memory};

use crate::errors::ShapeError;
use qo_json::Json;
use qo_values::{PropList, PushError, Text, Val};
use serde_json::Number;
use std::alloc::Global;

/// The whole number of 64 bits that a number is.
fn whole_in(number: &Number) -> Result<Val, ShapeError>
    ensures { Reads (λ val. val) result (whole_of (number_view number.now)) }
{
    if let Some(whole) = number.as_u64() {
        return Ok(Val::Uint(whole));
    }
    match number.as_i64() {
        Some(whole) => Ok(Val::Int(whole)),
        None => Err(ShapeError::Shape),
    }
}

/// The truth value, whole number or text that a value is.
fn plain_in(alloc: Global, value: &Json<'_>) -> Result<Val, ShapeError>
    ensures { Reads (λ val. val) result (plain_of (view value.now)) }
{
    match value {
        Json::Bool(truth) => Ok(Val::Bool(*truth)),
        Json::Number(number) => whole_in(number),
        Json::String(text) => Ok(Val::Text(Text::from_string(String::from_str(alloc, *text)?))),
        Json::Null | Json::Array(_) | Json::Object(_) => Err(ShapeError::Shape),
    }
}

/// Puts a property after others, whose names come before its own.
fn put(props: &mut PropList, name: Text, val: Val) -> Result<(), ShapeError>
    requires { is_above (names_of props.old) name ≡ true }
    ensures put { OnOk result (props.new ≡ props.old ++ (name, val) ∷ []) }
    ensures wants { OnErr result (result ≡ Err Memory) }
{
    match props.push(name, val) {
        Ok(()) => Ok(()),
        Err(PushError::Memory) => Err(ShapeError::Memory),
        Err(PushError::OutOfOrder) => unreachable!(),
    }
}

/// The properties that members are, whose names rise; none of them is a slot.
fn props_of(alloc: Global, members: &[(&str, Json<'_>)]) -> Result<PropList, ShapeError>
    requires { NamesRise (member_names (members_view members.now)) }
    ensures { Reads (λ props. props) result (props_of (members_view members.now)) }
{
    let mut props = PropList::new(alloc);
    for member in members {
        if member.0 == "slot" {
            return Err(ShapeError::Shape);
        }
        let val = plain_in(alloc, &member.1)?;
        let name = Text::from_string(String::from_str(alloc, member.0)?);
        put(&mut props, name, val)?;
    }
    Ok(props)
}

/// The properties that the members of an object are.
pub(crate) fn props_in(alloc: Global, value: &Json<'_>) -> Result<PropList, ShapeError>
    requires { IsOrdered (view value.now) }
    ensures { Reads (λ props. props) result (props_in (view value.now)) }
{
    match value.as_object() {
        Some(members) => props_of(alloc, members),
        None => Err(ShapeError::Shape),
    }
}
