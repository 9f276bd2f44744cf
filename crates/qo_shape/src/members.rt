//! The members of objects that have certain names, and what they are.

ghost use Rattle.std.specs.Prelude.{◌≡◌, ◌<◌, length, map, Some, IfOk, is_some, slice_get};
ghost use Rattle.serde_json.specs.Find.{as_array, as_str};
ghost use Rattle.qo_json.specs.View.{items_view, members_view, view};
ghost use Rattle.qo_save.specs.Shape.{values_in, values_of, whole_in};
ghost use Rattle.qo_shape.specs.Reads.{Reads};

use crate::errors::ShapeError;
use qo_json::Json;
use qo_values::Text;
use std::alloc::Global;

/// Whether members have exactly these names, in their order.
fn have_names(members: &[(&str, Json<'_>)], names: &[&str]) -> bool
    ensures { result ≡ is_some (values_of (map (λ n. n.now) names.now) (members_view members.now)) }
{
    let Some((member, members)) = members.split_first() else {
        return names.is_empty();
    };
    let Some((name, names)) = names.split_first() else {
        return false;
    };
    if member.0 != *name {
        return false;
    }
    have_names(members, names)
}

/// The members of an object that has exactly these names, in their order.
pub(crate) fn members_in<'v, 'a>(
    value: &'v Json<'a>,
    names: &[&str],
) -> Result<&'v [(&'a str, Json<'a>)], ShapeError>
    ensures values { Reads (λ members. map (λ m. view m.1) members.now) result (values_in (map (λ n. n.now) names.now) (view value.now)) }
    ensures many { IfOk result (λ members. length members.now ≡ length names.now) }
{
    let Some(members) = value.as_object() else {
        return Err(ShapeError::Shape);
    };
    if !have_names(members, names) {
        return Err(ShapeError::Shape);
    }
    Ok(members)
}

/// The value of the member at a place.
pub(crate) fn value_at<'v, 'a>(members: &'v [(&'a str, Json<'a>)], at: usize) -> &'v Json<'a>
    requires { at < length members.now }
    ensures { slice_get (map (λ m. view m.1) members.now) at ≡ Some (view result.now) }
{
    &members[at].1
}

/// The items of a list.
pub(crate) fn items_in<'v, 'a>(value: &'v Json<'a>) -> Result<&'v [Json<'a>], ShapeError>
    ensures { Reads (λ items. items_view items.now) result (as_array (view value.now)) }
{
    match value.as_array() {
        Some(items) => Ok(items),
        None => Err(ShapeError::Shape),
    }
}

/// The number from 0 to 2^64 - 1 that a value is.
pub(crate) fn number_in(value: &Json<'_>) -> Result<u64, ShapeError>
    ensures { Reads (λ number. number) result (whole_in (view value.now)) }
{
    match value.as_u64() {
        Some(number) => Ok(number),
        None => Err(ShapeError::Shape),
    }
}

/// The text that a value is.
pub(crate) fn text_in(alloc: Global, value: &Json<'_>) -> Result<Text, ShapeError>
    ensures { Reads (λ text. text) result (as_str (view value.now)) }
{
    match value.as_str() {
        Some(text) => Ok(Text::from_string(String::from_str(alloc, text)?)),
        None => Err(ShapeError::Shape),
    }
}
