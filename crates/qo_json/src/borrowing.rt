//! Values that borrow from values of `serde_json`.

ghost use Rattle.std.specs.Prelude.{◌≡◌, IfOk};
ghost use Rattle.serde_json.specs.View.{view as owned_view, items_view as owned_items_view, members_view as owned_members_view};
ghost use Rattle.qo_json.specs.View.{view, items_view, members_view};

use crate::values::Json;
use serde_json::{Map, Value};
use std::alloc::{AllocError, Global};

impl<'a> Json<'a> {
    /// The value that one of `serde_json` is, whose texts stand in that one. The error is want of
    /// memory.
    pub fn of(alloc: Global, value: &'a Value) -> Result<Json<'a>, AllocError>
        ensures { IfOk result (λ json. view json ≡ owned_view value.now) }
    {
        borrow(alloc, value)
    }
}

/// The value that one of `serde_json` is.
#[cycle(borrow)]
fn borrow<'a>(alloc: Global, value: &'a Value) -> Result<Json<'a>, AllocError>
    ensures { IfOk result (λ json. view json ≡ owned_view value.now) }
{
    match value {
        Value::Null => Ok(Json::Null),
        Value::Bool(truth) => Ok(Json::Bool(*truth)),
        Value::Number(number) => Ok(Json::Number(*number)),
        Value::String(text) => Ok(Json::String(text.as_str())),
        Value::Array(items) => Ok(Json::Array(borrow_items(alloc, items)?)),
        Value::Object(members) => Ok(Json::Object(borrow_members(alloc, members)?)),
    }
}

/// The items of a list.
#[cycle(borrow)]
fn borrow_items<'a>(alloc: Global, items: &'a Vec<Value>) -> Result<Vec<Json<'a>>, AllocError>
    ensures { IfOk result (λ found. items_view found.items ≡ owned_items_view items.now.items) }
{
    let mut found = Vec::with_capacity(alloc, items.len())?;
    for item in items {
        found.push(borrow(alloc, item)?)?;
    }
    Ok(found)
}

/// The members of an object.
#[cycle(borrow)]
fn borrow_members<'a>(
    alloc: Global,
    members: &'a Map<String, Value>,
) -> Result<Vec<(&'a str, Json<'a>)>, AllocError>
    ensures { IfOk result (λ found. members_view found.items ≡ owned_members_view members.now.entries) }
{
    let mut found = Vec::with_capacity(alloc, members.len())?;
    for (name, member) in members.iter() {
        found.push((name.as_str(), borrow(alloc, member)?))?;
    }
    Ok(found)
}
