//! JSON values with ample memory.

use json::Scratch;
use qo_json::{Json, JsonError, NAMES_MAX};
use qo_requests::{Addition, Call, Change, Request, read};
use serde_json::Value;
use std::alloc::Global;
use std::test::Fail;

/// What stands in front of so many members, `"n0":0` and on, and these, to the closing brace.
fn wide(alloc: Global, front: &str, members: usize) -> Result<String, Fail> {
    let mut text = String::from_str(alloc, front)?;
    for at in 0..members {
        let mark = if at == 0 { "" } else { "," };
        text.push_str(format!(in alloc; "{mark}\"n{at}\":{at}")?.as_str())?;
    }
    text.push_str("}")?;
    Ok(text)
}

/// How many members an object has.
fn width(value: &Json<'_>) -> usize {
    match value.as_object() {
        Some(members) => members.len(),
        None => 0,
    }
}

/// How many items a list has.
fn length(value: Option<&Json<'_>>) -> usize {
    match value.and_then(Json::as_array) {
        Some(items) => items.len(),
        None => 0,
    }
}

#[test]
fn values_are_read(rt: HostRuntime) -> Result<(), Fail> {
    let alloc = rt.alloc();
    let mut scratch = Scratch::new(alloc);
    let text = String::from_str(alloc, "{\"b\":1,\"a\\n\":[true,\"\\u0041\",-2],\"b\":3}")?;
    let value = Json::read(alloc, text.as_bytes(), &mut scratch)?;
    assert_eq!(rt; width(&value), 2);
    assert_eq!(rt; value.get("b").and_then(Json::as_u64), Some(3));
    assert_eq!(rt; length(value.get("a\n")), 3);
    Ok(())
}

#[test]
fn no_values_are_refused(rt: HostRuntime) -> Result<(), Fail> {
    let alloc = rt.alloc();
    let mut scratch = Scratch::new(alloc);
    for text in ["", "{\"a\":1", "1 2", "1e999", "[1,]", "\u{e9}"] {
        let refused = width_read(alloc, text, &mut scratch);
        assert!(rt; matches!(refused, Err(JsonError::Invalid)), "{text}");
    }
    let refused = Json::read(alloc, b"\"\xff\"", &mut scratch);
    assert!(rt; matches!(refused, Err(JsonError::Invalid)));
    Ok(())
}

/// How many members an object has that is read, where it is.
fn width_read(alloc: Global, text: &str, scratch: &mut Scratch) -> Result<usize, JsonError> {
    Ok(width(&Json::read(alloc, text.as_bytes(), scratch)?))
}

#[test]
fn wide_objects_are_borrowed(rt: HostRuntime) -> Result<(), Fail> {
    let alloc = rt.alloc();
    let mut scratch = Scratch::new(alloc);
    let most = wide(alloc, "{", NAMES_MAX)?;
    assert_eq!(rt; width_read(alloc, most.as_str(), &mut scratch)?, NAMES_MAX);
    let text = wide(alloc, "{", 100)?;
    let refused = width_read(alloc, text.as_str(), &mut scratch);
    assert!(rt; matches!(refused, Err(JsonError::Wide)));
    let owned = Value::from_str(alloc, text.as_str())?;
    let value = Json::of(alloc, &owned)?;
    assert_eq!(rt; width(&value), 100);
    assert_eq!(rt; value.get("n99").and_then(Json::as_u64), Some(99));
    Ok(())
}

#[test]
fn wide_messages_are_read(rt: HostRuntime) -> Result<(), Fail> {
    let alloc = rt.alloc();
    let mut scratch = Scratch::new(alloc);
    let front = "{\"execute\":\"object-add\",\"arguments\":{\"qom-type\":\"t\",\"id\":\"i\",";
    let mut message = wide(alloc, front, 100)?;
    message.push_str("}")?;
    let parsed = read(alloc, message.as_bytes(), &mut scratch)?;
    let properties = match &parsed.request {
        Request::Call(Call::Change(Change::Add(Addition::ObjectAdd { props, .. }))) => {
            props.as_slice().len()
        }
        _ => 0,
    };
    assert_eq!(rt; properties, 100);
    Ok(())
}
