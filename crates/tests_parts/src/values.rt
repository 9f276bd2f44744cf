//! What no clause says: values written by hand from the profile, and that each call that takes memory
//! succeeds where there is enough.
use qo_values::{FromJson, Id, IdError, PropList, PushError, Text, Val, from_json, to_json};
use serde_json::Value;
use std::alloc::Global;
use std::process::Abort;
use std::test::Fail;

#[test]
fn ids_are_letters_and_then_id_bytes(rt: HostRuntime) -> Result<(), Fail> {
    let alloc = rt.alloc();
    let longest = "a".repeat(alloc, 128)?;
    for text in ["Z", "u-0._X", longest.as_str()] {
        assert_eq!(rt; Id::parse(alloc, text)?.as_str(), text);
    }
    let longer = "a".repeat(alloc, 129)?;
    for text in ["", "0a", "-a", "a/b", "aé", longer.as_str()] {
        let parsed = Id::parse(alloc, text);
        assert!(rt; matches!(parsed, Err(IdError::Malformed)), "{text}");
    }
    Ok(())
}

/// Puts a property without a value yet after others.
fn push(alloc: Global, props: &mut PropList, name: &str) -> Result<(), PushError> {
    let Ok(text) = String::from_str(alloc, name) else {
        return Err(PushError::Memory);
    };
    props.push(Text::from_string(text), Val::Nothing)
}

#[test]
fn properties_are_put_in_byte_order(rt: HostRuntime) {
    let alloc = rt.alloc();
    let mut props = PropList::new(alloc);
    for (name, pushed) in [
        ("b", Ok(())),
        ("a", Err(PushError::OutOfOrder)),
        ("b", Err(PushError::OutOfOrder)),
        ("ba", Ok(())),
        ("é", Ok(())),
        ("z", Err(PushError::OutOfOrder)),
    ] {
        assert_eq!(rt; push(alloc, &mut props, name), pushed, "{name}");
    }
    assert_eq!(rt; props.as_slice().len(), 3);
}

/// A plain value is read, shown so, and told by the text that it was read from.
fn is_told(rt: &impl Abort, alloc: Global, text: &str, shown: &str) -> Result<(), Fail> {
    let val = from_json(alloc, &Value::from_str(alloc, text)?)?;
    let given = format!(in alloc; "{val:?}")?;
    assert!(rt; given.as_str() == shown, "{text}: {given}");
    let told = to_json(alloc, &val)?.to_string(alloc)?;
    assert!(rt; told.as_str() == text, "{text}: {told}");
    Ok(())
}

#[test]
fn plain_values_are_told_as_they_were_read(rt: HostRuntime) -> Result<(), Fail> {
    let alloc = rt.alloc();
    for (text, shown) in [
        ("false", "Bool(false)"),
        ("18446744073709551615", "Uint(18446744073709551615)"),
        ("-9223372036854775808", "Int(-9223372036854775808)"),
        ("\"é\"", "Text(Text { text: \"é\" })"),
    ] {
        is_told(&rt, alloc, text, shown)?;
    }
    for text in ["null", "[1]", "1e3", "-0", "18446744073709551616"] {
        let read = from_json(alloc, &Value::from_str(alloc, text)?);
        assert!(rt; matches!(read, Err(FromJson::NotPlain)), "{text}");
    }
    Ok(())
}
