//! What no clause says: messages written by hand, read where there is enough memory.
use json::Scratch;
use qo_requests::{Command, Parsed, ReadError, read};
use qo_values::Code;
use std::alloc::Global;
use std::process::Abort;
use std::test::Fail;

/// What a message comes to, in short: a request, or the code, each with the id.
fn told(alloc: Global, message: &str, scratch: &mut Scratch) -> Result<String, Fail> {
    let (word, id) = match read(alloc, message.as_bytes(), scratch) {
        Ok(parsed) => ("read", parsed.id),
        Err(refused) => match refused {
            ReadError::Refused { code, id, .. } => (code_word(code), id),
            ReadError::Memory => ("memory", None),
        },
    };
    let mut text = String::from_str(alloc, word)?;
    if let Some(id) = id {
        text.push_str(" ")?;
        text.push_str(id.as_str())?;
    }
    Ok(text)
}

/// A code as a word.
fn code_word(code: Code) -> &'static str {
    match code {
        Code::E1 => "E1",
        Code::E6 => "E6",
        Code::E7 => "E7",
        Code::E10 => "E10",
        Code::E12 => "E12",
        Code::E13 => "E13",
        Code::E14 => "E14",
        _ => "E?",
    }
}

fn gives(
    rt: &impl Abort,
    alloc: Global,
    message: &str,
    want: &str,
    scratch: &mut Scratch,
) -> Result<(), Fail> {
    let given = told(alloc, message, scratch)?;
    assert!(rt; given.as_str() == want, "{message}: {given}");
    Ok(())
}

#[test]
fn names_are_in_byte_order(rt: HostRuntime) {
    let all = Command::all();
    assert_eq!(rt; all.len(), 32);
    for (first, second) in all.iter().zip(all[1..].iter()) {
        let (before, after) = (first.name(), second.name());
        assert!(rt; before < after, "{before} {after}");
    }
}

/// What each message comes to, written by hand.
const READ: [(&str, &str); 16] = [
    ("", "E1"),
    ("{\"execute\":\"stop\",\"id\":1.0}", "E7"),
    ("{\"id\":7,\"execute\":\"stop\",\"x\":1}", "E6 7"),
    ("{\"execute\":\"stop\",\"arguments\":[]}", "E6"),
    ("{\"execute\":\"halt\",\"id\":\"a\"}", "E10 \"a\""),
    (
        "{\"execute\":\"qom-get\",\"arguments\":{\"path\":1,\"x\":1}}",
        "E12",
    ),
    (
        "{\"execute\":\"chardev-add\",\"arguments\":{\"id\":\"r\",\"backend\":{\"type\":\"ringbuf\"},\"x\":1}}",
        "E12",
    ),
    (
        "{\"execute\":\"chardev-add\",\"arguments\":{\"id\":\"r\",\"backend\":{\"type\":1,\"data\":{\"x\":1}}}}",
        "E13",
    ),
    (
        "{\"execute\":\"chardev-add\",\"arguments\":{\"id\":\"r\",\"backend\":[]}}",
        "E14",
    ),
    (
        "{\"execute\":\"qmp_capabilities\",\"arguments\":{\"enable\":null}}",
        "E14",
    ),
    (
        "{\"execute\":\"object-add\",\"arguments\":{\"qom-type\":\"t\",\"id\":\"i\",\"p\":null}}",
        "E14",
    ),
    (
        "{\"execute\":\"ringbuf-read\",\"arguments\":{\"device\":\"r\",\"size\":1048577}}",
        "E14",
    ),
    (
        "{\"execute\":\"qmp_capabilities\",\"arguments\":{\"enable\":[\"oob\"]}}",
        "read",
    ),
    (
        "{\"execute\":\"object-add\",\"arguments\":{\"p\":1,\"qom-type\":\"t\",\"o\":true,\"id\":\"i\",\"p\":-2}}",
        "read",
    ),
    (
        "{\"execute\":\"chardev-add\",\"arguments\":{\"id\":\"r\",\"backend\":{\"type\":\"ringbuf\",\"data\":{\"size\":16}}}}",
        "read",
    ),
    (
        "{\"execute\":\"ringbuf-write\",\"id\":[null],\"arguments\":{\"device\":\"r\",\"data\":\"\",\"format\":\"base64\"}}",
        "read [null]",
    ),
];

#[test]
fn reads_messages(rt: HostRuntime) -> Result<(), Fail> {
    let mut scratch = Scratch::new(rt.alloc());
    for (message, want) in READ {
        gives(&rt, rt.alloc(), message, want, &mut scratch)?;
    }
    Ok(())
}
