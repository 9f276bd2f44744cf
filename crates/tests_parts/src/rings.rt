//! What no clause says: that calls that take memory succeed where there is enough.
use qo_chardev::{RING_SIZE_DEFAULT, RingAddError, RingTakeError, Rings};
use qo_values::{Form, Id};
use std::alloc::Global;
use std::process::Abort;
use std::test::Fail;

/// Adds a ring under an id that no other has.
fn add(rt: &impl Abort, rings: &mut Rings, alloc: Global, id: &str, size: u64) {
    assert!(rt; !rings.has(id), "there already: {id}");
    let Ok(name) = Id::parse(alloc, id) else {
        panic!(rt; "no id: {id}");
    };
    if rings.has(name.as_str()) {
        panic!(rt; "there already: {id}");
    }
    let added = rings.add(name, size, alloc);
    assert!(rt; added.is_ok(), "not added: {id}");
}

#[test]
fn keeps_rings_apart(rt: HostRuntime) -> Result<(), Fail> {
    let mut rings = Rings::new(rt.alloc());
    add(&rt, &mut rings, rt.alloc(), "a", RING_SIZE_DEFAULT);
    add(&rt, &mut rings, rt.alloc(), "b", 2);
    rings.push("b", b'x');
    rings.push("b", b'y');
    rings.push("b", b'z');
    rings.push("c", b'w');
    let nothing = rings.take("a", 16, Form::Utf8)?;
    assert!(rt; nothing.as_str() == "");
    let first = rings.take("b", 1, Form::Utf8)?;
    assert!(rt; first.as_str() == "y");
    rings.remove("a");
    assert!(rt; !rings.has("a"));
    let rest = rings.take("b", 16, Form::Base64)?;
    assert!(rt; rest.as_str() == "eg==");
    let none = rings.take("a", 16, Form::Utf8);
    assert!(rt; matches!(&none, Err(RingTakeError::NotFound)));
    Ok(())
}

#[test]
fn adds_texts(rt: HostRuntime) -> Result<(), Fail> {
    let mut rings = Rings::new(rt.alloc());
    add(&rt, &mut rings, rt.alloc(), "a", 4);
    rings.add_bytes("a", "AB", Form::Utf8)?;
    rings.add_bytes("a", "Q0Q=", Form::Base64)?;
    let bad = rings.add_bytes("a", "Q0Q", Form::Base64);
    assert!(rt; matches!(&bad, Err(RingAddError::BadText)));
    let none = rings.add_bytes("b", "AB", Form::Utf8);
    assert!(rt; matches!(&none, Err(RingAddError::NotFound)));
    let text = rings.take("a", 16, Form::Utf8)?;
    assert!(rt; text.as_str() == "ABCD");
    Ok(())
}
