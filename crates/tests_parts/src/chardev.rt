//! What no clause says: that calls that take memory succeed where there is enough.
use qo_chardev::{AddError, Ring, TakeError};
use qo_values::Form;
use std::process::Abort;
use std::test::Fail;

/// Adds bytes in Base64, which must be read.
fn reads(rt: &impl Abort, ring: &mut Ring, text: &str) {
    let added = ring.add_base64(text);
    assert!(rt; added.is_ok(), "unread: {text}");
}

/// Adds bytes in Base64, which must be refused.
fn refuses(rt: &impl Abort, ring: &mut Ring, text: &str) {
    let added = ring.add_base64(text);
    assert!(rt;
        matches!(&added, Err(AddError::BadText)),
        "not refused as bad: {text}"
    );
}

#[test]
fn tells_bytes_in_base64(rt: HostRuntime) -> Result<(), Fail> {
    let mut ring = Ring::new(rt.alloc(), 16)?;
    ring.push(0x41);
    ring.push(0xff);
    let refused = ring.take(16, Form::Utf8);
    assert!(rt; matches!(&refused, Err(TakeError::NotAscii)));
    let text = ring.take(16, Form::Base64)?;
    assert!(rt; text.as_str() == "Qf8=");
    let nothing = ring.take(16, Form::Base64)?;
    assert!(rt; nothing.as_str() == "");
    Ok(())
}

#[test]
fn reads_base64(rt: HostRuntime) -> Result<(), Fail> {
    let mut ring = Ring::new(rt.alloc(), 16)?;
    refuses(&rt, &mut ring, "Qf8");
    refuses(&rt, &mut ring, "Qf8=\n");
    refuses(&rt, &mut ring, "Qf9=");
    refuses(&rt, &mut ring, "-_8=");
    refuses(&rt, &mut ring, "QUI=QUI=");
    reads(&rt, &mut ring, "");
    reads(&rt, &mut ring, "QUJD");
    reads(&rt, &mut ring, "RA==");
    let taken = ring.take(16, Form::Utf8)?;
    assert!(rt; taken.as_str() == "ABCD");
    Ok(())
}
