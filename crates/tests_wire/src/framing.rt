//! What no clause says: streams written by hand, cut where there is enough memory.
use qo_framing::{Framer, Item};
use std::alloc::Global;
use std::process::Abort;
use std::test::Fail;

/// An item as a text: the bytes of an object, or the item's name.
fn text(item: &Item) -> &[u8] {
    match item {
        Item::Object(bytes) => bytes.as_slice(),
        Item::Junk => b"junk",
        Item::Broken => b"broken",
        Item::TooLong => b"too long",
        Item::TooDeep => b"too deep",
    }
}

/// Feeds bytes, which must give the items of these texts.
fn gives(
    rt: &impl Abort,
    alloc: Global,
    framer: &mut Framer,
    bytes: &[u8],
    texts: &[&[u8]],
) -> Result<(), Fail> {
    let items = framer.feed(alloc, bytes, Vec::new(alloc))?;
    assert_eq!(rt; items.len(), texts.len());
    for (item, wanted) in items.iter().zip(texts.iter()) {
        assert!(rt; text(item) == *wanted);
    }
    Ok(())
}

/// Feeds bytes to a new framer.
fn cuts(rt: &impl Abort, alloc: Global, bytes: &[u8], texts: &[&[u8]]) -> Result<(), Fail> {
    let mut framer = Framer::new(alloc)?;
    gives(rt, alloc, &mut framer, bytes, texts)
}

#[test]
fn cuts_messages_anywhere(rt: HostRuntime) -> Result<(), Fail> {
    let message = b"{\"execute\":\"query-status\"}";
    let mut framer = Framer::new(rt.alloc())?;
    for at in 0..message.len() - 1 {
        gives(&rt, rt.alloc(), &mut framer, &message[at..at + 1], &[])?;
    }
    gives(&rt, rt.alloc(), &mut framer, b"}", &[message])?;
    gives(
        &rt,
        rt.alloc(),
        &mut framer,
        b" {} {\"a\":[]}\r\n{\"b\":",
        &[b"{}", b"{\"a\":[]}"],
    )?;
    gives(&rt, rt.alloc(), &mut framer, b"{}", &[])?;
    gives(
        &rt,
        rt.alloc(),
        &mut framer,
        b"}{\"c\":1}{",
        &[b"{\"b\":{}}", b"{\"c\":1}"],
    )?;
    gives(&rt, rt.alloc(), &mut framer, b"}", &[b"{}"])
}

#[test]
fn answers_junk_once_a_line(rt: HostRuntime) -> Result<(), Fail> {
    cuts(&rt, rt.alloc(), b"[1,{\"a\":2}]\n", &[b"junk"])?;
    cuts(
        &rt,
        rt.alloc(),
        b"x {}\n{} y\xff{}\x80",
        &[b"junk", b"{}", b"junk", b"{}", b"junk"],
    )?;
    let mut framer = Framer::new(rt.alloc())?;
    gives(&rt, rt.alloc(), &mut framer, b"}", &[b"junk"])?;
    gives(&rt, rt.alloc(), &mut framer, b"{}", &[])?;
    gives(&rt, rt.alloc(), &mut framer, b"\n{}", &[b"{}"])
}

#[test]
fn breaks_objects_off(rt: HostRuntime) -> Result<(), Fail> {
    let mut framer = Framer::new(rt.alloc())?;
    gives(
        &rt,
        rt.alloc(),
        &mut framer,
        b"{\"execute\":\"x\x01",
        &[b"broken"],
    )?;
    gives(&rt, rt.alloc(), &mut framer, b"\"}\n", &[b"junk"])?;
    gives(&rt, rt.alloc(), &mut framer, b"{\"a\":", &[])?;
    gives(&rt, rt.alloc(), &mut framer, b"\xff{}", &[b"broken", b"{}"])?;
    cuts(&rt, rt.alloc(), b"{\t\r\n}{\x1f", &[b"{\t\r\n}", b"broken"])
}
