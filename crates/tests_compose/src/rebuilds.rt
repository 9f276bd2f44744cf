//! The word `rebuild`: boards that are rebuilt of their descriptions, and descriptions that are refused. Expected texts
//! are written out by hand.

use crate::calling::{Left, call, call_with_room, joined};
use compose::Status;
use std::alloc::{AllocError, Global};
use std::test::Fail;

/// The description of the opening board.
const OPENING: &str =
    "{\"clock\":{\"div\":1,\"mul\":1,\"period\":42949672960},\"clocks\":[],\"devices\":[],\"links\":[],\"objects\":[],\"rings\":[],\"version\":1}";

/// That of a board with a ring, and a UART that has claimed it and is linked to itself.
const LINKED: &str =
    "{\"clock\":{\"div\":1,\"mul\":1,\"period\":42949672960},\"clocks\":[],\"devices\":[{\"bus\":\"/machine/root.0\",\"driver\":\"slot-uart\",\"id\":\"u0\",\"props\":{\"chardev\":\"r0\"},\"slot\":0}],\"links\":[{\"path\":\"/machine/peripheral/u0\",\"property\":\"peer\",\"value\":\"/machine/peripheral/u0\"}],\"objects\":[],\"rings\":[{\"id\":\"r0\",\"size\":16}],\"version\":1}";

/// Rebuilds a text.
fn rebuild(alloc: Global, text: &str) -> Result<Left, AllocError> {
    call(alloc, &["rebuild"], text.as_bytes(), &[], &[])
}

#[test]
fn descriptions_come_back(rt: HostRuntime) -> Result<(), Fail> {
    for text in [OPENING, LINKED] {
        let left = rebuild(rt.alloc(), text)?;
        assert_eq!(rt; left.status, Status::Done);
        assert_eq!(rt;
            left.held.as_slice(),
            joined(rt.alloc(), &[text, "\n"])?.as_bytes()
        );
        assert!(rt; left.told.is_empty());
    }
    Ok(())
}

/// Texts that are no description.
const OTHERS: &[&str] = &[
    "",
    "{}",
    "[]",
    "null",
    "{\"clock\":{\"div\":1,\"mul\":1,\"period\":42949672960},\"clocks\":[],\"devices\":[],\"links\":[],\"objects\":[],\"rings\":[],\"version\":1}x",
    "{\"clock\":{\"div\":1,\"mul\":1,\"period\":42949672960},\"clocks\":[],\"devices\":[],\"links\":[],\"objects\":[],\"rings\":[],\"version\":2}",
    "{\"clock\":{\"div\":1,\"mul\":1,\"period\":42949672960},\"clocks\":[],\"devices\":[],\"links\":[],\"objects\":[],\"rings\":[],\"version\":1.0}",
    "{\"clock\":{\"div\":1,\"mul\":1,\"period\":42949672960},\"clocks\":[],\"devices\":[],\"links\":[],\"objects\":[],\"rings\":[]}",
    "{\"clock\":{\"div\":1,\"mul\":1,\"period\":42949672960},\"clocks\":[],\"devices\":[],\"links\":[],\"objects\":[],\"rings\":[],\"version\":1,\"w\":0}",
    "{\"clock\":{\"div\":1,\"mul\":1,\"period\":42949672960},\"clocks\":[],\"devices\":[],\"links\":{},\"objects\":[],\"rings\":[],\"version\":1}",
    "{\"clock\":{\"div\":-1,\"mul\":1,\"period\":42949672960},\"clocks\":[],\"devices\":[],\"links\":[],\"objects\":[],\"rings\":[],\"version\":1}",
    "{\"clock\":{\"div\":18446744073709551616,\"mul\":1,\"period\":42949672960},\"clocks\":[],\"devices\":[],\"links\":[],\"objects\":[],\"rings\":[],\"version\":1}",
    "{\"clock\":{\"div\":true,\"mul\":1,\"period\":42949672960},\"clocks\":[],\"devices\":[],\"links\":[],\"objects\":[],\"rings\":[],\"version\":1}",
    "{\"clock\":{\"div\":1,\"mul\":1,\"period\":42949672960},\"clocks\":[],\"devices\":[],\"links\":[],\"objects\":[],\"rings\":[{\"id\":\"r\"}],\"version\":1}",
    "{\"clock\":{\"div\":1,\"mul\":1,\"period\":42949672960},\"clocks\":[],\"devices\":[],\"links\":[],\"objects\":[],\"rings\":[{\"id\":1,\"size\":16}],\"version\":1}",
    "{\"clock\":{\"div\":1,\"mul\":1,\"period\":42949672960},\"clocks\":[],\"devices\":[],\"links\":[],\"objects\":[{\"id\":\"t\",\"props\":{\"slot\":0},\"type\":\"tag\"}],\"rings\":[],\"version\":1}",
    "{\"clock\":{\"div\":1,\"mul\":1,\"period\":42949672960},\"clocks\":[],\"devices\":[],\"links\":[],\"objects\":[{\"id\":\"t\",\"props\":{\"flag\":null},\"type\":\"tag\"}],\"rings\":[],\"version\":1}",
    "{\"clock\":{\"div\":1,\"mul\":1,\"period\":42949672960},\"clocks\":[],\"devices\":[],\"links\":[],\"objects\":[{\"id\":\"t\",\"props\":{\"number\":1.5},\"type\":\"tag\"}],\"rings\":[],\"version\":1}",
];

#[test]
fn other_texts_are_no_description(rt: HostRuntime) -> Result<(), Fail> {
    for text in OTHERS {
        let left = rebuild(rt.alloc(), text)?;
        assert_eq!(rt; left.status, Status::BadBoard, "at {text}");
        assert!(rt; left.held.is_empty(), "at {text}");
        assert_eq!(rt;
            left.told.as_slice(),
            b"compose: bad board: not a description\n".as_slice(),
            "at {text}"
        );
    }
    let left = call(rt.alloc(), &["rebuild"], b"\"\xff\"", &[], &[])?;
    assert_eq!(rt; left.status, Status::BadBoard);
    Ok(())
}

/// Descriptions that a call of the board refuses, and what is said of the code.
const REFUSED: &[(&str, &str)] = &[
    (
        "{\"clock\":{\"div\":1,\"mul\":1,\"period\":42949672960},\"clocks\":[],\"devices\":[{\"bus\":\"/machine/root.0\",\"driver\":\"slot-uart\",\"id\":\"u0\",\"props\":{\"chardev\":\"r0\"},\"slot\":0}],\"links\":[{\"path\":\"/machine/peripheral/u0\",\"property\":\"peer\",\"value\":\"/machine/peripheral/u0\"}],\"objects\":[],\"rings\":[],\"version\":1}",
        "E36 ring not found",
    ),
    (
        "{\"clock\":{\"div\":1,\"mul\":1,\"period\":42949672960},\"clocks\":[],\"devices\":[{\"bus\":\"/machine/root.0\",\"driver\":\"slot-uart\",\"id\":\"u0\",\"props\":{\"chardev\":\"r0\"},\"slot\":8}],\"links\":[{\"path\":\"/machine/peripheral/u0\",\"property\":\"peer\",\"value\":\"/machine/peripheral/u0\"}],\"objects\":[],\"rings\":[{\"id\":\"r0\",\"size\":16}],\"version\":1}",
        "E28 slot out of range",
    ),
    (
        "{\"clock\":{\"div\":1,\"mul\":1,\"period\":42949672960},\"clocks\":[],\"devices\":[{\"bus\":\"/machine/root.0\",\"driver\":\"slot-uart\",\"id\":\"u0\",\"props\":{\"chardev\":\"r0\"},\"slot\":0}],\"links\":[{\"path\":\"/machine/peripheral/u0\",\"property\":\"peer\",\"value\":\"/machine/peripheral/u0\"}],\"objects\":[],\"rings\":[{\"id\":\"r0\",\"size\":15}],\"version\":1}",
        "E51 ring size not a power of two",
    ),
    (
        "{\"clock\":{\"div\":1,\"mul\":1,\"period\":42949672960},\"clocks\":[],\"devices\":[{\"bus\":\"/machine/root.0\",\"driver\":\"slot-uart\",\"id\":\"u0\",\"props\":{\"chardev\":\"r0\"},\"slot\":0}],\"links\":[{\"path\":\"/machine/peripheral/u0\",\"property\":\"peer\",\"value\":\"/machine/peripheral/u0\"}],\"objects\":[],\"rings\":[{\"id\":\"0r\",\"size\":16}],\"version\":1}",
        "E23 id malformed",
    ),
    (
        "{\"clock\":{\"div\":1,\"mul\":1,\"period\":42949672960},\"clocks\":[],\"devices\":[{\"bus\":\"/machine/root.0\",\"driver\":\"slot-uart\",\"id\":\"u0\",\"props\":{\"chardev\":\"r0\"},\"slot\":0}],\"links\":[{\"path\":\"/machine/peripheral/u0\",\"property\":\"peer\",\"value\":\"/machine/peripheral/u0\"}],\"objects\":[],\"rings\":[{\"id\":\"r0\",\"size\":16},{\"id\":\"r0\",\"size\":16}],\"version\":1}",
        "E24 id taken",
    ),
    (
        "{\"clock\":{\"div\":1,\"mul\":1,\"period\":42949672960},\"clocks\":[],\"devices\":[{\"bus\":\"/machine/root.0\",\"driver\":\"slot\",\"id\":\"u0\",\"props\":{\"chardev\":\"r0\"},\"slot\":0}],\"links\":[{\"path\":\"/machine/peripheral/u0\",\"property\":\"peer\",\"value\":\"/machine/peripheral/u0\"}],\"objects\":[],\"rings\":[{\"id\":\"r0\",\"size\":16}],\"version\":1}",
        "E20 type unknown",
    ),
    (
        "{\"clock\":{\"div\":1,\"mul\":1,\"period\":42949672960},\"clocks\":[],\"devices\":[{\"bus\":\"/machine/root.1\",\"driver\":\"slot-uart\",\"id\":\"u0\",\"props\":{\"chardev\":\"r0\"},\"slot\":0}],\"links\":[{\"path\":\"/machine/peripheral/u0\",\"property\":\"peer\",\"value\":\"/machine/peripheral/u0\"}],\"objects\":[],\"rings\":[{\"id\":\"r0\",\"size\":16}],\"version\":1}",
        "E25 bus not found",
    ),
    (
        "{\"clock\":{\"div\":1,\"mul\":1,\"period\":42949672960},\"clocks\":[],\"devices\":[{\"bus\":\"/machine/mem.0\",\"driver\":\"slot-uart\",\"id\":\"u0\",\"props\":{\"chardev\":\"r0\"},\"slot\":0}],\"links\":[{\"path\":\"/machine/peripheral/u0\",\"property\":\"peer\",\"value\":\"/machine/peripheral/u0\"}],\"objects\":[],\"rings\":[{\"id\":\"r0\",\"size\":16}],\"version\":1}",
        "E26 bus of another kind",
    ),
    (
        "{\"clock\":{\"div\":1,\"mul\":1,\"period\":42949672960},\"clocks\":[],\"devices\":[{\"bus\":\"/machine/root.0\",\"driver\":\"slot-uart\",\"id\":\"u0\",\"props\":{\"chardev\":\"r0\"},\"slot\":0}],\"links\":[{\"path\":\"/machine/peripheral/u0\",\"property\":\"pear\",\"value\":\"/machine/peripheral/u0\"}],\"objects\":[],\"rings\":[{\"id\":\"r0\",\"size\":16}],\"version\":1}",
        "E17 property not found",
    ),
    (
        "{\"clock\":{\"div\":1,\"mul\":1,\"period\":42949672960},\"clocks\":[],\"devices\":[{\"bus\":\"/machine/root.0\",\"driver\":\"slot-uart\",\"id\":\"u0\",\"props\":{\"chardev\":\"r0\"},\"slot\":0}],\"links\":[{\"path\":\"/machine/peripheral/u0\",\"property\":\"peer\",\"value\":\"/machine/peripheral/u1\"}],\"objects\":[],\"rings\":[{\"id\":\"r0\",\"size\":16}],\"version\":1}",
        "E15 path not found",
    ),
    (
        "{\"clock\":{\"div\":1,\"mul\":1,\"period\":42949672960},\"clocks\":[],\"devices\":[{\"bus\":\"/machine/root.0\",\"driver\":\"slot-uart\",\"id\":\"u0\",\"props\":{\"chardev\":\"r0\"},\"slot\":0}],\"links\":[{\"path\":\"/machine/peripheral/u0\",\"property\":\"peer\",\"value\":\"/machine\"}],\"objects\":[],\"rings\":[{\"id\":\"r0\",\"size\":16}],\"version\":1}",
        "E31 link target of wrong type",
    ),
    (
        "{\"clock\":{\"div\":0,\"mul\":1,\"period\":42949672960},\"clocks\":[],\"devices\":[],\"links\":[],\"objects\":[],\"rings\":[],\"version\":1}",
        "E46 divider is 0",
    ),
    (
        "{\"clock\":{\"div\":1,\"mul\":4294967295,\"period\":18446744073709551615},\"clocks\":[],\"devices\":[],\"links\":[],\"objects\":[],\"rings\":[],\"version\":1}",
        "E47 period overflow",
    ),
];

#[test]
fn calls_of_the_board_refuse(rt: HostRuntime) -> Result<(), Fail> {
    for (text, why) in REFUSED {
        let left = rebuild(rt.alloc(), text)?;
        assert_eq!(rt; left.status, Status::BadBoard, "at {text}");
        assert!(rt; left.held.is_empty(), "at {text}");
        assert_eq!(rt;
            left.told.as_slice(),
            joined(rt.alloc(), &["compose: bad board: ", why, "\n"])?.as_bytes(),
            "at {text}"
        );
    }
    Ok(())
}

/// A period that fits only where the divider is written before it, and a board in which a kid stands behind its bridge.
const IN_ORDER: &[&str] = &[
    "{\"clock\":{\"div\":2,\"mul\":2,\"period\":9223372036854775808},\"clocks\":[],\"devices\":[],\"links\":[],\"objects\":[],\"rings\":[],\"version\":1}",
    "{\"clock\":{\"div\":1,\"mul\":1,\"period\":42949672960},\"clocks\":[],\"devices\":[{\"bus\":\"/machine/root.0\",\"driver\":\"slot-bridge\",\"id\":\"b\",\"props\":{},\"slot\":3},{\"bus\":\"/machine/peripheral/b/bus.0\",\"driver\":\"slot-timer\",\"id\":\"k\",\"props\":{},\"slot\":1}],\"links\":[{\"path\":\"/machine/peripheral/b\",\"property\":\"peer\",\"value\":\"/machine/peripheral/k\"}],\"objects\":[],\"rings\":[],\"version\":1}",
];

#[test]
fn parts_are_rebuilt_in_order(rt: HostRuntime) -> Result<(), Fail> {
    for text in IN_ORDER {
        let left = rebuild(rt.alloc(), text)?;
        assert_eq!(rt; left.status, Status::Done, "at {text}");
        assert_eq!(rt;
            left.held.as_slice(),
            joined(rt.alloc(), &[text, "\n"])?.as_bytes()
        );
    }
    Ok(())
}

#[test]
fn a_source_and_a_sink_that_fail(rt: HostRuntime) -> Result<(), Fail> {
    // All of the text comes with the first take, and its end with the second.
    for take in [1, 2] {
        let left = call(rt.alloc(), &["rebuild"], OPENING.as_bytes(), &[take], &[])?;
        assert_eq!(rt; left.status, Status::ReadFault);
        assert!(rt; left.held.is_empty());
        assert_eq!(rt; left.told.as_slice(), b"compose: read fault\n".as_slice());
    }
    let left = call(rt.alloc(), &["rebuild"], OPENING.as_bytes(), &[], &[1])?;
    assert_eq!(rt; left.status, Status::WriteFault);
    assert!(rt; left.held.is_empty());
    let left = call_with_room(rt.alloc(), &["rebuild"], OPENING.as_bytes(), &[], &[], 10)?;
    assert_eq!(rt; left.status, Status::WriteFault);
    assert_eq!(rt; left.held.as_slice(), &OPENING.as_bytes()[..10]);
    assert_eq!(rt; left.told.as_slice(), b"compose: write fault\n".as_slice());
    Ok(())
}

#[test]
fn a_text_that_is_too_long(rt: HostRuntime) -> Result<(), Fail> {
    let most = " ".repeat(rt.alloc(), 16_777_216)?;
    let left = rebuild(rt.alloc(), most.as_str())?;
    assert_eq!(rt; left.status, Status::BadBoard);
    let more = joined(rt.alloc(), &[most.as_str(), " "])?;
    let left = rebuild(rt.alloc(), more.as_str())?;
    assert_eq!(rt; left.status, Status::InputLimit);
    assert!(rt; left.held.is_empty());
    assert_eq!(rt; left.told.as_slice(), b"compose: input limit\n".as_slice());
    Ok(())
}
