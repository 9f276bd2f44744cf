//! What no clause says: lines written by hand, and that an answer is spelled where there is memory.
use qo_guest::{Addr, GuestAct, GuestAnswer, GuestBad, SlotPath, answer_text, read_line};
use std::test::Fail;

#[test]
fn reads_lines(rt: HostRuntime) {
    let mut deep = SlotPath::one(3);
    deep.push(1);
    for (line, act) in [
        (b"poll".as_slice(), Ok(GuestAct::Poll)),
        (b"irq", Ok(GuestAct::Irq)),
        (b"ack 3.1", Ok(GuestAct::Ack(Addr::Slots(deep)))),
        (b"nack m255", Ok(GuestAct::Nack(Addr::Mem(255)))),
        (b"read m0 1", Ok(GuestAct::Read(Addr::Mem(0), 1))),
        (
            b"write m0 1 0xdeadBEEF",
            Ok(GuestAct::Write(Addr::Mem(0), 1, 0xdead_beef)),
        ),
        (b"poll ", Err(GuestBad)),
        (b"ack 00", Err(GuestBad)),
        (b"ack 0.1.2.3.4.5.6.7.0.1", Err(GuestBad)),
        (b"write 1 2 0x100000000", Err(GuestBad)),
    ] {
        assert_eq!(rt; read_line(line), act);
    }
}

#[test]
fn spells_answers(rt: HostRuntime) -> Result<(), Fail> {
    let mut deep = SlotPath::one(3);
    deep.push(10);
    for (answer, text) in [
        (
            GuestAnswer::Plug(Addr::Slots(deep)),
            b"ok plug 3.10".as_slice(),
        ),
        (GuestAnswer::Value(0xdead_bee), b"ok 0x0deadbee"),
    ] {
        let given = answer_text(rt.alloc(), &answer)?;
        assert!(rt; given.as_slice() == text, "at {answer:?}");
    }
    Ok(())
}
