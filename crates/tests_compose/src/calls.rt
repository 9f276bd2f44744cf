//! The worked rows of the recorded stream, through the top call over a source and sinks in memory.
//! Expected texts are written out by hand.

use crate::calling::{Left, call, joined, replay};
use compose::Status;
use std::alloc::{AllocError, Global};
use std::process::Abort;
use std::test::Fail;

const GREETING: &str =
    "0 {\"QMP\":{\"capabilities\":[],\"version\":{\"package\":\"compose\",\"qemu\":{\"major\":1,\"micro\":0,\"minor\":0}}}}\r\n";

const EMPTY: &str = "0 {\"return\":{}}\r\n";

const ROOT: &str =
    "0 {\"return\":[{\"name\":\"type\",\"type\":\"string\"},{\"name\":\"machine\",\"type\":\"child<machine>\"},{\"name\":\"objects\",\"type\":\"child<container>\"}]}\r\n";

const OPEN: &str = "qrec 1\nopen 1.000000 0\n";

const NEGOTIATE: &str = "bytes 1.000000 0 30\n{\"execute\":\"qmp_capabilities\"}\n";

const LIST_ROOT: &str =
    "bytes 1.000000 0 47\n{\"execute\":\"qom-list\",\"arguments\":{\"path\":\"/\"}}\n";

/// A call left this: its status, what its sink holds, and what was complained.
fn leaves(rt: &impl Abort, left: &Left, status: Status, held: &[u8], told: &[u8]) {
    assert_eq!(rt; left.status, status);
    assert_eq!(rt; left.held.as_slice(), held);
    assert_eq!(rt; left.told.as_slice(), told);
}

#[test]
fn records_without_entries(rt: HostRuntime) -> Result<(), Fail> {
    let left = replay(rt.alloc(), b"qrec 1\n")?;
    leaves(&rt, &left, Status::Done, b"", b"");
    let left = replay(rt.alloc(), b"")?;
    let told = b"compose: bad record at byte 0\n";
    leaves(&rt, &left, Status::BadRecord, b"", told);
    Ok(())
}

#[test]
fn the_opening_tree_is_listed(rt: HostRuntime) -> Result<(), Fail> {
    let record = joined(rt.alloc(), &[OPEN, NEGOTIATE, LIST_ROOT])?;
    let left = replay(rt.alloc(), record.as_bytes())?;
    let want = joined(rt.alloc(), &[GREETING, EMPTY, ROOT])?;
    leaves(&rt, &left, Status::Done, want.as_bytes(), b"");
    Ok(())
}

/// The greeting without its lane.
const GREETED: &str =
    " {\"QMP\":{\"capabilities\":[],\"version\":{\"package\":\"compose\",\"qemu\":{\"major\":1,\"micro\":0,\"minor\":0}}}}\r\n";

#[test]
fn a_named_session_is_greeted_by_its_name(rt: HostRuntime) -> Result<(), Fail> {
    let left = replay(rt.alloc(), b"qrec 2\nopen 1.000000 ops\n")?;
    let want = joined(rt.alloc(), &["ops", GREETED])?;
    leaves(&rt, &left, Status::Done, want.as_bytes(), b"");
    let left = replay(rt.alloc(), b"qrec 2\nopen 1.000000 g\n")?;
    let told = b"compose: bad record at byte 7\n";
    leaves(&rt, &left, Status::BadRecord, b"", told);
    Ok(())
}

/// Two sessions open, the first is shut, a third takes its number, both negotiate, and the second stops the machine.
const NAMED: &str =
    "qrec 2\nopen 1.000000 a\nopen 1.000000 b\nshut 1.000000 a\nopen 1.000000 c\nbytes 1.000000 b 30\n{\"execute\":\"qmp_capabilities\"}\nbytes 1.000000 c 30\n{\"execute\":\"qmp_capabilities\"}\nbytes 1.000000 b 18\n{\"execute\":\"stop\"}\n";

const STOPPED: &str = "{\"event\":\"STOP\",\"timestamp\":{\"microseconds\":0,\"seconds\":1}}\r\n";

#[test]
fn events_go_to_named_sessions_in_the_order_of_their_numbers(rt: HostRuntime) -> Result<(), Fail> {
    let left = replay(rt.alloc(), NAMED.as_bytes())?;
    let empty = "{\"return\":{}}\r\n";
    let want = joined(
        rt.alloc(),
        &[
            "a", GREETED, "b", GREETED, "c", GREETED, "b ", empty, "c ", empty, "c ", STOPPED,
            "b ", STOPPED, "b ", empty,
        ],
    )?;
    leaves(&rt, &left, Status::Done, want.as_bytes(), b"");
    Ok(())
}

#[test]
fn a_truncated_entry_is_the_bad_place(rt: HostRuntime) -> Result<(), Fail> {
    let record = joined(rt.alloc(), &[OPEN, "bytes 1.0"])?;
    let left = replay(rt.alloc(), record.as_bytes())?;
    let told = b"compose: bad record at byte 23\n";
    leaves(&rt, &left, Status::BadRecord, GREETING.as_bytes(), told);
    Ok(())
}

/// The entry of a message, and the transcript's line that answers it after a negotiation.
const ANSWERED: [(&str, &str); 3] = [
    (
        "bytes 1.000000 0 54\n{\"execute\":\"qom-list\",\"arguments\":{\"path\":\"/nowhere\"}}\n",
        "0 {\"error\":{\"class\":\"DeviceNotFound\",\"desc\":\"E15 path not found\"}}\r\n",
    ),
    (
        "bytes 1.000000 0 18\n{\"execute\":\"frob\"}\n",
        "0 {\"error\":{\"class\":\"CommandNotFound\",\"desc\":\"E10 unknown command\"}}\r\n",
    ),
    (
        "bytes 1.000000 0 62\n{\"execute\":\"qom-list\",\"arguments\":{\"path\":\"//machine/sysclk\"}}\n",
        "0 {\"return\":[{\"name\":\"type\",\"type\":\"string\"},{\"name\":\"period\",\"type\":\"uint64\"},{\"name\":\"mul\",\"type\":\"uint64\"},{\"name\":\"div\",\"type\":\"uint64\"},{\"name\":\"source\",\"type\":\"link<clock>\"}]}\r\n",
    ),
];

#[test]
fn messages_are_answered(rt: HostRuntime) -> Result<(), Fail> {
    for (entry, answer) in ANSWERED {
        let record = joined(rt.alloc(), &[OPEN, NEGOTIATE, entry])?;
        let left = replay(rt.alloc(), record.as_bytes())?;
        let want = joined(rt.alloc(), &[GREETING, EMPTY, answer])?;
        leaves(&rt, &left, Status::Done, want.as_bytes(), b"");
    }
    Ok(())
}

#[test]
fn nothing_else_is_served_before_the_negotiation(rt: HostRuntime) -> Result<(), Fail> {
    let record = joined(rt.alloc(), &[OPEN, LIST_ROOT])?;
    let left = replay(rt.alloc(), record.as_bytes())?;
    let refusal =
        "0 {\"error\":{\"class\":\"CommandNotFound\",\"desc\":\"E8 negotiation expected\"}}\r\n";
    let want = joined(rt.alloc(), &[GREETING, refusal])?;
    leaves(&rt, &left, Status::Done, want.as_bytes(), b"");
    Ok(())
}

/// Replays a record of which the take of this number fails.
fn replay_with_take(alloc: Global, record: &str, take: u64) -> Result<Left, AllocError> {
    call(alloc, &["replay"], record.as_bytes(), &[take], &[])
}

/// Replays a record of which the put of this number fails.
fn replay_with_put(alloc: Global, record: &str, put: u64) -> Result<Left, AllocError> {
    call(alloc, &["replay"], record.as_bytes(), &[], &[put])
}

const READ_FAULT: &[u8] = b"compose: read fault\n";

#[test]
fn each_failing_take_is_a_read_fault(rt: HostRuntime) -> Result<(), Fail> {
    let record = joined(rt.alloc(), &[OPEN, NEGOTIATE, LIST_ROOT])?;
    let whole = joined(rt.alloc(), &[GREETING, EMPTY, ROOT])?;
    let left = replay_with_take(rt.alloc(), &record, 1)?;
    leaves(&rt, &left, Status::ReadFault, b"", READ_FAULT);
    // All of the record comes with the first take.
    let left = replay_with_take(rt.alloc(), &record, 2)?;
    leaves(&rt, &left, Status::ReadFault, whole.as_bytes(), READ_FAULT);
    let left = replay_with_take(rt.alloc(), &record, 3)?;
    leaves(&rt, &left, Status::Done, whole.as_bytes(), b"");
    Ok(())
}

#[test]
fn messages_are_answered_before_the_next_take(rt: HostRuntime) -> Result<(), Fail> {
    let record = joined(rt.alloc(), &[OPEN, NEGOTIATE, "bytes 1.0"])?;
    let left = replay_with_take(rt.alloc(), &record, 2)?;
    let want = joined(rt.alloc(), &[GREETING, EMPTY])?;
    leaves(&rt, &left, Status::ReadFault, want.as_bytes(), READ_FAULT);
    Ok(())
}

#[test]
fn each_failing_put_is_a_write_fault(rt: HostRuntime) -> Result<(), Fail> {
    let record = joined(rt.alloc(), &[OPEN, NEGOTIATE, LIST_ROOT])?;
    // Each message is one put.
    for (put, lines) in [(1, ["", ""]), (2, [GREETING, ""]), (3, [GREETING, EMPTY])] {
        let left = replay_with_put(rt.alloc(), &record, put)?;
        let front = joined(rt.alloc(), &lines)?;
        let told = b"compose: write fault\n";
        leaves(&rt, &left, Status::WriteFault, front.as_bytes(), told);
    }
    let left = replay_with_put(rt.alloc(), &record, 4)?;
    assert_eq!(rt; left.status, Status::Done);
    Ok(())
}

const USAGE: &[u8] =
    b"usage: compose replay | serve --socket PATH --connections N | demo --seed N --steps K | types | rebuild | watch\n";

/// These words are no order.
fn is_usage(rt: &impl Abort, alloc: Global, words: &[&str]) -> Result<(), Fail> {
    let left = call(alloc, words, b"qrec 1\n", &[1], &[1])?;
    leaves(rt, &left, Status::Usage, b"", USAGE);
    Ok(())
}

#[test]
fn other_words_are_no_order(rt: HostRuntime) -> Result<(), Fail> {
    is_usage(&rt, rt.alloc(), &[])?;
    for words in [["replay", "x"], ["--", "replay"], ["replay", "--help"]] {
        is_usage(&rt, rt.alloc(), &words)?;
    }
    for word in ["Replay", "replay ", "serve", "demo", "--help", ""] {
        is_usage(&rt, rt.alloc(), &[word])?;
    }
    Ok(())
}

/// A record in which session 0 opens, and the guest writes so many pieces of 65,536 bytes.
fn long_record(alloc: Global, pieces: usize) -> Result<Vec<u8>, Fail> {
    let mut piece = Vec::from_slice(alloc, b"guest 1.000000 65536\n")?;
    piece.resize(65_557, b'x')?;
    piece.push(b'\n')?;
    let mut record = Vec::from_slice(alloc, OPEN.as_bytes())?;
    for _ in 0..pieces {
        record.extend_from_slice(&piece)?;
    }
    Ok(record)
}

#[test]
fn long_records_are_read_through(rt: HostRuntime) -> Result<(), Fail> {
    let mut record = long_record(rt.alloc(), 257)?;
    record.extend_from_slice(NEGOTIATE.as_bytes())?;
    let want = joined(rt.alloc(), &[GREETING, EMPTY])?;
    let left = replay(rt.alloc(), record.as_slice())?;
    leaves(&rt, &left, Status::Done, want.as_bytes(), b"");
    record.push(b'x')?;
    let left = replay(rt.alloc(), record.as_slice())?;
    let told = b"compose: bad record at byte 16848480\n";
    leaves(&rt, &left, Status::BadRecord, want.as_bytes(), told);
    Ok(())
}

#[test]
fn statuses_have_their_codes(rt: HostRuntime) {
    for (status, code) in [
        (Status::Done, 0),
        (Status::Usage, 2),
        (Status::BadRecord, 3),
        (Status::Memory, 4),
        (Status::ReadFault, 5),
        (Status::WriteFault, 6),
        (Status::HubFault, 7),
        (Status::InputLimit, 8),
        (Status::BadBoard, 9),
    ] {
        assert_eq!(rt; status.code(), code);
    }
}
