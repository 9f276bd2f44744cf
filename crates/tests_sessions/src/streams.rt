//! Worked sessions over the whole recorded stream, byte for byte through the top call. Expected texts
//! are written out by hand.

use crate::replaying::{joined, replay};
use compose::Status;
use std::alloc::Global;
use std::process::Abort;
use std::test::Fail;

const GREETING: &str =
    "0 {\"QMP\":{\"capabilities\":[],\"version\":{\"package\":\"compose\",\"qemu\":{\"major\":1,\"micro\":0,\"minor\":0}}}}\r\n";

const EMPTY: &str = "0 {\"return\":{}}\r\n";

const RUNNING: &str = "0 {\"return\":{\"running\":true,\"status\":\"running\"}}\r\n";

const STATUS: &str = "{\"execute\":\"query-status\"}";

const NEGOTIATE: &str = "{\"execute\":\"qmp_capabilities\"}";

/// Adds an entry of bytes to session 0.
fn add_bytes(alloc: Global, record: &mut Vec<u8>, bytes: &[u8]) -> Result<(), Fail> {
    let head = format!(in alloc; "bytes 1.000000 0 {}\n", bytes.len())?;
    record.extend_from_slice(head.as_bytes())?;
    record.extend_from_slice(bytes)?;
    record.push(b'\n')?;
    Ok(())
}

/// A record in which session 0 opens.
fn opened(alloc: Global) -> Result<Vec<u8>, Fail> {
    Ok(Vec::from_slice(alloc, b"qrec 1\nopen 1.000000 0\n")?)
}

/// A record in which session 0 opens and negotiates.
fn negotiated(alloc: Global) -> Result<Vec<u8>, Fail> {
    let mut record = opened(alloc)?;
    add_bytes(alloc, &mut record, NEGOTIATE.as_bytes())?;
    Ok(record)
}

/// The replay of a record comes to its end, with this transcript and no complaint.
fn gives(rt: &impl Abort, alloc: Global, record: &[u8], want: &[u8]) -> Result<(), Fail> {
    let left = replay(alloc, record)?;
    assert_eq!(rt; left.status, Status::Done);
    assert_eq!(rt; left.held.as_slice(), want);
    assert!(rt; left.told.is_empty());
    Ok(())
}

/// After its greeting session 0 sends these pieces, each of which is answered by the lines beside it.
fn answers(rt: &impl Abort, alloc: Global, rows: &[(&str, &str)]) -> Result<(), Fail> {
    let mut record = opened(alloc)?;
    let mut want = String::from_str(alloc, GREETING)?;
    for (piece, lines) in rows {
        add_bytes(alloc, &mut record, piece.as_bytes())?;
        want.push_str(lines)?;
    }
    gives(rt, alloc, record.as_slice(), want.as_bytes())
}

/// Pieces before the negotiation and after it.
const NEGOTIATION: [(&str, &str); 6] = [
    (
        "{\"execute\":\"qom-list\",\"id\":7}\n",
        "0 {\"error\":{\"class\":\"CommandNotFound\",\"desc\":\"E8 negotiation expected\"},\"id\":7}\r\n",
    ),
    (
        "{\"execute\":\"qmp_capabilities\",\"arguments\":{\"enable\":[\"oob\"]}}\n",
        "0 {\"error\":{\"class\":\"GenericError\",\"desc\":\"E11 capability not offered\"}}\r\n",
    ),
    (
        "{\"execute\":\"qom-list\",\"id\":7}\n",
        "0 {\"error\":{\"class\":\"CommandNotFound\",\"desc\":\"E8 negotiation expected\"},\"id\":7}\r\n",
    ),
    ("{\"execute\":\"qmp_capabilities\"}\n", EMPTY),
    (
        "{\"execute\":\"qom-list\",\"id\":7}\n",
        "0 {\"error\":{\"class\":\"GenericError\",\"desc\":\"E12 argument missing\"},\"id\":7}\r\n",
    ),
    (
        "{\"execute\":\"qmp_capabilities\"}\n",
        "0 {\"error\":{\"class\":\"CommandNotFound\",\"desc\":\"E9 negotiation already done\"}}\r\n",
    ),
];

#[test]
fn negotiation_stands_before_arguments(rt: HostRuntime) -> Result<(), Fail> {
    answers(&rt, rt.alloc(), &NEGOTIATION)
}

#[test]
fn a_command_in_single_bytes_is_answered_once(rt: HostRuntime) -> Result<(), Fail> {
    let mut record = negotiated(rt.alloc())?;
    for byte in STATUS.as_bytes() {
        add_bytes(rt.alloc(), &mut record, &[*byte])?;
    }
    let want = joined(rt.alloc(), &[GREETING, EMPTY, RUNNING])?;
    gives(&rt, rt.alloc(), record.as_slice(), want.as_bytes())
}

/// One piece with three commands.
const THRICE: [(&str, &str); 2] = [
    (NEGOTIATE, EMPTY),
    (
        "{\"execute\":\"query-status\"}{\"execute\":\"query-status\"}{\"execute\":\"query-status\"}",
        "0 {\"return\":{\"running\":true,\"status\":\"running\"}}\r\n0 {\"return\":{\"running\":true,\"status\":\"running\"}}\r\n0 {\"return\":{\"running\":true,\"status\":\"running\"}}\r\n",
    ),
];

#[test]
fn commands_in_one_piece_are_answered_each(rt: HostRuntime) -> Result<(), Fail> {
    answers(&rt, rt.alloc(), &THRICE)
}

/// Pieces of a session that commands, and the line that each comes to.
const FRAMED: [(&str, &str); 5] = [
    (NEGOTIATE, EMPTY),
    (
        "{\"execute\":\"x\u{1}",
        "0 {\"error\":{\"class\":\"GenericError\",\"desc\":\"E3 object broken off\"}}\r\n",
    ),
    (
        "\"}\n",
        "0 {\"error\":{\"class\":\"GenericError\",\"desc\":\"E2 input outside an object\"}}\r\n",
    ),
    (
        "[1,{\"a\":2}]\n",
        "0 {\"error\":{\"class\":\"GenericError\",\"desc\":\"E2 input outside an object\"}}\r\n",
    ),
    (
        "{\"execute\":\"stop\",\"id\":1.5}\n",
        "0 {\"error\":{\"class\":\"GenericError\",\"desc\":\"E7 number not whole in 64 bits\"}}\r\n",
    ),
];

#[test]
fn bad_input_has_its_codes(rt: HostRuntime) -> Result<(), Fail> {
    answers(&rt, rt.alloc(), &FRAMED)
}

#[test]
fn the_byte_255_alone_is_passed_over(rt: HostRuntime) -> Result<(), Fail> {
    let mut record = negotiated(rt.alloc())?;
    add_bytes(rt.alloc(), &mut record, b"\xff")?;
    let want = joined(rt.alloc(), &[GREETING, EMPTY])?;
    gives(&rt, rt.alloc(), record.as_slice(), want.as_bytes())
}

const TOO_DEEP: &str =
    "0 {\"error\":{\"class\":\"GenericError\",\"desc\":\"E5 object nested too deep\"}}\r\n";

const NO_COMMAND: &str =
    "0 {\"error\":{\"class\":\"GenericError\",\"desc\":\"E6 not a command\"}}\r\n";

/// A member after 63 brackets.
fn bracketed(alloc: Global, after: &str) -> Result<String, Fail> {
    let brackets = "[".repeat(alloc, 63)?;
    Ok(joined(alloc, &["{\"execute\":", &brackets, after])?)
}

#[test]
fn depth_has_its_limit(rt: HostRuntime) -> Result<(), Fail> {
    let deep = bracketed(rt.alloc(), "[\n")?;
    let closing = "]".repeat(rt.alloc(), 63)?;
    let flat = bracketed(rt.alloc(), joined(rt.alloc(), &[&closing, "}\n"])?.as_str())?;
    let rows = [
        (NEGOTIATE, EMPTY),
        (deep.as_str(), TOO_DEEP),
        (flat.as_str(), NO_COMMAND),
    ];
    answers(&rt, rt.alloc(), &rows)
}

const TOO_LONG: &str =
    "0 {\"error\":{\"class\":\"GenericError\",\"desc\":\"E4 object too long\"}}\r\n";

/// A record of a command that spaces after its brace fill up to so many bytes, before the 25 of the rest.
fn padded(alloc: Global, filled: usize) -> Result<Vec<u8>, Fail> {
    let mut command = Vec::from_slice(alloc, b"{")?;
    command.resize(filled, b' ')?;
    command.extend_from_slice(b"\"execute\":\"query-status\"}\n")?;
    let mut record = negotiated(alloc)?;
    for piece in command.chunks(65_536) {
        add_bytes(alloc, &mut record, piece)?;
    }
    Ok(record)
}

#[test]
fn length_has_its_limit(rt: HostRuntime) -> Result<(), Fail> {
    for (filled, line) in [(262_144 - 25, RUNNING), (262_145 - 25, TOO_LONG)] {
        let record = padded(rt.alloc(), filled)?;
        let want = joined(rt.alloc(), &[GREETING, EMPTY, line])?;
        gives(&rt, rt.alloc(), record.as_slice(), want.as_bytes())?;
    }
    Ok(())
}

/// Commands, and the lines that answer them.
const ANSWERED: [(&str, &str); 8] = [
    (NEGOTIATE, EMPTY),
    (
        "{\"execute\":\"query-status\",\"id\":\"é😀\"}\n",
        "0 {\"id\":\"\\u00e9\\ud83d\\ude00\",\"return\":{\"running\":true,\"status\":\"running\"}}\r\n",
    ),
    (
        "{\"execute\":\"query-commands\"}",
        "0 {\"return\":[{\"name\":\"chardev-add\"},{\"name\":\"chardev-remove\"},{\"name\":\"cont\"},{\"name\":\"device-list-properties\"},{\"name\":\"device_add\"},{\"name\":\"device_del\"},{\"name\":\"human-monitor-command\"},{\"name\":\"object-add\"},{\"name\":\"object-del\"},{\"name\":\"qmp_capabilities\"},{\"name\":\"qom-get\"},{\"name\":\"qom-list\"},{\"name\":\"qom-list-types\"},{\"name\":\"qom-set\"},{\"name\":\"query-commands\"},{\"name\":\"query-status\"},{\"name\":\"query-version\"},{\"name\":\"quit\"},{\"name\":\"ringbuf-read\"},{\"name\":\"ringbuf-write\"},{\"name\":\"stop\"},{\"name\":\"system_reset\"},{\"name\":\"x-describe\"},{\"name\":\"x-guest\"},{\"name\":\"x-memmap\"},{\"name\":\"x-query-detached\"},{\"name\":\"x-query-notes\"},{\"name\":\"x-reset-hold\"},{\"name\":\"x-reset-release\"},{\"name\":\"x-sever\"},{\"name\":\"x-step\"},{\"name\":\"x-wakeup\"}]}\r\n",
    ),
    (
        "{\"execute\":\"query-version\"}",
        "0 {\"return\":{\"package\":\"compose\",\"qemu\":{\"major\":1,\"micro\":0,\"minor\":0}}}\r\n",
    ),
    (
        "{\"execute\":\"chardev-remove\",\"arguments\":{\"id\":\"r\"}}",
        "0 {\"error\":{\"class\":\"GenericError\",\"desc\":\"E36 ring not found\"}}\r\n",
    ),
    (
        "{\"execute\":\"chardev-change\",\"arguments\":{\"id\":\"r\"}}",
        "0 {\"error\":{\"class\":\"CommandNotFound\",\"desc\":\"E10 unknown command\"}}\r\n",
    ),
    (
        "{\"execute\":\"x-step\",\"arguments\":{\"ns\":9223372036854775807}}",
        "0 {\"return\":{\"now\":9223372036854775807}}\r\n",
    ),
    (
        "{\"execute\":\"qom-list\",\"arguments\":{\"path\":\"nowhere\"},\"id\":[1,null,{\"b\":-2,\"a\":true}]}",
        "0 {\"error\":{\"class\":\"DeviceNotFound\",\"desc\":\"E15 path not found\"},\"id\":[1,null,{\"a\":true,\"b\":-2}]}\r\n",
    ),
];

#[test]
fn commands_are_answered(rt: HostRuntime) -> Result<(), Fail> {
    answers(&rt, rt.alloc(), &ANSWERED)
}

/// Commands on types, and the lines that answer them.
const TYPES_ANSWERED: [(&str, &str); 8] = [
    (NEGOTIATE, EMPTY),
    (
        "{\"execute\":\"qom-list-types\",\"arguments\":{\"implements\":\"user-creatable\"}}",
        "0 {\"return\":[{\"name\":\"memory-backend-ram\",\"parent\":\"memory-backend\"},{\"name\":\"tag\",\"parent\":\"object\"}]}\r\n",
    ),
    (
        "{\"execute\":\"qom-list-types\",\"arguments\":{\"implements\":\"user-creatable\",\"abstract\":true}}",
        "0 {\"return\":[{\"abstract\":true,\"name\":\"memory-backend\",\"parent\":\"object\"},{\"name\":\"memory-backend-ram\",\"parent\":\"memory-backend\"},{\"name\":\"tag\",\"parent\":\"object\"}]}\r\n",
    ),
    (
        "{\"execute\":\"qom-list-types\",\"arguments\":{\"implements\":\"nothing\"},\"id\":1}",
        "0 {\"id\":1,\"return\":[]}\r\n",
    ),
    (
        "{\"execute\":\"qom-list-types\"}",
        "0 {\"return\":[{\"name\":\"container\",\"parent\":\"object\"},{\"name\":\"machine\",\"parent\":\"object\"},{\"name\":\"slot-uart\",\"parent\":\"slot-device\"},{\"name\":\"slot-timer\",\"parent\":\"slot-device\"},{\"name\":\"slot-bridge\",\"parent\":\"slot-device\"},{\"name\":\"mem-dimm\",\"parent\":\"device\"},{\"name\":\"slot-bus\",\"parent\":\"bus\"},{\"name\":\"mem-bus\",\"parent\":\"bus\"},{\"name\":\"clock\",\"parent\":\"object\"},{\"name\":\"memory-backend-ram\",\"parent\":\"memory-backend\"},{\"name\":\"tag\",\"parent\":\"object\"}]}\r\n",
    ),
    (
        "{\"execute\":\"device-list-properties\",\"arguments\":{\"typename\":\"mem-dimm\"}}",
        "0 {\"return\":[{\"name\":\"slot\",\"type\":\"uint64\"},{\"name\":\"peer\",\"type\":\"link<device>\"},{\"name\":\"watch\",\"type\":\"link<device>\"},{\"name\":\"memdev\",\"type\":\"link<memory-backend>\"},{\"name\":\"addr\",\"type\":\"uint64\"}]}\r\n",
    ),
    (
        "{\"execute\":\"device-list-properties\",\"arguments\":{\"typename\":\"nothing\"}}",
        "0 {\"error\":{\"class\":\"GenericError\",\"desc\":\"E20 type unknown\"}}\r\n",
    ),
    (
        "{\"execute\":\"device-list-properties\",\"arguments\":{\"typename\":\"tag\"}}",
        "0 {\"error\":{\"class\":\"GenericError\",\"desc\":\"E22 type not creatable here\"}}\r\n",
    ),
];

#[test]
fn commands_on_types_are_answered(rt: HostRuntime) -> Result<(), Fail> {
    answers(&rt, rt.alloc(), &TYPES_ANSWERED)
}

/// A record in which the second of three sessions quits.
const QUIT: &str =
    "qrec 1\nopen 1.000000 0\nopen 1.000000 1\nopen 1.000000 2\nbytes 1.000000 0 30\n{\"execute\":\"qmp_capabilities\"}\nbytes 1.000000 1 30\n{\"execute\":\"qmp_capabilities\"}\nbytes 1.000000 1 18\n{\"execute\":\"quit\"}\nbytes 1.000000 0 26\n{\"execute\":\"query-status\"}\nwhat is no entry";

/// What they are sent.
const QUIT_SENT: &str =
    "0 {\"QMP\":{\"capabilities\":[],\"version\":{\"package\":\"compose\",\"qemu\":{\"major\":1,\"micro\":0,\"minor\":0}}}}\r\n1 {\"QMP\":{\"capabilities\":[],\"version\":{\"package\":\"compose\",\"qemu\":{\"major\":1,\"micro\":0,\"minor\":0}}}}\r\n2 {\"QMP\":{\"capabilities\":[],\"version\":{\"package\":\"compose\",\"qemu\":{\"major\":1,\"micro\":0,\"minor\":0}}}}\r\n0 {\"return\":{}}\r\n1 {\"return\":{}}\r\n0 {\"data\":{\"guest\":false,\"reason\":\"host-qmp-quit\"},\"event\":\"SHUTDOWN\",\"timestamp\":{\"microseconds\":0,\"seconds\":1}}\r\n1 {\"data\":{\"guest\":false,\"reason\":\"host-qmp-quit\"},\"event\":\"SHUTDOWN\",\"timestamp\":{\"microseconds\":0,\"seconds\":1}}\r\n1 {\"return\":{}}\r\n";

#[test]
fn quit_ends_the_run(rt: HostRuntime) -> Result<(), Fail> {
    gives(&rt, rt.alloc(), QUIT.as_bytes(), QUIT_SENT.as_bytes())
}

/// A record with entries of each kind.
const KINDS: &str =
    "qrec 1\nopen 0.000000 15\nguest 0.000001 5\npoll\n\nstep 2.000000 25\nshut 9223372036854775807.999999 15\nopen 1.000000 15\n";

/// What is sent for it.
const KINDS_SENT: &str =
    "15 {\"QMP\":{\"capabilities\":[],\"version\":{\"package\":\"compose\",\"qemu\":{\"major\":1,\"micro\":0,\"minor\":0}}}}\r\ng ok none\n15 {\"QMP\":{\"capabilities\":[],\"version\":{\"package\":\"compose\",\"qemu\":{\"major\":1,\"micro\":0,\"minor\":0}}}}\r\n";

#[test]
fn entries_of_every_kind_are_taken(rt: HostRuntime) -> Result<(), Fail> {
    gives(&rt, rt.alloc(), KINDS.as_bytes(), KINDS_SENT.as_bytes())
}
