//! The words that are orders, the words that are none, and sessions that are served over a hub in memory.

use crate::calling::{Left, call, call_with_room};
use compose::{NoHub, Ran, Status, compose};
use qo_causes::{ByteSink, ByteSource, Chunk, Input, Lane, Moment, ScriptHub, What};
use qo_listen::Listeners;
use qo_record::demo_record;
use std::alloc::Global;
use std::test::Fail;

/// The words between single spaces; two spaces have an empty word between them.
fn words_of(alloc: Global, line: &str) -> Result<Vec<String>, Fail> {
    let mut words = Vec::new(alloc);
    for word in line.split(' ') {
        words.push(String::from_str(alloc, word)?)?;
    }
    Ok(words)
}

/// Lines that are `serve` at the path `s` with these connections.
const SERVES: &[(&str, u32)] = &[
    ("serve --socket s --connections 1", 1),
    ("serve --connections 1000 --socket s", 1_000),
    ("serve --socket=s --connections=20", 20),
    ("serve --connections=7 --socket s", 7),
    ("serve --socket s --connections=7", 7),
    ("serve --socket=s --connections 7", 7),
];

/// Lines that are `demo` with these numbers.
const DEMOS: &[(&str, u64, u32)] = &[
    ("demo --seed 1 --steps 0", 1, 0),
    (
        "demo --steps 2000 --seed=18446744073709551615",
        u64::MAX,
        2_000,
    ),
    ("demo --steps=0 --seed=0", 0, 0),
];

/// Lines that are no order.
const NO_ORDERS: &[&str] = &[
    "",
    "Replay",
    "repla",
    "replays",
    " replay",
    "replay ",
    "replay replay",
    "replay -h",
    "-h",
    "--help",
    "--",
    "rebuilds",
    "rebuild rebuild",
    "rebuild --",
    "type",
    "types types",
    "types --",
    "-- types",
    "serve",
    "demo",
    "serve -h",
    "serve --help",
    "serve s 1",
    "serve --socket s",
    "serve --connections 1",
    "serve --socket s --socket s",
    "serve --socket s --connections",
    "serve --connections 1 --socket",
    "serve --connections 1 --socket=",
    "serve --connections 1 --socket ",
    "serve --socket --connections 1",
    "serve --socket -s --connections 1",
    "serve --socket=-s --connections 1",
    "serve --socket - --connections 1",
    "serve --socket -- --connections 1",
    "serve --connections -- 1 --socket s",
    "serve -- --socket s --connections 1",
    "serve --sock s --connections 1",
    "serve --sockets s --connections 1",
    "serve --socket s --conn 1",
    "serve -socket s --connections 1",
    "serve --Socket s --connections 1",
    "serve --socket s --connections 1 more",
    "serve --socket s --connections 1 --connections 1",
    "serve --socket s --connections 0",
    "serve --socket s --connections 1001",
    "serve --socket s --connections 01",
    "serve --socket s --connections +1",
    "serve --socket s --connections 0x1",
    "serve --socket s --connections 1.0",
    "serve --socket s --connections=",
    "serve --socket s --seed 1",
    "demo --seed 1 --seed 1 --steps 0",
    "demo --seed 18446744073709551616 --steps 0",
    "demo --seed 1 --steps 1000001",
    "demo --seed 00 --steps 0",
    "demo --seed -1 --steps 0",
];

/// What `compose` does with the words of a line: its sink has room for so many bytes.
fn done(alloc: Global, line: &str, record: Vec<u8>, room: usize) -> Result<Left, Fail> {
    let words = words_of(alloc, line)?;
    let source = ByteSource::new(record, Vec::new(alloc));
    let sink = ByteSink::new(alloc, room, Vec::new(alloc))?;
    let mut complaints = ByteSink::new(alloc, 256, Vec::new(alloc))?;
    let Ran {
        status,
        code: _,
        source: _,
        sink,
    } = compose(
        alloc,
        words.as_slice(),
        source,
        sink,
        &mut complaints,
        &mut NoHub,
        Listeners::new(alloc),
    );
    Ok(Left {
        status,
        held: Vec::from_slice(alloc, sink.held())?,
        told: Vec::from_slice(alloc, complaints.held())?,
    })
}

/// How many bytes the replay of a demo record sends.
fn sent_by_demo(alloc: Global, seed: u64, steps: u32) -> Result<usize, Fail> {
    let record = demo_record(alloc, seed, steps)?;
    Ok(done(alloc, "replay", record, 67_108_864)?.held.len())
}

#[test]
fn words_of_serve(rt: HostRuntime) -> Result<(), Fail> {
    for (line, connections) in SERVES {
        let mut hub = hub_of(rt.alloc(), &[], &[])?;
        let (status, _) = served(rt.alloc(), line, &mut hub)?;
        assert_eq!(rt; status, Status::Done, "at {line}");
        assert_eq!(rt; hub.asked(), Some(("s", *connections)), "at {line}");
    }
    Ok(())
}

#[test]
fn words_of_demo(rt: HostRuntime) -> Result<(), Fail> {
    for (line, seed, steps) in DEMOS {
        let left = done(rt.alloc(), line, Vec::new(rt.alloc()), 256)?;
        let bytes = format!(in rt.alloc();
            "\nbytes {}\n",
            sent_by_demo(rt.alloc(), *seed, *steps)?
        )?;
        assert_eq!(rt; left.status, Status::Done, "at {line}");
        assert!(rt;
            left.held.as_slice().ends_with(bytes.as_bytes()),
            "at {line}"
        );
    }
    Ok(())
}

#[test]
fn words_that_are_no_order(rt: HostRuntime) -> Result<(), Fail> {
    for line in NO_ORDERS {
        let left = done(rt.alloc(), line, Vec::new(rt.alloc()), 256)?;
        assert_eq!(rt; left.status, Status::Usage, "at {line}");
    }
    let left = call(rt.alloc(), &[], b"qrec 1\n", &[], &[])?;
    assert_eq!(rt; left.status, Status::Usage);
    Ok(())
}

/// What a session sends.
const SAID: &[u8] = b"{\"execute\":\"qmp_capabilities\"}{\"execute\":\"quit\"}";

/// What it is sent.
const SENT: &str =
    "{\"QMP\":{\"capabilities\":[],\"version\":{\"package\":\"compose\",\"qemu\":{\"major\":1,\"micro\":0,\"minor\":0}}}}\r\n{\"return\":{}}\r\n{\"data\":{\"guest\":false,\"reason\":\"host-qmp-quit\"},\"event\":\"SHUTDOWN\",\"timestamp\":{\"microseconds\":5,\"seconds\":9}}\r\n{\"return\":{}}\r\n";

/// A hub in memory of one session, whose calls of these numbers fail.
fn hub_of(alloc: Global, nexts: &[u64], sends: &[u64]) -> Result<ScriptHub, Fail> {
    let at = Moment {
        seconds: 9,
        micros: 5,
    };
    let said = Chunk::from_vec(Vec::from_slice(alloc, SAID)?);
    let mut inputs = Vec::new(alloc);
    inputs.push(Input {
        at,
        what: What::Open(0),
    })?;
    inputs.push(Input {
        at,
        what: What::Bytes(0, said),
    })?;
    inputs.push(Input {
        at,
        what: What::Shut(0),
    })?;
    let (nexts, sends) = (
        Vec::from_slice(alloc, nexts)?,
        Vec::from_slice(alloc, sends)?,
    );
    Ok(ScriptHub::new(alloc, inputs, 4_096, nexts, sends, Vec::new(alloc))?)
}

/// The status of `serve` over a hub, and what was complained.
fn served(alloc: Global, line: &str, hub: &mut ScriptHub) -> Result<(Status, Vec<u8>), Fail> {
    let words = words_of(alloc, line)?;
    let source = ByteSource::new(Vec::new(alloc), Vec::new(alloc));
    let sink = ByteSink::new(alloc, 16, Vec::new(alloc))?;
    let mut complaints = ByteSink::new(alloc, 256, Vec::new(alloc))?;
    let Ran {
        status,
        code: _,
        source: _,
        sink: _,
    } = compose(
        alloc,
        words.as_slice(),
        source,
        sink,
        &mut complaints,
        hub,
        Listeners::new(alloc),
    );
    Ok((status, Vec::from_slice(alloc, complaints.held())?))
}

#[test]
fn a_hub_is_served(rt: HostRuntime) -> Result<(), Fail> {
    let mut hub = hub_of(rt.alloc(), &[], &[])?;
    let (status, told) = served(rt.alloc(), "serve --connections 3 --socket s", &mut hub)?;
    assert_eq!(rt; status, Status::Done);
    assert!(rt; told.is_empty());
    assert_eq!(rt; hub.asked(), Some(("s", 3)));
    assert_eq!(rt; hub.lane(Lane::Session(0)), SENT.as_bytes());

    // It is asked for two inputs, and sends four messages.
    let faults: &[(&[u64], &[u64])] = &[
        (&[1], &[]),
        (&[2], &[]),
        (&[], &[1]),
        (&[], &[2]),
        (&[], &[3]),
        (&[], &[4]),
    ];
    for (nexts, sends) in faults {
        let mut hub = hub_of(rt.alloc(), nexts, sends)?;
        let (status, told) = served(rt.alloc(), "serve --socket=s --connections=1", &mut hub)?;
        assert_eq!(rt; status, Status::HubFault);
        assert_eq!(rt; told.as_slice(), b"compose: hub fault\n".as_slice());
        assert_eq!(rt; hub.asked(), Some(("s", 1)));
    }
    Ok(())
}

#[test]
fn a_hub_that_does_not_begin_is_a_fault(rt: HostRuntime) -> Result<(), Fail> {
    let mut hub = hub_of(rt.alloc(), &[], &[])?;
    let long = "p".repeat(rt.alloc(), 4_097)?;
    let line = format!(in rt.alloc(); "serve --connections 1 --socket {long}")?;
    let (status, told) = served(rt.alloc(), line.as_str(), &mut hub)?;
    assert_eq!(rt; status, Status::HubFault);
    assert_eq!(rt; told.as_slice(), b"compose: hub fault\n".as_slice());
    assert_eq!(rt; hub.asked(), None);
    assert_eq!(rt; hub.lane(Lane::Session(0)), b"".as_slice());
    Ok(())
}

/// The types, as the profile has them.
const TYPES: &[u8] = b"\
object - abstract -
container object plain -
machine object plain hotplug-handler,resettable
device object abstract resettable
slot-device device abstract -
slot-uart slot-device plain -
slot-timer slot-device plain -
slot-bridge slot-device plain hotplug-handler
mem-dimm device plain -
bus object abstract resettable
slot-bus bus plain -
mem-bus bus plain -
clock object plain -
memory-backend object abstract user-creatable
memory-backend-ram memory-backend plain -
tag object plain user-creatable
";

#[test]
fn types_are_told(rt: HostRuntime) -> Result<(), Fail> {
    let left = call(rt.alloc(), &["types"], b"", &[1], &[])?;
    assert_eq!(rt; left.status, Status::Done);
    assert_eq!(rt; left.held.as_slice(), TYPES);
    assert!(rt; left.told.is_empty());
    let left = call_with_room(rt.alloc(), &["types"], b"", &[1], &[], 100)?;
    assert_eq!(rt; left.status, Status::WriteFault);
    assert_eq!(rt; left.held.as_slice(), &TYPES[..100]);
    assert_eq!(rt; left.told.as_slice(), b"compose: write fault\n".as_slice());
    Ok(())
}

/// What a demo tells of the greeting and the reply to the negotiation alone.
const NEGOTIATED: &[u8] = b"replies 1\nerrors 0\nevents 0\nanswers 0\nbytes 119\n";

#[test]
fn demos_are_counted(rt: HostRuntime) -> Result<(), Fail> {
    let none = ["demo", "--steps", "0", "--seed=1"];
    let left = call(rt.alloc(), &none, b"", &[1], &[])?;
    assert_eq!(rt; left.status, Status::Done);
    assert_eq!(rt; left.held.as_slice(), NEGOTIATED);
    assert!(rt; left.told.is_empty());
    let one = ["demo", "--seed", "1", "--steps", "1"];
    assert_eq!(rt;
        call(rt.alloc(), &one, b"", &[], &[])?.held.as_slice(),
        NEGOTIATED
    );
    let left = call_with_room(rt.alloc(), &none, b"", &[], &[], 15)?;
    assert_eq!(rt; left.status, Status::WriteFault);
    assert_eq!(rt; left.held.as_slice(), &NEGOTIATED[..15]);
    assert_eq!(rt; left.told.as_slice(), b"compose: write fault\n".as_slice());
    let many = ["demo", "--seed", "7", "--steps", "200"];
    let first = call(rt.alloc(), &many, b"", &[], &[])?;
    assert_eq!(rt; first.status, Status::Done);
    assert_eq!(rt;
        first.held.as_slice(),
        call(rt.alloc(), &many, b"", &[], &[])?.held.as_slice()
    );
    Ok(())
}
