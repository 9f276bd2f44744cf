//! That steps and runs succeed with ample memory: no clause says that memory does not want, nor that a
//! reply is not E99.

use qo_causes::{Chunk, Input, Lane, Moment, ScriptHub, What};
use qo_machine::{Ending, Machine, Outs, run};
use std::alloc::Global;
use std::process::Abort;
use std::test::Fail;

/// What comes to a machine.
enum Given {
    /// Session 0 opens.
    Open,
    /// Session 0 says this.
    Says(&'static str),
    /// The guest says this.
    Guest(&'static str),
}

impl Given {
    /// It as what an input is.
    fn what(&self, alloc: Global) -> Result<What, Fail> {
        match self {
            Given::Open => Ok(What::Open(0)),
            Given::Says(text) => Ok(What::Bytes(0, chunk(alloc, text)?)),
            Given::Guest(text) => Ok(What::Guest(chunk(alloc, text)?)),
        }
    }

    /// It as an input at the second 1.
    fn input(&self, alloc: Global) -> Result<Input, Fail> {
        let at = Moment {
            seconds: 1,
            micros: 0,
        };
        let what = self.what(alloc)?;
        Ok(Input { at, what })
    }
}

/// A text as one piece.
fn chunk(alloc: Global, text: &str) -> Result<Chunk, Fail> {
    if text.is_empty() || text.len() > Chunk::MAX {
        return Err("no chunk".into());
    }
    Ok(Chunk::from_vec(Vec::from_slice(alloc, text.as_bytes())?))
}

const GREETING: &str =
    "{\"QMP\":{\"capabilities\":[],\"version\":{\"package\":\"compose\",\"qemu\":{\"major\":1,\"micro\":0,\"minor\":0}}}}\r\n";

const NEGOTIATE: &str = "{\"execute\":\"qmp_capabilities\"}";

const LIST_ROOT: &str = "{\"execute\":\"qom-list\",\"arguments\":{\"path\":\"/\"}}";

const ALL_AT_ONCE: &str =
    "{\"execute\":\"qmp_capabilities\"}{\"execute\":\"qom-list\",\"arguments\":{\"path\":\"/\"}}{\"execute\":\"quit\"}";

const EMPTY: &str = "{\"return\":{}}\r\n";

const ROOT: &str =
    "{\"return\":[{\"name\":\"type\",\"type\":\"string\"},{\"name\":\"machine\",\"type\":\"child<machine>\"},{\"name\":\"objects\",\"type\":\"child<container>\"}]}\r\n";

const SHUTDOWN: &str =
    "{\"data\":{\"guest\":false,\"reason\":\"host-qmp-quit\"},\"event\":\"SHUTDOWN\",\"timestamp\":{\"microseconds\":0,\"seconds\":1}}\r\n";

const GUEST_SHUTDOWN: &str =
    "{\"data\":{\"guest\":true,\"reason\":\"guest-shutdown\"},\"event\":\"SHUTDOWN\",\"timestamp\":{\"microseconds\":0,\"seconds\":1}}\r\n";

/// The texts of some messages, one after another, each after its lane.
fn told(alloc: Global, outs: &Outs) -> Result<Vec<u8>, Fail> {
    let mut text = Vec::new(alloc);
    for (lane, bytes) in outs.as_slice() {
        match lane {
            Lane::Session(session) => text.push(b'0' + session % 10)?,
            Lane::Guest => text.push(b'g')?,
        }
        text.extend_from_slice(bytes.as_slice())?;
    }
    Ok(text)
}

/// Texts, one after another.
fn joined(alloc: Global, pieces: &[&str]) -> Result<Vec<u8>, Fail> {
    let mut text = Vec::new(alloc);
    for piece in pieces {
        text.extend_from_slice(piece.as_bytes())?;
    }
    Ok(text)
}

/// What a step of the machine sends.
fn answer(alloc: Global, machine: &mut Machine, given: &Given) -> Result<Vec<u8>, Fail> {
    let outs = machine.step(alloc, &given.input(alloc)?)?;
    told(alloc, &outs)
}

/// What comes, and what is sent for it: each text after its lane.
type Row = (Given, &'static [&'static str]);

/// A machine answers so from its beginning.
fn answers_so(rt: &impl Abort, alloc: Global, rows: &[Row]) -> Result<(), Fail> {
    let mut machine = Machine::start(alloc)?;
    for (given, wanted) in rows {
        let sent = answer(alloc, &mut machine, given)?;
        assert_eq!(rt; sent, joined(alloc, wanted)?);
    }
    Ok(())
}

/// A session that says all at once, and ends the run.
const SESSION: [Row; 2] = [
    (Given::Open, &["0", GREETING]),
    (
        Given::Says(ALL_AT_ONCE),
        &["0", EMPTY, "0", ROOT, "0", SHUTDOWN, "0", EMPTY],
    ),
];

#[test]
fn a_session_is_served(rt: HostRuntime) -> Result<(), Fail> {
    answers_so(&rt, rt.alloc(), &SESSION)
}

/// A guest whose first line comes in two pieces, and who says one that is none.
const LINES: [Row; 5] = [
    (Given::Open, &["0", GREETING]),
    (Given::Says(NEGOTIATE), &["0", EMPTY]),
    (Given::Guest("po"), &[]),
    (
        Given::Guest("ll\r\nbark\nshutdown\npoll\n"),
        &[
            "g",
            "ok none\n",
            "g",
            "no line\n",
            "0",
            GUEST_SHUTDOWN,
            "g",
            "ok\n",
        ],
    ),
    (Given::Guest("poll\n"), &[]),
];

#[test]
fn the_guest_is_answered_line_by_line(rt: HostRuntime) -> Result<(), Fail> {
    answers_so(&rt, rt.alloc(), &LINES)
}

/// A session that negotiates and lists the root.
const LISTING: [Given; 3] = [Given::Open, Given::Says(NEGOTIATE), Given::Says(LIST_ROOT)];

/// A hub with these inputs, and whose calls of these numbers fail.
fn hub(alloc: Global, givens: &[Given], nexts: &[u64], sends: &[u64]) -> Result<ScriptHub, Fail> {
    let mut inputs = Vec::new(alloc);
    for given in givens {
        inputs.push(given.input(alloc)?)?;
    }
    Ok(ScriptHub::new(
        alloc,
        inputs,
        4_096,
        Vec::from_slice(alloc, nexts)?,
        Vec::from_slice(alloc, sends)?,
        Vec::new(alloc),
    )?)
}

/// How a run over the listing ends, and what the session got.
fn run_over(
    alloc: Global,
    nexts: &[u64],
    sends: &[u64],
    limit: u64,
) -> Result<(Ending, Vec<u8>), Fail> {
    let mut hub = hub(alloc, &LISTING, nexts, sends)?;
    let ending = run(alloc, &mut hub, limit);
    let got = Vec::from_slice(alloc, hub.lane(Lane::Session(0)))?;
    Ok((ending, got))
}

/// A run over the listing.
struct Run {
    /// The numbers of the calls of the hub that fail to give an input.
    nexts: &'static [u64],
    /// The numbers of those that fail to send.
    sends: &'static [u64],
    /// How many inputs it may take.
    limit: u64,
    /// How it ends.
    ending: Ending,
    /// What the session got.
    got: &'static [&'static str],
}

const RUNS: [Run; 4] = [
    Run {
        nexts: &[],
        sends: &[],
        limit: 4,
        ending: Ending::Done,
        got: &[GREETING, EMPTY, ROOT],
    },
    Run {
        nexts: &[],
        sends: &[],
        limit: 3,
        ending: Ending::Limit,
        got: &[GREETING, EMPTY, ROOT],
    },
    Run {
        nexts: &[3],
        sends: &[],
        limit: 4,
        ending: Ending::NextFailed,
        got: &[GREETING, EMPTY],
    },
    Run {
        nexts: &[],
        sends: &[3],
        limit: 4,
        ending: Ending::SendFailed,
        got: &[GREETING, EMPTY],
    },
];

#[test]
fn runs_end_so(rt: HostRuntime) -> Result<(), Fail> {
    for row in &RUNS {
        let (ending, got) = run_over(rt.alloc(), row.nexts, row.sends, row.limit)?;
        assert_eq!(rt; ending, row.ending);
        assert_eq!(rt; got, joined(rt.alloc(), row.got)?);
    }
    Ok(())
}
