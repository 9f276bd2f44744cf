//! Streams with ample memory: which entries are read, where the reading stops, and the transcript's lines.

ghost use Rattle.std.specs.Prelude.{Some};

use qo_causes::{
    ByteSink, ByteSource, Failed, Hub, Input, Lane, Moment, NextError, SendError, Source, What,
};
use qo_record::{ReplayHub, Unmade, demo_record};
use std::alloc::Global;
use std::process::Abort;
use std::test::Fail;

/// A source of these bytes, of whose takes those of these numbers fail.
fn source_of(alloc: Global, bytes: &[u8], takes: &[u64]) -> Result<ByteSource, Fail> {
    let fails = takes.to_vec(alloc)?;
    Ok(ByteSource::new(bytes.to_vec(alloc)?, fails))
}

/// A hub over a source, whose sink has room for 64 bytes and fails at its second put.
fn hub_over<S: Source + Drop>(alloc: Global, source: S) -> Result<ReplayHub<S, ByteSink>, Fail> {
    let sink = ByteSink::new(alloc, 64, vec![in alloc; 2]?)?;
    match ReplayHub::new(alloc, source, sink) {
        Ok(hub) => Ok(hub),
        Err(Unmade { source: _, sink: _ }) => Err("there was no memory for the hub".into()),
    }
}

/// A hub over a source of these bytes.
fn hub(alloc: Global, bytes: &[u8]) -> Result<ReplayHub<ByteSource, ByteSink>, Fail> {
    hub_over(alloc, source_of(alloc, bytes, &[])?)
}

/// Where a hub stops after so many inputs: its bad place, or none at the end.
fn stop_of<H: Hub>(hub: &mut H, count: usize) -> Result<Option<u64>, Fail> {
    for _ in 0..count {
        if let What::End = hub.next()?.what {
            return Err("the end came early".into());
        }
    }
    match hub.next() {
        Ok(input) => match input.what {
            What::End => Ok(None),
            _ => Err("there is one input more".into()),
        },
        Err(NextError::Bad(place)) => Ok(Some(place)),
        Err(error) => Err(error.into()),
    }
}

/// Where a stream stops after so many inputs.
fn stop(alloc: Global, bytes: &[u8], count: usize) -> Result<Option<u64>, Fail> {
    stop_of(&mut hub(alloc, bytes)?, count)
}

/// How many bytes the guest wrote next.
fn next_size<H: Hub>(hub: &mut H) -> Result<usize, Fail> {
    match hub.next()?.what {
        What::Guest(chunk) => Ok(chunk.as_slice().len()),
        _ => Ok(0),
    }
}

const EACH_KIND: &[u8] =
    b"qrec 1\nopen 1.000002 15\nbytes 1.999999 15 3\na\nb\nguest 0.000000 1\n\n\nstep 9223372036854775807.000010 12\nshut 10.100000 15\n";

/// What each of them comes to.
const EACH_TOLD: [&str; 6] = [
    "1.000002 open 15",
    "1.999999 bytes 15 [97, 10, 98]",
    "0.000000 guest [10]",
    "9223372036854775807.000010 step 12",
    "10.100000 shut 15",
    "0.000000 end",
];

/// An input as a text, with its bytes as numbers.
fn told(alloc: Global, input: &Input) -> Result<String, Fail> {
    let Moment { seconds, micros } = input.at;
    let what = match &input.what {
        What::Open(session) => format!(in alloc; "open {session}")?,
        What::Bytes(session, chunk) => {
            format!(in alloc; "bytes {session} {:?}", chunk.as_slice())?
        }
        What::Shut(session) => format!(in alloc; "shut {session}")?,
        What::Guest(chunk) => format!(in alloc; "guest {:?}", chunk.as_slice())?,
        What::Step(ns) => format!(in alloc; "step {ns}")?,
        What::End => format!(in alloc; "end")?,
    };
    Ok(format!(in alloc; "{seconds}.{micros:06} {what}")?)
}

/// What a hub gives next, as a text: an input, or why there is none.
fn next_told<H: Hub>(alloc: Global, hub: &mut H) -> Result<String, Fail> {
    match hub.next() {
        Ok(input) => told(alloc, &input),
        Err(error) => Ok(format!(in alloc; "{error}")?),
    }
}

/// What a hub does.
enum Act {
    /// It gives this next: an input, or why there is none.
    Gives(&'static str),
    /// It sends this to a lane.
    Sends(Lane, &'static str),
    /// It fails to send this.
    FailsToSend(Lane, &'static str),
}

/// Whether a hub does this.
fn does<H: Hub>(alloc: Global, hub: &mut H, act: &Act) -> Result<bool, Fail> {
    match act {
        Act::Gives(text) => Ok(next_told(alloc, hub)?.as_str() == *text),
        Act::Sends(lane, text) => Ok(hub.send(*lane, text.as_bytes()).is_ok()),
        Act::FailsToSend(lane, text) => {
            Ok(hub.send(*lane, text.as_bytes()).err() == Some(SendError::Failed))
        }
    }
}

/// Whether a hub does these, one after the other.
fn does_all<H: Hub>(alloc: Global, hub: &mut H, acts: &[Act]) -> Result<bool, Fail> {
    for act in acts {
        if !does(alloc, hub, act)? {
            return Ok(false);
        }
    }
    Ok(true)
}

/// A hub gives these next.
fn gives<H: Hub>(rt: &impl Abort, alloc: Global, hub: &mut H, texts: &[&str]) -> Result<(), Fail> {
    for text in texts {
        let given = next_told(alloc, hub)?;
        assert_eq!(rt; given.as_str(), *text);
    }
    Ok(())
}

#[test]
fn entries_come_in_order(rt: HostRuntime) -> Result<(), Fail> {
    let mut hub = hub(rt.alloc(), EACH_KIND)?;
    assert!(rt; hub.begin("s", 1).is_ok());
    gives(&rt, rt.alloc(), &mut hub, &EACH_TOLD)
}

/// A stream, how many inputs it gives, and where it stops after them: its bad place, or none at the end.
type Row = (&'static [u8], usize, Option<u64>);

/// Streams stop so.
fn stop_so(rt: &impl Abort, alloc: Global, rows: &[Row]) -> Result<(), Fail> {
    for (bytes, count, place) in rows {
        assert_eq!(rt; stop(alloc, bytes, *count)?, *place, "{bytes:?}");
    }
    Ok(())
}

/// Streams with and without a whole header.
const HEADERS: [Row; 10] = [
    (b"qrec 1\n", 0, None),
    (b"qrec 2\n", 0, None),
    (b"", 0, Some(0)),
    (b"qrec 1", 0, Some(0)),
    (b"qrec 2", 0, Some(0)),
    (b"qrec 3\n", 0, Some(0)),
    (b"qrec 1\r\n", 0, Some(0)),
    (b"open 1.000000 0\n", 0, Some(0)),
    (b"qrec 1\nqrec 1\n", 0, Some(7)),
    (b"qrec 2\nqrec 2\n", 0, Some(7)),
];

#[test]
fn header_is_needed(rt: HostRuntime) -> Result<(), Fail> {
    stop_so(&rt, rt.alloc(), &HEADERS)
}

/// Streams whose last entry is cut, or ends where its number of bytes does not say.
const CUT: [Row; 5] = [
    (b"qrec 1\nopen 1.000000 0", 0, Some(7)),
    (b"qrec 1\nguest 0.000000 2\nab", 0, Some(7)),
    (b"qrec 1\nguest 0.000000 2\na\n", 0, Some(7)),
    (b"qrec 1\nguest 0.000000 2\nabc\n", 0, Some(7)),
    (b"qrec 1\nguest 0.000000 2\nab\n", 1, None),
];

#[test]
fn cut_entry_is_bad_at_its_first_byte(rt: HostRuntime) -> Result<(), Fail> {
    let mut cut = hub(rt.alloc(), b"qrec 1\nopen 1.000000 0\nbytes 1.0")?;
    assert_eq!(rt; stop_of(&mut cut, 1)?, Some(23));
    assert_eq!(rt; stop_of(&mut cut, 0)?, Some(23));
    stop_so(&rt, rt.alloc(), &CUT)
}

/// Streams whose words, or the spaces and lines between them, are not those of an entry.
const WORDS: [Row; 6] = [
    (b"qrec 1\nopen  1.000000 0\n", 0, Some(7)),
    (b"qrec 1\nOpen 1.000000 0\n", 0, Some(7)),
    (b"qrec 1\nclose 1.000000 0\n", 0, Some(7)),
    (b"qrec 1\nopen 1.000000 0 \n", 0, Some(7)),
    (b"qrec 1\n\nopen 1.000000 0\n", 0, Some(7)),
    (b"qrec 1\nopen 1.000000 0\n\n", 1, Some(23)),
];

#[test]
fn words_are_exact(rt: HostRuntime) -> Result<(), Fail> {
    stop_so(&rt, rt.alloc(), &WORDS)
}

/// Numbers at the ends of their ranges and past them, and such as are spelled otherwise.
const NUMBERS: [Row; 15] = [
    (b"qrec 1\nopen 0.000000 16\n", 0, Some(7)),
    (b"qrec 1\nopen 0.000000 00\n", 0, Some(7)),
    (b"qrec 1\nopen 0.000000 01\n", 0, Some(7)),
    (b"qrec 1\nopen 00.000000 1\n", 0, Some(7)),
    (b"qrec 1\nopen 0.00000 1\n", 0, Some(7)),
    (b"qrec 1\nopen 0.0000000 1\n", 0, Some(7)),
    (b"qrec 1\nopen .000000 1\n", 0, Some(7)),
    (b"qrec 1\nopen 9223372036854775808.000000 1\n", 0, Some(7)),
    (b"qrec 1\nopen 18446744073709551616.000000 1\n", 0, Some(7)),
    (b"qrec 1\nstep 0.000000 0\n", 0, Some(7)),
    (b"qrec 1\nstep 0.000000 1\n", 1, None),
    (b"qrec 1\nstep 0.000000 +1\n", 0, Some(7)),
    (b"qrec 1\nstep 0.000000 9223372036854775807\n", 1, None),
    (b"qrec 1\nstep 0.000000 9223372036854775808\n", 0, Some(7)),
    (b"qrec 1\nguest 0.000000 0\n\n", 0, Some(7)),
];

#[test]
fn numbers_are_within_their_ranges(rt: HostRuntime) -> Result<(), Fail> {
    stop_so(&rt, rt.alloc(), &NUMBERS)
}

/// Sessions that open, send and shut in turn, and out of turn.
const SESSIONS: [Row; 6] = [
    (b"qrec 1\nopen 0.000000 3\nopen 0.000000 3\n", 1, Some(23)),
    (b"qrec 1\nopen 0.000000 3\nopen 0.000000 4\n", 2, None),
    (b"qrec 1\nshut 0.000000 3\n", 0, Some(7)),
    (b"qrec 1\nbytes 0.000000 3 1\na\n", 0, Some(7)),
    (
        b"qrec 1\nopen 0.000000 3\nbytes 0.000000 4 1\na\n",
        1,
        Some(23),
    ),
    (
        b"qrec 1\nopen 0.000000 3\nshut 0.000000 3\nopen 0.000000 3\nshut 0.000000 3\nbytes 0.000000 3 1\na\n",
        4,
        Some(71),
    ),
];

#[test]
fn sessions_open_and_shut_in_turn(rt: HostRuntime) -> Result<(), Fail> {
    stop_so(&rt, rt.alloc(), &SESSIONS)
}

/// Names of sessions, and such as are none.
const NAMES: [Row; 12] = [
    (b"qrec 2\nopen 1.000000 ops\n", 1, None),
    (b"qrec 2\nopen 1.000000 g\n", 0, Some(7)),
    (b"qrec 2\nopen 1.000000 gg\n", 1, None),
    (b"qrec 2\nopen 1.000000 a-1-\n", 1, None),
    (b"qrec 2\nopen 1.000000 0\n", 0, Some(7)),
    (b"qrec 2\nopen 1.000000 1a\n", 0, Some(7)),
    (b"qrec 2\nopen 1.000000 -a\n", 0, Some(7)),
    (b"qrec 2\nopen 1.000000 opS\n", 0, Some(7)),
    (b"qrec 2\nopen 1.000000 \n", 0, Some(7)),
    (
        b"qrec 2\nopen 1.000000 abcdefghijklmnopqrstuvwxyz012345\n",
        1,
        None,
    ),
    (
        b"qrec 2\nopen 1.000000 abcdefghijklmnopqrstuvwxyz0123456\n",
        0,
        Some(7),
    ),
    (b"qrec 1\nopen 1.000000 ops\n", 0, Some(7)),
];

#[test]
fn names_are_exact(rt: HostRuntime) -> Result<(), Fail> {
    stop_so(&rt, rt.alloc(), &NAMES)
}

/// Named sessions that open, send and shut in turn, and out of turn.
const NAMED: [Row; 6] = [
    (b"qrec 2\nopen 0.000000 a\nopen 0.000000 a\n", 1, Some(23)),
    (b"qrec 2\nopen 0.000000 a\nopen 0.000000 b\n", 2, None),
    (b"qrec 2\nshut 0.000000 a\n", 0, Some(7)),
    (
        b"qrec 2\nopen 0.000000 a\nbytes 0.000000 b 1\na\n",
        1,
        Some(23),
    ),
    (
        b"qrec 2\nopen 0.000000 a\nbytes 0.000000 a 1\na\nguest 0.000000 1\n\n\nstep 0.000000 1\n",
        4,
        None,
    ),
    (
        b"qrec 2\nopen 0.000000 a\nshut 0.000000 a\nopen 0.000000 a\nshut 0.000000 a\nbytes 0.000000 a 1\na\n",
        4,
        Some(71),
    ),
];

#[test]
fn named_sessions_open_and_shut_in_turn(rt: HostRuntime) -> Result<(), Fail> {
    stop_so(&rt, rt.alloc(), &NAMED)
}

/// Two sessions open, the first is shut, and a third takes its number.
const THREE: &[u8] =
    b"qrec 2\nopen 1.000000 a\nopen 1.000000 b\nshut 1.000000 a\nopen 1.000000 c\nbytes 1.000000 b 2\n{}\n";

#[test]
fn a_name_takes_the_least_free_number(rt: HostRuntime) -> Result<(), Fail> {
    let mut hub = hub(rt.alloc(), THREE)?;
    let texts = [
        "1.000000 open 0",
        "1.000000 open 1",
        "1.000000 shut 0",
        "1.000000 open 0",
        "1.000000 bytes 1 [123, 125]",
        "0.000000 end",
    ];
    gives(&rt, rt.alloc(), &mut hub, &texts)
}

#[test]
fn sixteen_names_and_no_more(rt: HostRuntime) -> Result<(), Fail> {
    let mut stream = b"qrec 2\n".to_vec(rt.alloc())?;
    for letter in b"hijklmnopqrstuvwx" {
        stream.extend_from_slice(b"open 1.000000 ")?;
        stream.push(*letter)?;
        stream.push(b'\n')?;
    }
    assert_eq!(rt; stop(rt.alloc(), &stream, 16)?, Some(263));
    Ok(())
}

/// Adds an entry of the guest with so many bytes, whose number is spelled so.
fn add_piece(bytes: &mut Vec<u8>, number: &[u8], len: usize) -> Result<(), Fail> {
    bytes.extend_from_slice(b"guest 0.000000 ")?;
    bytes.extend_from_slice(number)?;
    bytes.push(b'\n')?;
    for _ in 0..len {
        bytes.push(b'x')?;
    }
    bytes.push(b'\n')?;
    Ok(())
}

/// A stream with one piece of so many bytes, whose number is spelled so.
fn stream_of_piece(alloc: Global, number: &[u8], len: usize) -> Result<Vec<u8>, Fail> {
    let mut bytes = b"qrec 1\n".to_vec(alloc)?;
    add_piece(&mut bytes, number, len)?;
    Ok(bytes)
}

#[test]
fn pieces_have_at_most_65536_bytes(rt: HostRuntime) -> Result<(), Fail> {
    let most = stream_of_piece(rt.alloc(), b"65536", 65_536)?;
    assert_eq!(rt; stop(rt.alloc(), &most, 1)?, None);
    let mut whole = hub(rt.alloc(), &most)?;
    assert_eq!(rt; next_size(&mut whole)?, 65_536);
    let more = stream_of_piece(rt.alloc(), b"65537", 65_537)?;
    assert_eq!(rt; stop(rt.alloc(), &more, 0)?, Some(7));
    Ok(())
}

/// Messages to sessions and to the guest, of which the second is refused.
const MESSAGES: [Act; 4] = [
    Act::Sends(Lane::Session(15), "one\r\n"),
    Act::FailsToSend(Lane::Guest, "two\n"),
    Act::Sends(Lane::Session(0), "three\r\n"),
    Act::Sends(Lane::Guest, "four\n"),
];

#[test]
fn messages_go_into_the_sink_as_lines(rt: HostRuntime) -> Result<(), Fail> {
    let mut hub = hub(rt.alloc(), b"qrec 1\n")?;
    assert!(rt; does_all(rt.alloc(), &mut hub, &MESSAGES)?);
    assert_eq!(rt;
        hub.into_parts().1.held(),
        b"15 one\r\n0 three\r\ng four\n".as_slice()
    );
    Ok(())
}

/// Messages between inputs that open and shut named sessions.
const BETWEEN: [Act; 10] = [
    Act::Gives("1.000000 open 0"),
    Act::Sends(Lane::Session(0), "1\r\n"),
    Act::FailsToSend(Lane::Guest, "2\n"),
    Act::Gives("1.000000 open 1"),
    Act::Gives("1.000000 shut 0"),
    Act::Sends(Lane::Session(1), "3\r\n"),
    Act::Sends(Lane::Session(0), "4\r\n"),
    Act::Gives("1.000000 open 0"),
    Act::Sends(Lane::Session(0), "5\r\n"),
    Act::Sends(Lane::Guest, "6\n"),
];

#[test]
fn lines_have_the_names_of_their_time(rt: HostRuntime) -> Result<(), Fail> {
    let mut hub = hub(rt.alloc(), THREE)?;
    assert!(rt; does_all(rt.alloc(), &mut hub, &BETWEEN)?);
    assert_eq!(rt;
        hub.into_parts().1.held(),
        b"a 1\r\nb 3\r\n0 4\r\nc 5\r\ng 6\n".as_slice()
    );
    Ok(())
}

/// A source that gives one byte a take.
#[derive(Drop)]
struct Drip {
    inner: ByteSource,
}

impl Source for Drip {
    ghost left = { λ s. Some s.inner.bytes };

    ghost faults = { λ s. s.inner.faults };

    fn take(&mut self, buf: &mut [u8]) -> Result<usize, Failed> {
        let room = buf.len().min(1);
        self.inner.take(&mut buf[..room])
    }
}

/// Where a stream that comes byte by byte stops after so many inputs.
fn drip_stop(alloc: Global, bytes: &[u8], count: usize) -> Result<Option<u64>, Fail> {
    let inner = source_of(alloc, bytes, &[])?;
    stop_of(&mut hub_over(alloc, Drip { inner })?, count)
}

/// Streams that are whole, cut, and named.
const DRIPS: [Row; 3] = [
    (EACH_KIND, 5, None),
    (b"qrec 1\nopen 1.000000 0\nbytes 1.0", 1, Some(23)),
    (THREE, 5, None),
];

#[test]
fn entries_come_byte_by_byte(rt: HostRuntime) -> Result<(), Fail> {
    for (bytes, count, place) in &DRIPS {
        let stopped = drip_stop(rt.alloc(), bytes, *count)?;
        assert_eq!(rt; stopped, *place, "{bytes:?}");
    }
    Ok(())
}

#[test]
fn entries_of_the_largest_size_follow_each_other(rt: HostRuntime) -> Result<(), Fail> {
    let mut bytes = stream_of_piece(rt.alloc(), b"65536", 65_536)?;
    add_piece(&mut bytes, b"65536", 65_536)?;
    bytes.extend_from_slice(b"step 0.000000 1\nwrong")?;
    let mut hub = hub(rt.alloc(), &bytes)?;
    assert_eq!(rt; next_size(&mut hub)?, 65_536);
    assert_eq!(rt; next_size(&mut hub)?, 65_536);
    assert_eq!(rt; stop_of(&mut hub, 1)?, Some(131_139));
    Ok(())
}

/// A message between what a source gave, and what it fails to give.
const FAILED_TAKE: [Act; 5] = [
    Act::Gives("1.000000 open 0"),
    Act::Sends(Lane::Session(0), "one\r\n"),
    Act::Gives("1.000000 step 5"),
    Act::Gives("the hub failed"),
    Act::Gives("no input at byte 39"),
];

#[test]
fn whole_entries_are_given_before_a_take(rt: HostRuntime) -> Result<(), Fail> {
    let stream = b"qrec 1\nopen 1.000000 0\nstep 1.000000 5\nste";
    let mut hub = hub_over(rt.alloc(), source_of(rt.alloc(), stream, &[2])?)?;
    assert!(rt; does_all(rt.alloc(), &mut hub, &FAILED_TAKE)?);
    assert_eq!(rt; hub.into_parts().1.held(), b"0 one\r\n".as_slice());
    Ok(())
}

#[test]
fn a_failed_take_is_not_the_end(rt: HostRuntime) -> Result<(), Fail> {
    let mut broken = hub_over(rt.alloc(), source_of(rt.alloc(), b"qrec 1\n", &[1])?)?;
    gives(
        &rt,
        rt.alloc(),
        &mut broken,
        &["the hub failed", "0.000000 end"],
    )
}

/// What stands after the opening of session 0.
fn second<H: Hub>(hub: &mut H) -> Result<Option<NextError>, Fail> {
    if !matches!(hub.next()?.what, What::Open(0)) {
        return Err("the opening did not come".into());
    }
    Ok(hub.next().err())
}

/// What stands after the opening of session 0, where the source fails before it gives more than these bytes.
fn after_opening(alloc: Global, bytes: &[u8]) -> Result<Option<NextError>, Fail> {
    let mut stream = b"qrec 1\nopen 1.000000 0\n".to_vec(alloc)?;
    stream.extend_from_slice(bytes)?;
    second(&mut hub_over(alloc, source_of(alloc, &stream, &[2])?)?)
}

/// Bytes that no entry begins with, and that promise none that are still to come.
const WRONG: [&[u8]; 5] = [
    b"shut 0.000000 3\n",
    b"bytes 0.000000 1 5\n",
    b"guest 0.000000 0\n",
    b"guest 0.000000 2\nabc",
    b"                                                    ",
];

#[test]
fn wrong_entries_are_told_without_a_take(rt: HostRuntime) -> Result<(), Fail> {
    for bytes in WRONG {
        let stopped = after_opening(rt.alloc(), bytes)?;
        assert_eq!(rt; stopped, Some(NextError::Bad(23)), "{bytes:?}");
    }
    Ok(())
}

/// Bytes that an entry may begin with.
const BEGUN: [&[u8]; 4] = [
    b"",
    b"shut 0.000000 0",
    b"guest 0.000000 2\nab",
    b"bytes 0.000000 0 65536\n",
];

#[test]
fn begun_entries_wait_for_more(rt: HostRuntime) -> Result<(), Fail> {
    for bytes in BEGUN {
        let stopped = after_opening(rt.alloc(), bytes)?;
        assert_eq!(rt; stopped, Some(NextError::Failed), "{bytes:?}");
    }
    Ok(())
}

/// The demo record of the seed 0 with 17 steps, which do each thing that a step may do.
const DEMO: &[u8] = b"\
qrec 1\n\
open 0.000000 0\n\
bytes 0.000000 0 31\n\
{\"execute\":\"qmp_capabilities\"}\n\
\n\
bytes 1.000000 0 27\n\
{\"execute\":\"system_reset\"}\n\
\n\
bytes 2.000000 0 80\n\
{\"execute\":\"device_add\",\"arguments\":{\"driver\":\"slot-timer\",\"id\":\"d4\",\"slot\":4}}\n\
\n\
guest 3.000000 15\n\
write 3 1 0x10\n\
\n\
bytes 4.000000 0 79\n\
{\"execute\":\"device_add\",\"arguments\":{\"driver\":\"slot-uart\",\"id\":\"d7\",\"slot\":7}}\n\
\n\
bytes 5.000000 0 79\n\
{\"execute\":\"device_add\",\"arguments\":{\"driver\":\"slot-uart\",\"id\":\"d3\",\"slot\":3}}\n\
\n\
guest 6.000000 5\n\
poll\n\
\n\
step 7.000000 6000\n\
guest 8.000000 7\n\
nack 6\n\
\n\
bytes 9.000000 0 80\n\
{\"execute\":\"device_add\",\"arguments\":{\"driver\":\"slot-timer\",\"id\":\"d2\",\"slot\":2}}\n\
\n\
guest 10.000000 6\n\
ack 3\n\
\n\
step 11.000000 6000\n\
guest 12.000000 5\n\
poll\n\
\n\
guest 13.000000 15\n\
write 3 1 0x10\n\
\n\
bytes 14.000000 0 80\n\
{\"execute\":\"device_add\",\"arguments\":{\"driver\":\"slot-timer\",\"id\":\"d7\",\"slot\":7}}\n\
\n\
guest 15.000000 6\n\
ack 6\n\
\n\
bytes 16.000000 0 80\n\
{\"execute\":\"device_add\",\"arguments\":{\"driver\":\"slot-timer\",\"id\":\"d0\",\"slot\":0}}\n\
\n\
bytes 17.000000 0 49\n\
{\"execute\":\"device_del\",\"arguments\":{\"id\":\"d4\"}}\n\
\n\
";

/// That of the seed 1 with one step.
const SHORT_DEMO: &[u8] = b"\
qrec 1\n\
open 0.000000 0\n\
bytes 0.000000 0 31\n\
{\"execute\":\"qmp_capabilities\"}\n\
\n\
step 1.000000 2000\n\
";

#[test]
fn demo_records_are_made(rt: HostRuntime) -> Result<(), Fail> {
    let seventeen = demo_record(rt.alloc(), 0, 17)?;
    assert_eq!(rt; seventeen.as_slice(), DEMO);
    assert_eq!(rt; stop(rt.alloc(), &seventeen, 19)?, None);
    assert_eq!(rt; demo_record(rt.alloc(), 1, 1)?.as_slice(), SHORT_DEMO);
    Ok(())
}
