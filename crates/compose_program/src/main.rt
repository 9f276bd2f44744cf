//! The program `compose`: the top call over standard input, output and error, and a Unix socket.
#![tactic(auto)]

ghost use Rattle.std.specs.Prelude.{◌≡◌, drop};
ghost use Rattle.qo_listen.specs.Ears.{AllOpen, ears};

use compose::{Ran, Status, compose, no_order, out_of_memory};
use qo_causes::{StdSink, StdSource};
use qo_listen::{Listener, Listeners, Mirror, Tape};
use qo_unix::UnixHub;
use std::process::ExitCode;
use std::{env, io};

/// How many listeners are handed in: a tape, and then a mirror.
const LISTENERS: usize = 2;

/// The words of the program, its name first. It fails where memory runs out, and where a word is no text in UTF-8.
fn all_words(rt: &HostRuntime) -> io::Result<Vec<String>> {
    let mut words = Vec::new(rt.alloc());
    for word in env::args(rt)? {
        words.push(word)?;
    }
    Ok(words)
}

/// The words after the program's name.
fn after_name(words: &[String]) -> &[String]
    ensures { result.now ≡ drop 1 words.now }
{
    match words {
        [_, rest @ ..] => rest,
        [] => words,
    }
}

/// The status where the words can't be read: they are no order where one is no text, and else memory ran out.
fn unread<W: io::Write>(error: &io::Error, complaints: &mut StdSink<W>) -> Status {
    match error.kind() {
        io::ErrorKind::InvalidData => no_order(complaints),
        _ => out_of_memory(complaints),
    }
}

/// Runs the top call over standard input and output, and gives its exit status.
fn called<W: io::Write>(
    rt: &HostRuntime,
    words: &[String],
    complaints: &mut StdSink<W>,
    hub: &mut UnixHub,
    listeners: Listeners,
) -> ExitCode
    requires listening { AllOpen (ears ⟦<Box<dyn Listener> as Listener>⟧ listeners.all.items) }
{
    let Ran {
        status: _,
        code,
        source: _,
        sink: _,
    } = compose(
        rt.alloc(),
        after_name(words),
        StdSource::new(rt.reader()),
        StdSink::new(io::writer(rt)),
        complaints,
        hub,
        listeners,
    );
    ExitCode::from(code)
}

fn main(rt: HostRuntime) -> io::Result<ExitCode> {
    let mut complaints = StdSink::new(rt.stderr());
    let words = match all_words(&rt) {
        Ok(words) => words,
        Err(error) => return Ok(ExitCode::from(unread(&error, &mut complaints).code())),
    };
    let Ok(mut hub) = UnixHub::new(rt.clone()?) else {
        return Ok(ExitCode::from(out_of_memory(&mut complaints).code()));
    };
    let mut listeners = Listeners::new(rt.alloc());
    if let Ok(tape) = Box::new(rt.alloc(), Tape::new(rt.alloc())) {
        let tape: Box<dyn Listener> = tape;
        let _added = listeners.add(tape);
    }
    if let Ok(mirror) = Box::new(rt.alloc(), Mirror::new(rt.alloc())) {
        let mirror: Box<dyn Listener> = mirror;
        let _added = listeners.add(mirror);
    }
    if listeners.all.len() < LISTENERS {
        listeners.end();
        return Ok(ExitCode::from(out_of_memory(&mut complaints).code()));
    }
    Ok(called(&rt, words.as_slice(), &mut complaints, &mut hub, listeners))
}
