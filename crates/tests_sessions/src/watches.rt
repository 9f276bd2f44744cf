//! What `watch` puts of records, with a tape and a mirror. Expected texts are written out by hand.

use crate::objects::{add_command, opening};
use compose::{NoHub, Ran, Status, compose};
use qo_causes::{ByteSink, ByteSource};
use qo_listen::{Listener, Listeners, Mirror, Tape};
use std::alloc::Global;
use std::test::Fail;

/// What is noted where a timer is added.
const ADDED: &str =
    "init 9 device\ninit 9 slot-device\ninit 9 slot-timer\ninit 10 clock\nrealize 9\nenter 9\nhold 9\nexit 9\n";

/// And where it goes.
const GONE: &str =
    "unrealize 9\nfinal 10 clock\nfinal 9 slot-timer\nfinal 9 slot-device\nfinal 9 device\n";

/// A record that adds a timer and asks for its removal.
fn asked(alloc: Global) -> Result<Vec<u8>, Fail> {
    let mut record = opening(alloc)?;
    add_command(
        alloc,
        &mut record,
        "device_add {\"driver\":\"slot-timer\",\"id\":\"t\"}",
    )?;
    add_command(alloc, &mut record, "device_del {\"id\":\"t\"}")?;
    Ok(record)
}

/// Whether `watch` of a record ends well and puts these texts, one after another.
fn puts(alloc: Global, record: &[u8], texts: &[&str]) -> Result<bool, Fail> {
    let words = Vec::from_array(alloc, [String::from_str(alloc, "watch")?])?;
    let source = ByteSource::new(Vec::from_slice(alloc, record)?, Vec::new(alloc));
    let sink = ByteSink::new(alloc, 4_096, Vec::new(alloc))?;
    let mut complaints = ByteSink::new(alloc, 256, Vec::new(alloc))?;
    let tape: Box<dyn Listener> = Box::new(alloc, Tape::new(alloc))?;
    let mirror: Box<dyn Listener> = Box::new(alloc, Mirror::new(alloc))?;
    let mut listeners = Listeners::new(alloc);
    let _tape = listeners.add(tape);
    let _mirror = listeners.add(mirror);
    let Ran {
        status,
        code: _,
        source: _,
        sink,
    } = compose(
        alloc,
        words.as_slice(),
        source,
        sink,
        &mut complaints,
        &mut NoHub,
        listeners,
    );
    let mut want = Vec::new(alloc);
    for text in texts {
        want.extend_from_slice(text.as_bytes())?;
    }
    Ok(status == Status::Done && sink.held() == want.as_slice())
}

#[test]
fn a_timer_that_comes_and_goes_is_told(rt: HostRuntime) -> Result<(), Fail> {
    let mut record = asked(rt.alloc())?;
    record.extend_from_slice(b"guest 1.000000 6\nack 0\n\n")?;
    assert!(rt; puts(rt.alloc(), record.as_slice(), &[ADDED, GONE, "live\n"])?);
    Ok(())
}

#[test]
fn a_timer_that_stays_is_told(rt: HostRuntime) -> Result<(), Fail> {
    let record = asked(rt.alloc())?;
    assert!(rt; puts(rt.alloc(), record.as_slice(), &[ADDED, "live 9 10\n"])?);
    Ok(())
}

#[test]
fn of_a_record_without_entries_nothing_is_told(rt: HostRuntime) -> Result<(), Fail> {
    assert!(rt; puts(rt.alloc(), b"qrec 1\n", &["live\n"])?);
    Ok(())
}

#[test]
fn of_a_bad_record_nothing_is_put(rt: HostRuntime) -> Result<(), Fail> {
    let mut record = asked(rt.alloc())?;
    record.extend_from_slice(b"guest\n")?;
    assert!(rt; !puts(rt.alloc(), record.as_slice(), &[ADDED, "live 9 10\n"])?);
    Ok(())
}
