//! Calls of `compose` over a source, a sink and complaints in memory.

use compose::{NoHub, Ran, Status, compose};
use qo_causes::{ByteSink, ByteSource};
use qo_listen::Listeners;
use std::alloc::{AllocError, Global};

/// What a call left: its status, what its sink holds, and what was complained.
#[derive(Drop)]
pub(crate) struct Left {
    /// How it ended.
    pub(crate) status: Status,
    /// What the sink holds.
    pub(crate) held: Vec<u8>,
    /// What was complained.
    pub(crate) told: Vec<u8>,
}

/// Calls `compose` with these words over a record in memory; the takes and puts of these numbers fail.
pub(crate) fn call(
    alloc: Global,
    words: &[&str],
    record: &[u8],
    takes: &[u64],
    puts: &[u64],
) -> Result<Left, AllocError> {
    call_with_room(alloc, words, record, takes, puts, 65_536)
}

/// The same, with a sink that has room for so many bytes.
pub(crate) fn call_with_room(
    alloc: Global,
    words: &[&str],
    record: &[u8],
    takes: &[u64],
    puts: &[u64],
    room: usize,
) -> Result<Left, AllocError> {
    let mut texts: Vec<String> = Vec::new(alloc);
    for word in words {
        texts.push(String::from_str(alloc, word)?)?;
    }
    let source = ByteSource::new(
        Vec::from_slice(alloc, record)?,
        Vec::from_slice(alloc, takes)?,
    );
    let sink = ByteSink::new(alloc, room, Vec::from_slice(alloc, puts)?)?;
    let mut complaints = ByteSink::new(alloc, 4_096, Vec::new(alloc))?;
    let mut hub = NoHub;
    let Ran {
        status,
        code: _,
        source: _,
        sink,
    } = compose(
        alloc,
        texts.as_slice(),
        source,
        sink,
        &mut complaints,
        &mut hub,
        Listeners::new(alloc),
    );
    Ok(Left {
        status,
        held: Vec::from_slice(alloc, sink.held())?,
        told: Vec::from_slice(alloc, complaints.held())?,
    })
}

/// Replays a record.
pub(crate) fn replay(alloc: Global, record: &[u8]) -> Result<Left, AllocError> {
    call(alloc, &["replay"], record, &[], &[])
}

/// The texts, one after another.
pub(crate) fn joined(alloc: Global, parts: &[&str]) -> Result<String, AllocError> {
    let mut text = String::new(alloc);
    for part in parts {
        text.push_str(part)?;
    }
    Ok(text)
}
