//! Replays of a record in memory.

use compose::{NoHub, Ran, Status, compose};
use qo_causes::{ByteSink, ByteSource};
use qo_listen::Listeners;
use std::alloc::{AllocError, Global};

/// What a replay left: its status, its transcript, and what was complained.
#[derive(Drop)]
pub(crate) struct Left {
    pub(crate) status: Status,
    pub(crate) held: Vec<u8>,
    pub(crate) told: Vec<u8>,
}

/// Replays a record, with a sink that has room for 2,097,152 bytes.
pub(crate) fn replay(alloc: Global, record: &[u8]) -> Result<Left, AllocError> {
    let words = Vec::from_array(alloc, [String::from_str(alloc, "replay")?])?;
    let source = ByteSource::new(Vec::from_slice(alloc, record)?, Vec::new(alloc));
    let sink = ByteSink::new(alloc, 2_097_152, Vec::new(alloc))?;
    let mut complaints = ByteSink::new(alloc, 4_096, Vec::new(alloc))?;
    let Ran {
        status,
        code: _,
        source: _,
        sink,
    } = compose(
        alloc,
        words.as_slice(),
        source,
        sink,
        &mut complaints,
        &mut NoHub,
        Listeners::new(alloc),
    );
    Ok(Left {
        status,
        held: Vec::from_slice(alloc, sink.held())?,
        told: Vec::from_slice(alloc, complaints.held())?,
    })
}

/// The texts, one after another.
pub(crate) fn joined(alloc: Global, parts: &[&str]) -> Result<String, AllocError> {
    let mut text = String::new(alloc);
    for part in parts {
        text.push_str(part)?;
    }
    Ok(text)
}
