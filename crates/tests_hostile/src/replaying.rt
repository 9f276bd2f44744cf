//! Replays of a record in memory.

use compose::{NoHub, Ran, Status, compose};
use qo_causes::{ByteSink, ByteSource, Sink};
use qo_listen::Listeners;
use std::alloc::{AllocError, Global};

/// What a replay left: its status, its transcript, and what was complained.
#[derive(Drop)]
pub(crate) struct Left {
    pub(crate) status: Status,
    pub(crate) held: Vec<u8>,
    pub(crate) told: Vec<u8>,
}

/// Which calls fail, by their numbers from 1 on: takes of the source, puts of the sink, and puts of the complaints.
#[derive(Clone, Copy, Drop)]
pub(crate) struct Faults<'x> {
    pub(crate) takes: &'x [u64],
    pub(crate) puts: &'x [u64],
    pub(crate) complaints: &'x [u64],
}

/// No call fails.
pub(crate) const NO_FAULTS: Faults<'static> = Faults {
    takes: &[],
    puts: &[],
    complaints: &[],
};

/// The status of a replay of a record into a sink, and the sink with what it holds then.
pub(crate) fn replay_into<K: Sink + Drop>(
    alloc: Global,
    record: &[u8],
    takes: &[u64],
    sink: K,
    complaints: &mut ByteSink,
) -> Result<(Status, K), AllocError> {
    let words = Vec::from_array(alloc, [String::from_str(alloc, "replay")?])?;
    let source = ByteSource::new(
        Vec::from_slice(alloc, record)?,
        Vec::from_slice(alloc, takes)?,
    );
    let Ran {
        status,
        code: _,
        source: _,
        sink,
    } = compose(
        alloc,
        words.as_slice(),
        source,
        sink,
        complaints,
        &mut NoHub,
        Listeners::new(alloc),
    );
    Ok((status, sink))
}

/// Replays a record, with a sink that has room for 65,536 bytes.
pub(crate) fn replay(alloc: Global, record: &[u8], faults: Faults) -> Result<Left, AllocError> {
    let sink = ByteSink::new(alloc, 65_536, Vec::from_slice(alloc, faults.puts)?)?;
    let mut complaints = ByteSink::new(alloc, 4_096, Vec::from_slice(alloc, faults.complaints)?)?;
    let (status, sink) = replay_into(alloc, record, faults.takes, sink, &mut complaints)?;
    Ok(Left {
        status,
        held: Vec::from_slice(alloc, sink.held())?,
        told: Vec::from_slice(alloc, complaints.held())?,
    })
}
