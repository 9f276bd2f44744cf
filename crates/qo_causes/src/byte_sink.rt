//! A sink in memory, with room for so many bytes, whose calls fail where they are told to.
ghost use Rattle.std.specs.Prelude.{◌≡◌, ◌≤◌, [], length, IfOk, Some};
ghost use Rattle.qo_causes.specs.Bytes.{Puts};
ghost use Rattle.qo_causes.specs.Cause.{HasCause, PutQuiet, StuckRose};
ghost use Rattle.qo_causes.specs.MemoryStreams.{after_put, put_answer};

use crate::faults::Failed;
use crate::sinks::Sink;
use std::alloc::{AllocError, Global};
use std::marker::Model;

/// Bytes in memory, with room for so many, and the numbers of the calls that fail.
///
/// Contracts see the bytes held, the room for all bytes, the number of calls so far, the listed numbers and
/// the number of faults.
#[derive(Debug, Drop)]
pub struct ByteSink {
    held: Vec<u8>,
    room: usize,
    calls: u64,
    fails: Vec<u64>,
    faults: u64,
}

impl Model for ByteSink {
    ghost use Rattle.std.specs.Prelude.{◌≤◌, length, vec_capacity};
    ghost use Rattle.qo_causes.specs.MemoryStreams.{SinkState};

    ghost Value = { SinkState };

    ghost view = { λ s. record {
      held = s.held.items;
      room = s.room;
      calls = s.calls;
      fails = s.fails.items;
      faults = s.faults;
    } };

    ghost invariant = { λ s. (length s.held.items ≤ s.room) × (s.room ≤ vec_capacity s.held) };
}

impl ByteSink {
    /// A sink with room for so many bytes, of whose calls those fail whose numbers are listed, counted from
    /// 1. The room is taken here: no later call takes memory.
    pub fn new(alloc: Global, room: usize, fails: Vec<u64>) -> Result<ByteSink, AllocError>
        ensures { IfOk result (λ sink. sink ≡
            record { held = []; room = room; calls = 0; fails = fails.items; faults = 0 }) }
    {
        let held = Vec::with_capacity(alloc, room)?;
        Ok(ByteSink {
            held,
            room,
            calls: 0,
            fails,
            faults: 0,
        })
    }

    /// The bytes that the sink holds. It takes no memory.
    pub fn held(&self) -> &[u8]
        ensures value { result.now ≡ self.now.held }
        ensures within { length self.now.held ≤ self.now.room }
    {
        self.held.as_slice()
    }
}

impl Sink for ByteSink {
    ghost held = { λ s. Some s.held };

    ghost faults = { λ s. s.faults };

    /// Takes as many bytes as the piece has and still fit. It fails exactly where its number is listed, and
    /// where nothing of a piece that is not empty fits. It takes no memory.
    fn put(&mut self, piece: &[u8]) -> Result<usize, Failed>
        ensures bound { IfOk result (λ n. n ≤ length piece.now) }
        ensures bytes { Puts (Some self.old.held) (Some self.new.held) result piece.now }
        ensures cause { HasCause self.old.faults self.new.faults result }
        ensures stuck { StuckRose self.old.faults self.new.faults piece.now result }
        ensures quiet { PutQuiet self.old.faults self.new.faults piece.now result }

        ensures answer { result ≡ put_answer self.old piece.now }
        ensures after { self.new ≡ after_put self.old piece.now }
    {
        self.calls = self.calls.saturating_add(1);
        let left = self.room - self.held.len();
        if self.fails.contains(&self.calls) || (left == 0 && !piece.is_empty()) {
            self.faults = self.faults.saturating_add(1);
            return Err(Failed);
        }
        let count = piece.len().min(left);
        self.held.extend_from_slice(&piece[..count]).unwrap();
        Ok(count)
    }
}
