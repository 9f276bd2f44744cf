//! A sink that takes one byte at a time.

ghost use Rattle.std.specs.Prelude.{◌≤◌, length, IfOk, Some};
ghost use Rattle.qo_causes.specs.Bytes.{Puts};
ghost use Rattle.qo_causes.specs.Cause.{HasCause, PutQuiet, StuckRose};

use qo_causes::{ByteSink, Failed, Sink};
use std::alloc::{AllocError, Global};

/// Bytes in memory, of which each put takes the first of its piece alone.
#[derive(Drop)]
pub(crate) struct SlowSink {
    bytes: ByteSink,
}

impl SlowSink {
    /// A sink with room for so many bytes.
    pub(crate) fn new(alloc: Global, room: usize) -> Result<SlowSink, AllocError> {
        let bytes = ByteSink::new(alloc, room, Vec::new(alloc))?;
        Ok(SlowSink { bytes })
    }

    /// The bytes that it holds.
    pub(crate) fn held(&self) -> &[u8] {
        self.bytes.held()
    }
}

impl Sink for SlowSink {
    ghost held = { λ s. Some s.bytes.held };

    ghost faults = { λ s. s.bytes.faults };

    /// Takes the first byte, where there is room for it.
    fn put(&mut self, piece: &[u8]) -> Result<usize, Failed>
        ensures bound { IfOk result (λ n. n ≤ length piece.now) }
        ensures bytes { Puts (Some self.old.bytes.held) (Some self.new.bytes.held) result piece.now }
        ensures cause { HasCause self.old.bytes.faults self.new.bytes.faults result }
        ensures stuck { StuckRose self.old.bytes.faults self.new.bytes.faults piece.now result }
        ensures quiet { PutQuiet self.old.bytes.faults self.new.bytes.faults piece.now result }
    {
        match piece.first() {
            Some(byte) => self.bytes.put(&[*byte]),
            None => Ok(0),
        }
    }
}
