//! A sink that keeps nothing.

ghost use Rattle.std.specs.Prelude.{None};

use crate::faults::Failed;
use crate::sinks::Sink;

/// A sink that takes every piece whole, keeps nothing of it and tells nothing. It never fails.
#[derive(Drop)]
pub struct VoidSink;

impl VoidSink {
    /// A sink that keeps nothing. It takes no memory.
    pub fn new() -> VoidSink {
        VoidSink
    }
}

impl Sink for VoidSink {
    ghost held = { λ _. None };

    ghost faults = { λ _. 0 };

    /// Takes the whole piece. It takes no memory.
    fn put(&mut self, piece: &[u8]) -> Result<usize, Failed> {
        Ok(piece.len())
    }
}
