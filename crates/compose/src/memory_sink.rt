//! Bytes that are kept in memory.

ghost use Rattle.std.specs.Prelude.{◌≡◌, [], Some};

use qo_causes::{Failed, Sink};
use std::alloc::{AllocError, Global};

/// A sink that keeps all that it is given, as long as there is memory for it: its only fault is a growth that is refused.
#[derive(Drop)]
pub(crate) struct MemorySink {
    pub(crate) bytes: Vec<u8>,
    faults: u64,
}

impl MemorySink {
    /// A sink that keeps nothing yet. It takes no memory.
    pub(crate) fn new(alloc: Global) -> MemorySink
        ensures { result.bytes.items ≡ [] }
    {
        MemorySink {
            bytes: Vec::new(alloc),
            faults: 0,
        }
    }
}

impl Sink for MemorySink {
    ghost held = { λ s. Some s.bytes.items };

    ghost faults = { λ s. s.faults };

    fn put(&mut self, piece: &[u8]) -> Result<usize, Failed> {
        match self.bytes.extend_from_slice(piece) {
            Ok(()) => Ok(piece.len()),
            Err(AllocError) => {
                self.faults = self.faults.saturating_add(1);
                Err(Failed)
            }
        }
    }
}
