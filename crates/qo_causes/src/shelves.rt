//! Bytes in memory, with room for so many.
ghost use Rattle.std.specs.Prelude.{◌≡◌, if◌then◌else◌, IfOk};
ghost use Rattle.qo_causes.specs.Script.{added, empty_shelf, has_room};

use std::alloc::{AllocError, Global};
use std::marker::Model;

/// What a lane got, and the bytes that it has room for. The room is taken when it is made.
#[derive(Debug, Drop)]
pub(crate) struct Shelf {
    held: Vec<u8>,
    room: usize,
}

impl Model for Shelf {
    ghost use Rattle.std.specs.Prelude.{◌≤◌, length, vec_capacity};
    ghost use Rattle.qo_causes.specs.Script.{ShelfState};

    ghost Value = { ShelfState };

    ghost view = { λ s. record { held = s.held.items; room = s.room } };

    ghost invariant = { λ s. (length s.held.items ≤ s.room) × (s.room ≤ vec_capacity s.held) };
}

impl Shelf {
    /// An empty one with room for so many bytes.
    pub(crate) fn new(alloc: Global, room: usize) -> Result<Shelf, AllocError>
        ensures { IfOk result (λ shelf. shelf ≡ empty_shelf room) }
    {
        let held = Vec::with_capacity(alloc, room)?;
        Ok(Shelf { held, room })
    }

    /// The bytes held. It takes no memory.
    pub(crate) fn as_slice(&self) -> &[u8]
        ensures { result.now ≡ self.now.held }
    {
        self.held.as_slice()
    }

    /// Adds the bytes where all of them fit, and answers whether they do. It takes no memory.
    pub(crate) fn add(&mut self, bytes: &[u8]) -> bool
        ensures answer { result ≡ has_room self.old bytes.now }
        ensures after { self.new ≡ (if has_room self.old bytes.now then added self.old bytes.now else self.old) }
    {
        if bytes.len() > self.room - self.held.len() {
            return false;
        }
        self.held.extend_from_slice(bytes).unwrap();
        true
    }
}
