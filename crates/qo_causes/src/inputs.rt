//! What a hub gives: one input at a time, each with its moment.
ghost use Rattle.std.specs.Prelude.{◌≡◌, ◌≤◌, length};

use std::marker::Model;

/// A moment, as the outside tells it.
///
/// `micros` is 0 to 999,999 by convention. Nothing rests on it.
#[derive(Clone, Copy, Debug, PartialEq, Eq)]
pub struct Moment {
    pub seconds: u64,
    pub micros: u32,
}

/// Bytes that came in one piece: at least one and at most `Chunk::MAX`. Contracts see the list of the bytes.
#[derive(Debug, Drop)]
pub struct Chunk {
    bytes: Vec<u8>,
}

impl Model for Chunk {
    ghost use Rattle.std.specs.Prelude.{ℕ, List, ◌≤◌, length};

    ghost Value = { List ℕ };

    ghost view = { λ c. c.bytes.items };

    ghost invariant = { λ c. (1 ≤ length c.bytes.items) × (length c.bytes.items ≤ 65536) };
}

impl Chunk {
    /// The greatest number of bytes in a chunk.
    pub const MAX: usize = 65_536;

    /// The chunk of these bytes. It takes no memory.
    pub fn from_vec(bytes: Vec<u8>) -> Chunk
        requires some { 1 ≤ length bytes.items }
        requires most { length bytes.items ≤ Chunk.MAX }
        ensures { result ≡ bytes.items }
    {
        Chunk { bytes }
    }

    /// The bytes. It takes no memory.
    pub fn as_slice(&self) -> &[u8]
        ensures value { result.now ≡ self.now }
        ensures some { 1 ≤ length self.now }
        ensures most { length self.now ≤ Chunk.MAX }
    {
        self.bytes.as_slice()
    }
}

/// One event of the outside, and when it came.
#[derive(Debug, Drop)]
pub struct Input {
    pub at: Moment,
    pub what: What,
}

impl Input {
    /// The end of the inputs, at the moment 0.000000.
    pub fn the_end() -> Input
        ensures { result ≡ record { at = record { seconds = 0; micros = 0 }; what = What.End } }
    {
        Input {
            at: Moment {
                seconds: 0,
                micros: 0,
            },
            what: What::End,
        }
    }
}

/// What came. A session is named by its number, 0 to 15; one with a higher number changes nothing.
#[derive(Debug, Drop)]
pub enum What {
    /// A session opens.
    Open(u8),
    /// Bytes of a session come.
    Bytes(u8, Chunk),
    /// A session is shut by its peer.
    Shut(u8),
    /// What the guest wrote comes: one guest line.
    Guest(Chunk),
    /// Virtual time goes on by so many nanoseconds.
    Step(u64),
    /// There are no more inputs.
    End,
}
