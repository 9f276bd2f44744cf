//! A source in memory, whose calls fail where they are told to.
ghost use Rattle.std.specs.Prelude.{◌≡◌, ◌≤◌, ◌++◌, length, take, drop, IfOk, OnErr, OnOk, Some};
ghost use Rattle.qo_causes.specs.Bytes.{Takes};
ghost use Rattle.qo_causes.specs.Cause.{HasCause};
ghost use Rattle.qo_causes.specs.MemoryStreams.{after_take, take_answer};

use crate::faults::Failed;
use crate::sources::Source;
use std::io::Read;
use std::marker::Model;

/// Bytes in memory, given from the front, and the numbers of the calls that fail.
///
/// Contracts see the bytes left, the number of calls so far, the listed numbers and the number of faults.
#[derive(Debug, Drop)]
pub struct ByteSource {
    bytes: Vec<u8>,
    // How many of the bytes were given.
    at: usize,
    calls: u64,
    fails: Vec<u64>,
    faults: u64,
}

impl Model for ByteSource {
    ghost use Rattle.std.specs.Prelude.{◌≤◌, length, drop};
    ghost use Rattle.qo_causes.specs.MemoryStreams.{SourceState};

    ghost Value = { SourceState };

    ghost view = { λ s. record {
      bytes = drop s.at s.bytes.items;
      calls = s.calls;
      fails = s.fails.items;
      faults = s.faults;
    } };

    ghost invariant = { λ s. s.at ≤ length s.bytes.items };
}

impl ByteSource {
    /// A source of these bytes, of whose calls those fail whose numbers are listed, counted from 1. It takes
    /// no memory.
    pub fn new(bytes: Vec<u8>, fails: Vec<u64>) -> ByteSource
        ensures { result ≡ record { bytes = bytes.items; calls = 0; fails = fails.items; faults = 0 } }
    {
        ByteSource {
            bytes,
            at: 0,
            calls: 0,
            fails,
            faults: 0,
        }
    }
}

impl Source for ByteSource {
    ghost left = { λ s. Some s.bytes };

    ghost faults = { λ s. s.faults };

    /// Gives as many bytes as the buffer has room for and are left. It fails exactly where its number is
    /// listed, and then changes no byte of the buffer. It takes no memory.
    fn take(&mut self, buf: &mut [u8]) -> Result<usize, Failed>
        ensures bound { IfOk result (λ n. n ≤ length buf.new) }
        ensures bytes { Takes (Some self.old.bytes) (Some self.new.bytes) result buf.new }
        ensures cause { HasCause self.old.faults self.new.faults result }
        ensures quiet { OnOk result (self.new.faults ≡ self.old.faults) }

        ensures answer { result ≡ take_answer self.old (length buf.old) }
        ensures after { self.new ≡ after_take self.old (length buf.old) }
        ensures given { IfOk result (λ n. buf.new ≡ take n self.old.bytes ++ drop n buf.old) }
        ensures untouched { OnErr result (buf.new ≡ buf.old) }
    {
        self.calls = self.calls.saturating_add(1);
        if self.fails.contains(&self.calls) {
            self.faults = self.faults.saturating_add(1);
            return Err(Failed);
        }
        let mut rest = &self.bytes[self.at..];
        match rest.read(buf) {
            Ok(count) => {
                self.at += count;
                Ok(count)
            }
            Err(_) => Ok(0),
        }
    }
}
