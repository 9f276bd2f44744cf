//! A recorded stream that is read from a source as a hub, whose transcript goes into a sink.

ghost use Rattle.std.specs.Prelude.{◌≡◌, ◌<◌, None, length, IfErr, IfOk};
ghost use Rattle.qo_record.specs.Replays.{IsStarved, Went, bad_ahead, inputs_ahead, unread, went_nowhere, went_then};
ghost use Rattle.qo_record.specs.declared.windows.TheConstants.{AHEAD_BYTES};

use crate::lines::put_message;
use crate::readers::Reader;
use qo_causes::{Failed, Hub, Input, Lane, NextError, SendError, Sink, Source};
use std::alloc::{AllocError, Global};
use std::marker::Model;

/// The source and the sink of a hub for which there was not enough memory, as they were given.
pub struct Unmade<S, K> {
    /// The source that was given.
    pub source: S,
    /// The sink that was given.
    pub sink: K,
}

/// A recorded stream that is read from a source, entry by entry, as a hub.
///
/// It gives the entries of the stream as inputs, in order, and then their end, or the bad place where bytes
/// are left that are no entry. It takes bytes from the source only where it holds no whole entry, and holds fewer
/// than `AHEAD_BYTES` of them. Each message goes into the sink at once, as a line: its lane, a space, and its bytes. The
/// lane of a session is the name that it has by the entries that were given, or its number where it is not open; in a
/// stream of the first version a session's name is its number. No session is lost.
///
/// Contracts see the source, the sink, and how far the stream was read.
#[derive(Drop)]
pub struct ReplayHub<S, K> {
    source: S,
    sink: K,
    reader: Reader,
    // Where the line of a message is made.
    line: Vec<u8>,
}

impl<S, K> Model for ReplayHub<S, K> {
    ghost use Rattle.qo_record.specs.Replays.{Replaying};

    ghost Value = { Replaying S K };

    ghost view = { λ h. record { source = h.source; sink = h.sink; read = h.reader } };
}

impl<S: Source, K: Sink> ReplayHub<S, K> {
    /// A hub over a source, with a sink for the transcript. It takes the memory of its buffer, which has a fixed length,
    /// and gives source and sink back where there is none. Nothing is taken from the source.
    pub fn new(alloc: Global, source: S, sink: K) -> Result<ReplayHub<S, K>, Unmade<S, K>>
        ensures made { IfOk result (λ hub. hub ≡ record { source = source; sink = sink; read = unread }) }
        ensures unmade { IfErr result (λ parts. (parts.source ≡ source) × (parts.sink ≡ sink)) }
    {
        match Reader::new(alloc) {
            Ok(reader) => Ok(ReplayHub {
                source,
                sink,
                reader,
                line: Vec::new(alloc),
            }),
            Err(AllocError) => Err(Unmade { source, sink }),
        }
    }

    /// The source and the sink, with the transcript. What was taken and not read is lost. It takes no memory.
    pub fn into_parts(self) -> (S, K)
        ensures source { result.0 ≡ self.source }
        ensures sink { result.1 ≡ self.sink }
        ensures few { length self.read.buffered < AHEAD_BYTES }
    {
        let _held = self.reader.buffered_count();
        let ReplayHub {
            source,
            sink,
            reader: _,
            line: _,
        } = self;
        (source, sink)
    }
}

impl<S: Source, K: Sink> Hub for ReplayHub<S, K> {
    ghost inputs = { λ h. inputs_ahead h.read (S.left h.source) };

    ghost names = { λ h. h.read.names };

    ghost bad = { λ h. bad_ahead h.read (S.left h.source) };

    ghost got = { λ _ _. None };

    ghost sent = { λ h. K.held h.sink };

    ghost asked = { λ _. None };

    ghost next_faults = { λ h. S.faults h.source };

    ghost send_faults = { λ h. K.faults h.sink };

    ghost losses = { λ _ _. 0 };

    // Nothing that was held could be given: no entry, and no wrong one.
    ghost starved = { λ h. IsStarved h.read };

    // Whole entries were given, and nothing else became of what was ahead.
    ghost later = { λ a b. Went a.read b.read (S.left a.source) (S.left b.source) };

    /// Begins nothing: the stream is there. It changes nothing and takes no memory.
    fn begin(&mut self, _path: &str, _connections: u32) -> Result<(), Failed> {
        Ok(())
    }

    /// The next entry, or the end of the inputs, with the moment 0.000000. A whole entry that is held is given without a
    /// take. Its memory is that of the entry's bytes.
    fn next(&mut self) -> Result<Input, NextError> {
        self.reader.next(&mut self.source)
    }

    /// Puts the transcript's line of the message into the sink, in one piece where there is memory for it.
    fn send(&mut self, lane: Lane, bytes: &[u8]) -> Result<(), SendError> {
        let names = self.reader.names();
        match put_message(&mut self.sink, &mut self.line, names, lane, bytes) {
            Ok(()) => Ok(()),
            Err(Failed) => Err(SendError::Failed),
        }
    }

    ghost now = { λ a. went_nowhere a.read (S.left a.source) };

    ghost after = { λ a b c p q. went_then a.read b.read c.read (S.left a.source) (S.left b.source) (S.left c.source) p q };
}
