//! Runs the demo record in memory, and counts what is sent.

ghost use Rattle.std.specs.Prelude.{◌≡◌, ◌≢◌, ◌≤◌, ℕ, false, true, IfOk};
ghost use Rattle.memchr.specs.Find.{OccursAt};
ghost use Rattle.qo_causes.specs.Cause.{Rose};
ghost use Rattle.compose.specs.Demo.{Lacks, ToldDemo, demo_transcript, summary};

use crate::counts::summary;
use crate::memory_sink::MemorySink;
use crate::replays::replay;
use crate::statuses::{Ran, Status};
use memchr::memmem;
use qo_causes::{ByteSource, Failed, Sink, put_all};
use qo_record::demo_record;
use std::alloc::{AllocError, Global};

/// What a reply has that is refused for want of memory: no other text of a demo has these words.
const REFUSED_REPLY: &[u8] = b"\"desc\":\"E99 ";

/// The line of an answer to the guest that is refused for want of memory.
const REFUSED_LINE: &[u8] = b"g no memory";

/// Whether a text stands in another.
fn has(transcript: &[u8], text: &[u8]) -> bool
    ensures lacks { result ≡ false → Lacks text.now transcript.now }
    ensures has { result ≡ true → (at : ℕ) × OccursAt transcript.now text.now at }
{
    memmem::find(transcript, text).is_some()
}

/// The transcript of the run over the demo record. Whatever else ends the run than its end is want of memory: the record
/// is whole, it is in memory, and so is its transcript.
fn transcript_of(alloc: Global, seed: u64, steps: u32) -> Result<Vec<u8>, AllocError>
    ensures { IfOk result (λ bytes. bytes.items ≡ demo_transcript seed steps) }
{
    let stream = demo_record(alloc, seed, steps)?;
    let source = ByteSource::new(stream, Vec::new(alloc));
    let (ran, _) = replay(alloc, source, MemorySink::new(alloc));
    let Ran {
        status,
        code: _,
        source: _,
        sink,
    } = ran;
    let Status::Done = status else {
        return Err(AllocError);
    };
    let transcript = sink.bytes;
    if has(&transcript, REFUSED_REPLY) {
        return Err(AllocError);
    }
    if has(&transcript, REFUSED_LINE) {
        return Err(AllocError);
    }
    Ok(transcript)
}

/// The lines that tell of a demo.
fn lines_of(alloc: Global, seed: u64, steps: u32) -> Result<Vec<u8>, AllocError>
    ensures { IfOk result (λ lines. lines.items ≡ summary (demo_transcript seed steps)) }
{
    let transcript = transcript_of(alloc, seed, steps)?;
    summary(alloc, &transcript)
}

/// Runs the demo of a seed with so many steps, and puts the lines that count what it sends. For want of memory nothing is
/// put.
pub(crate) fn tell_demo<K: Sink>(alloc: Global, seed: u64, steps: u32, sink: &mut K) -> Status
    ensures told { ToldDemo result seed steps (K.held sink.old) (K.held sink.new) }
    ensures count { K.faults sink.old ≤ K.faults sink.new }
    ensures cause { result ≡ Status.WriteFault → Rose (K.faults sink.old) (K.faults sink.new) }
    ensures quiet { result ≢ Status.WriteFault → K.faults sink.new ≡ K.faults sink.old }
{
    let Ok(lines) = lines_of(alloc, seed, steps) else {
        return Status::Memory;
    };
    match put_all(sink, lines.as_slice()) {
        Ok(()) => Status::Done,
        Err(Failed) => Status::WriteFault,
    }
}
