//! What the lines of a transcript are, and how many are of a kind.

ghost use Rattle.std.specs.Prelude.{◌≡◌, ◌++◌, map, IfOk, OnOk};
ghost use Rattle.std.specs.Option.{option_copied};
ghost use Rattle.serde_json.specs.View.{view};
ghost use Rattle.qo_record.specs.Reading.{after_front};
ghost use Rattle.qo_requests.specs.Messages.{value_of};
ghost use Rattle.compose.specs.Demo.{count_line, count_of, has, is, kind_of, kind_of_message, kind_of_value, lines, summary, summary_of};

use itoa::Buffer;
use serde_json::Value;
use std::alloc::{AllocError, Global};

/// What a line of a transcript is.
#[derive(Clone, Copy)]
pub(crate) enum Kind {
    /// A message to a session with the member `return`.
    Reply,
    /// A message to a session with the member `error`.
    Error,
    /// A message to a session with the member `event`.
    Event,
    /// What the guest is answered.
    Answer,
    /// Anything else, as the greeting.
    Other,
}

impl Kind {
    /// Whether it is this one.
    fn is(self, kind: Kind) -> bool
        ensures { result ≡ is self kind }
    {
        matches!(
            (self, kind),
            (Kind::Reply, Kind::Reply)
                | (Kind::Error, Kind::Error)
                | (Kind::Event, Kind::Event)
                | (Kind::Answer, Kind::Answer)
                | (Kind::Other, Kind::Other)
        )
    }
}

/// Whether a message has a member of this name.
fn has(value: &Value, name: &str) -> bool
    ensures { result ≡ has name.now (view value.now) }
{
    value.get(name).is_some()
}

/// What a message to a session is.
fn kind_of_value(value: &Value) -> Kind
    ensures { result ≡ kind_of_value (view value.now) }
{
    if has(value, "return") {
        Kind::Reply
    } else if has(value, "error") {
        Kind::Error
    } else if has(value, "event") {
        Kind::Event
    } else {
        Kind::Other
    }
}

/// What a text to a session is.
fn kind_of_text(alloc: Global, text: &[u8]) -> Result<Kind, AllocError>
    ensures { IfOk result (λ kind. kind ≡ kind_of_message (value_of text.now)) }
{
    match Value::from_slice(alloc, text) {
        Ok(value) => Ok(kind_of_value(&value)),
        Err(error) => {
            if error.is_memory() {
                return Err(AllocError);
            }
            Ok(Kind::Other)
        }
    }
}

/// The bytes after a front.
fn after_front<'a>(front: &[u8], bytes: &'a [u8]) -> Option<&'a [u8]>
    ensures { option_copied result ≡ after_front front.now bytes.now }
{
    bytes.strip_prefix(front)
}

/// What a line of a transcript is.
fn kind_of(alloc: Global, line: &[u8]) -> Result<Kind, AllocError>
    ensures { IfOk result (λ kind. kind ≡ kind_of line.now) }
{
    if after_front(b"g ", line).is_some() {
        return Ok(Kind::Answer);
    }
    match after_front(b"0 ", line) {
        Some(text) => kind_of_text(alloc, text),
        None => Ok(Kind::Other),
    }
}

/// The lines of a transcript.
fn lines_of(alloc: Global, transcript: &[u8]) -> Result<Vec<&[u8]>, AllocError>
    ensures { IfOk result (λ found. map (λ line. line.now) found.items ≡ lines transcript.now) }
{
    transcript.split(|b| *b == b'\n').collect(alloc)
}

/// What some lines are.
fn kinds_of(alloc: Global, lines: &[&[u8]]) -> Result<Vec<Kind>, AllocError>
    ensures { IfOk result (λ kinds. kinds.items ≡ map kind_of (map (λ line. line.now) lines.now)) }
{
    let mut kinds = Vec::new(alloc);
    for line in lines {
        kinds.push(kind_of(alloc, line)?)?;
    }
    Ok(kinds)
}

/// How many are of a kind.
fn count_of(kinds: &[Kind], kind: Kind) -> usize
    ensures { result ≡ count_of kind kinds.now }
{
    kinds.iter().filter(|k| k.is(kind)).count()
}

/// Adds a line of the summary.
fn add_count(summary: &mut Vec<u8>, name: &[u8], count: usize) -> Result<(), AllocError>
    ensures { OnOk result (summary.new.items ≡ summary.old.items ++ count_line name.now count) }
{
    let mut digits = Buffer::new();
    summary.extend_from_slice(name)?;
    summary.push(b' ')?;
    summary.extend_from_slice(digits.format(count).as_bytes())?;
    summary.push(b'\n')?;
    Ok(())
}

/// The summary of lines of these kinds, which have so many bytes.
fn summary_of(alloc: Global, kinds: &[Kind], size: usize) -> Result<Vec<u8>, AllocError>
    ensures { IfOk result (λ summary. summary.items ≡ summary_of kinds.now size) }
{
    let mut summary = Vec::new(alloc);
    add_count(&mut summary, b"replies", count_of(kinds, Kind::Reply))?;
    add_count(&mut summary, b"errors", count_of(kinds, Kind::Error))?;
    add_count(&mut summary, b"events", count_of(kinds, Kind::Event))?;
    add_count(&mut summary, b"answers", count_of(kinds, Kind::Answer))?;
    add_count(&mut summary, b"bytes", size)?;
    Ok(summary)
}

/// The summary of a transcript: how many of its lines are replies, errors, events and answers of the guest, and how many
/// bytes it has.
pub(crate) fn summary(alloc: Global, transcript: &[u8]) -> Result<Vec<u8>, AllocError>
    ensures { IfOk result (λ lines. lines.items ≡ summary transcript.now) }
{
    let lines = lines_of(alloc, transcript)?;
    let kinds = kinds_of(alloc, &lines)?;
    summary_of(alloc, &kinds, transcript.len())
}
