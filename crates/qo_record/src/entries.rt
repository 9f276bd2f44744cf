//! Entries of a recorded stream, each read from the front of bytes.

ghost use Rattle.std.specs.Prelude.{◌≡◌, ◌≤◌, codes, length, option_map, IfOk, IfSome};
ghost use Rattle.qo_record.specs.Record.{bytes_at, entry_at, entry_of, guest_at, moment_after, open_at, shut_at, step_at};
ghost use Rattle.qo_record.specs.Spelling.{FitsPiece};
ghost use Rattle.qo_record.specs.Windows.{first_entry};
ghost use Rattle.qo_record.specs.Streams.{FitsSaid, IsOfSixteen, entry_said, said_by, saying, session_of};

use crate::names::{Session, SessionName, SessionNames, opening_at, session_at};
use crate::reading::{after_front, moment_at, number_until, piece_at};
use crate::versions::Version;
use qo_causes::{Chunk, Input, Moment, What};
use std::alloc::{AllocError, Global};

/// The most nanoseconds of a step: 2^63 - 1.
const STEP_MAX: u64 = 9_223_372_036_854_775_807;

/// What an entry says. Its bytes are those of the stream.
#[derive(Clone, Copy)]
enum Said<'a> {
    /// A session opens.
    Opens(Session<'a>),
    /// Bytes of a session come.
    Sends(Session<'a>, &'a [u8]),
    /// A session is shut.
    Shuts(Session<'a>),
    /// The guest writes.
    Writes(&'a [u8]),
    /// Time goes on.
    Steps(u64),
}

/// An entry, and the bytes after it.
#[derive(Clone, Copy)]
struct Entry<'a> {
    at: Moment,
    said: Said<'a>,
    rest: &'a [u8],
}

/// The first entry of some bytes as an input, with its session as it is spelled, and how many bytes it has.
#[derive(Drop)]
pub(crate) struct First {
    pub(crate) input: Input,
    pub(crate) session: SessionName,
    pub(crate) size: usize,
}

/// A session that opens.
fn open_at<'a>(
    version: Version,
    names: &SessionNames,
    bytes: &'a [u8],
) -> Option<(Said<'a>, &'a [u8])>
    ensures said { option_map saying result ≡ open_at version names.now bytes.now }
    ensures fits { IfSome result (λ x. FitsSaid x.0) }
{
    let (session, rest) = opening_at(version, names, bytes)?;
    Some((Said::Opens(session), rest))
}

/// Bytes of a session, which is open.
fn bytes_at<'a>(
    version: Version,
    names: &SessionNames,
    bytes: &'a [u8],
) -> Option<(Said<'a>, &'a [u8])>
    ensures said { option_map saying result ≡ bytes_at version names.now bytes.now }
    ensures fits { IfSome result (λ x. FitsSaid x.0) }
{
    let (session, rest) = session_at(version, names, b' ', bytes)?;
    let (piece, rest) = piece_at(rest)?;
    Some((Said::Sends(session, piece), rest))
}

/// A session that is shut, and was open.
fn shut_at<'a>(
    version: Version,
    names: &SessionNames,
    bytes: &'a [u8],
) -> Option<(Said<'a>, &'a [u8])>
    ensures said { option_map saying result ≡ shut_at version names.now bytes.now }
    ensures fits { IfSome result (λ x. FitsSaid x.0) }
{
    let (session, rest) = session_at(version, names, b'\n', bytes)?;
    Some((Said::Shuts(session), rest))
}

/// What the guest writes.
fn guest_at(bytes: &[u8]) -> Option<(Said<'_>, &[u8])>
    ensures said { option_map saying result ≡ guest_at bytes.now }
    ensures fits { IfSome result (λ x. FitsSaid x.0) }
{
    let (piece, rest) = piece_at(bytes)?;
    Some((Said::Writes(piece), rest))
}

/// How far time goes on.
fn step_at(bytes: &[u8]) -> Option<(Said<'_>, &[u8])>
    ensures said { option_map saying result ≡ step_at bytes.now }
    ensures fits { IfSome result (λ x. FitsSaid x.0) }
{
    let (nanos, rest) = number_until(b'\n', STEP_MAX, bytes)?;
    if nanos == 0 {
        return None;
    }
    Some((Said::Steps(nanos), rest))
}

/// The moment after a word.
#[inline(always)]
pub(crate) fn moment_after<'a>(word: &[u8], bytes: &'a [u8]) -> Option<(Moment, &'a [u8])>
    ensures { option_map (λ x. (x.0, x.1.now)) result ≡ moment_after word.now bytes.now }
{
    moment_at(after_front(word, bytes)?)
}

/// An entry with the word `open`.
fn open_entry<'a>(version: Version, names: &SessionNames, bytes: &'a [u8]) -> Option<Entry<'a>>
    ensures entry { option_map entry_said result ≡ entry_of (codes "open ") (open_at version names.now) bytes.now }
    ensures fits { IfSome result (λ e. FitsSaid e.said) }
{
    let (at, rest) = moment_after(b"open ", bytes)?;
    let (said, rest) = open_at(version, names, rest)?;
    Some(Entry { at, said, rest })
}

/// An entry with the word `bytes`.
fn bytes_entry<'a>(version: Version, names: &SessionNames, bytes: &'a [u8]) -> Option<Entry<'a>>
    ensures entry { option_map entry_said result ≡ entry_of (codes "bytes ") (bytes_at version names.now) bytes.now }
    ensures fits { IfSome result (λ e. FitsSaid e.said) }
{
    let (at, rest) = moment_after(b"bytes ", bytes)?;
    let (said, rest) = bytes_at(version, names, rest)?;
    Some(Entry { at, said, rest })
}

/// An entry with the word `shut`.
fn shut_entry<'a>(version: Version, names: &SessionNames, bytes: &'a [u8]) -> Option<Entry<'a>>
    ensures entry { option_map entry_said result ≡ entry_of (codes "shut ") (shut_at version names.now) bytes.now }
    ensures fits { IfSome result (λ e. FitsSaid e.said) }
{
    let (at, rest) = moment_after(b"shut ", bytes)?;
    let (said, rest) = shut_at(version, names, rest)?;
    Some(Entry { at, said, rest })
}

/// An entry with the word `guest`.
fn guest_entry(bytes: &[u8]) -> Option<Entry<'_>>
    ensures entry { option_map entry_said result ≡ entry_of (codes "guest ") guest_at bytes.now }
    ensures fits { IfSome result (λ e. FitsSaid e.said) }
{
    let (at, rest) = moment_after(b"guest ", bytes)?;
    let (said, rest) = guest_at(rest)?;
    Some(Entry { at, said, rest })
}

/// An entry with the word `step`.
fn step_entry(bytes: &[u8]) -> Option<Entry<'_>>
    ensures entry { option_map entry_said result ≡ entry_of (codes "step ") step_at bytes.now }
    ensures fits { IfSome result (λ e. FitsSaid e.said) }
{
    let (at, rest) = moment_after(b"step ", bytes)?;
    let (said, rest) = step_at(rest)?;
    Some(Entry { at, said, rest })
}

/// The entry at the front of the bytes.
#[tactic(auto, unfolding(crate::specs::Record::entry_at))]
fn entry_at<'a>(version: Version, names: &SessionNames, bytes: &'a [u8]) -> Option<Entry<'a>>
    ensures entry { option_map entry_said result ≡ entry_at version names.now bytes.now }
    ensures fits { IfSome result (λ e. FitsSaid e.said) }
{
    if let Some(entry) = open_entry(version, names, bytes) {
        return Some(entry);
    }
    if let Some(entry) = bytes_entry(version, names, bytes) {
        return Some(entry);
    }
    if let Some(entry) = shut_entry(version, names, bytes) {
        return Some(entry);
    }
    match guest_entry(bytes) {
        Some(entry) => Some(entry),
        None => step_entry(bytes),
    }
}

/// The session of an entry as it is spelled; no bytes where it has none.
fn session_of(said: Said) -> SessionName
    requires { FitsSaid said }
    ensures { result ≡ session_of said.entry }
{
    match said {
        Said::Opens(session) | Said::Sends(session, _) | Said::Shuts(session) => {
            SessionName::from_slice(session.name)
        }
        Said::Writes(_) | Said::Steps(_) => SessionName::empty(),
    }
}

/// A piece of the stream as a chunk of its own.
fn chunk_of(alloc: Global, piece: &[u8]) -> Result<Chunk, AllocError>
    requires { FitsPiece piece.now }
    ensures { IfOk result (λ chunk. chunk ≡ piece.now) }
{
    Ok(Chunk::from_vec(Vec::from_slice(alloc, piece)?))
}

/// What an entry says, as an input. Its memory is that of the bytes.
fn what_of(alloc: Global, said: Said) -> Result<What, AllocError>
    requires { FitsSaid said }
    ensures { IfOk result (λ what. what ≡ said_by said.entry) }
{
    match said {
        Said::Opens(session) => Ok(What::Open(session.number)),
        Said::Sends(session, piece) => Ok(What::Bytes(session.number, chunk_of(alloc, piece)?)),
        Said::Shuts(session) => Ok(What::Shut(session.number)),
        Said::Writes(piece) => Ok(What::Guest(chunk_of(alloc, piece)?)),
        Said::Steps(nanos) => Ok(What::Step(nanos)),
    }
}

/// The entry at the front of the bytes, as an input.
#[inline(always)]
pub(crate) fn first_of(
    alloc: Global,
    version: Version,
    names: &SessionNames,
    bytes: &[u8],
) -> Result<Option<First>, AllocError>
    ensures entry { IfOk result (λ found. option_map (first_entry bytes.now) found ≡ entry_at version names.now bytes.now) }
    ensures number { IfOk result (λ found. IfSome found (λ f. IsOfSixteen f.input.what)) }
    ensures within { IfOk result (λ found. IfSome found (λ f. f.size ≤ length bytes.now)) }
{
    let Some(entry) = entry_at(version, names, bytes) else {
        return Ok(None);
    };
    let what = what_of(alloc, entry.said)?;
    Ok(Some(First {
        input: Input { at: entry.at, what },
        session: session_of(entry.said),
        size: bytes.len() - entry.rest.len(),
    }))
}
