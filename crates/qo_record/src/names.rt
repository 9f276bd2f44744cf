//! The names of sessions in a recorded stream.

ghost use Rattle.std.specs.Prelude.{◌≡◌, ◌≤◌, [], length, option_copied, option_map, IfSome};
ghost use Rattle.std.specs.List.{list_all};
ghost use Rattle.qo_causes.specs.Names.{name_of, no_names};
ghost use Rattle.qo_record.specs.Names.{has_name, is_name, is_name_byte, is_open, least_free, number_named};
ghost use Rattle.qo_record.specs.Record.{name_until, number_at, opening_at, session_at};
ghost use Rattle.qo_record.specs.Spelling.{named_by};
ghost use Rattle.qo_record.specs.Streams.{IsOfSixteen, IsWithin, spelled_with};
ghost use Rattle.qo_record.specs.declared.versions.Version.TheVariants as Version;

use crate::reading::{number_until, word_until};
use crate::versions::Version;
use qo_causes::What;
use std::marker::Model;

/// The most bytes of a name.
const NAME_MAX: usize = 32;

/// The last number of a session.
const LAST_SESSION: u64 = 15;

/// The name of a session: at most 32 bytes. Contracts see the list of the bytes.
#[derive(Drop)]
pub(crate) struct SessionName {
    bytes: [u8; NAME_MAX],
    len: usize,
}

impl Model for SessionName {
    ghost use Rattle.std.specs.Prelude.{ℕ, List, ◌≤◌, take};

    ghost Value = { List ℕ };

    ghost view = { λ n. take n.len n.bytes };

    ghost invariant = { λ n. n.len ≤ 32 };
}

impl SessionName {
    /// The name of these bytes.
    pub(crate) fn from_slice(name: &[u8]) -> SessionName
        requires { length name.now ≤ 32 }
        ensures { result ≡ name.now }
    {
        let mut bytes = [0; NAME_MAX];
        bytes[..name.len()].copy_from_slice(name);
        SessionName {
            bytes,
            len: name.len(),
        }
    }

    /// No bytes.
    pub(crate) fn empty() -> SessionName
        ensures { result ≡ [] }
    {
        SessionName {
            bytes: [0; NAME_MAX],
            len: 0,
        }
    }

    /// The bytes.
    pub(crate) fn as_slice(&self) -> &[u8]
        ensures { result.now ≡ self.now }
    {
        &self.bytes[..self.len]
    }
}

/// By its number, the name of each session that is open.
pub(crate) type SessionNames = [Option<SessionName>; 16];

/// No session is open.
pub(crate) fn none_open() -> SessionNames
    ensures { result ≡ no_names }
{
    [
        None, None, None, None, None, None, None, None, None, None, None, None, None, None, None,
        None,
    ]
}

/// A session as an entry names it: its number, and its name as it is spelled there.
#[derive(Clone, Copy)]
pub(crate) struct Session<'a> {
    pub(crate) number: u8,
    pub(crate) name: &'a [u8],
}

/// Whether a byte may stand in a name behind its first.
fn is_name_byte(byte: u8) -> bool
    ensures { result ≡ is_name_byte byte }
{
    byte.is_ascii_lowercase() || byte.is_ascii_digit() || byte == b'-'
}

/// Whether bytes may all stand in a name.
fn are_name_bytes(bytes: &[u8]) -> bool
    ensures { result ≡ list_all is_name_byte bytes.now }
{
    bytes.iter().all(|byte| is_name_byte(*byte))
}

/// Whether bytes are the name of a session.
#[tactic(auto, unfolding(crate::specs::Names::is_name))]
fn is_name(name: &[u8]) -> bool
    ensures { result ≡ is_name name.now }
{
    let Some(first) = name.first() else {
        return false;
    };
    first.is_ascii_lowercase()
        && name.len() <= NAME_MAX
        && name != b"g".as_slice()
        && are_name_bytes(name)
}

/// Whether a session has the name.
fn has_name(held: &Option<SessionName>, name: &[u8]) -> bool
    ensures { result ≡ has_name name.now held.now }
{
    match held {
        Some(held) => held.as_slice() == name,
        None => false,
    }
}

/// Where the name of an open session stands.
#[tactic(auto, unfolding(crate::specs::Names::number_named))]
fn place_named(names: &SessionNames, name: &[u8]) -> Option<usize>
    ensures place { result ≡ number_named names.now name.now }
    ensures bound { IfSome result (λ s. s ≤ 15) }
{
    names.iter().position(|held| has_name(held, name))
}

/// The number of the open session of a name.
fn number_named(names: &SessionNames, name: &[u8]) -> Option<u8>
    ensures number { result ≡ number_named names.now name.now }
    ensures bound { IfSome result (λ s. s ≤ 15) }
{
    Some(place_named(names, name)? as u8)
}

/// The first place at which no name stands.
#[tactic(auto, unfolding(crate::specs::Names::least_free))]
fn free_place(names: &SessionNames) -> Option<usize>
    ensures place { result ≡ least_free names.now }
    ensures bound { IfSome result (λ s. s ≤ 15) }
{
    names.iter().position(|held| held.is_none())
}

/// The least number that no open session has.
fn least_free(names: &SessionNames) -> Option<u8>
    ensures number { result ≡ least_free names.now }
    ensures bound { IfSome result (λ s. s ≤ 15) }
{
    Some(free_place(names)? as u8)
}

/// The name of a session by its number, where it has one.
pub(crate) fn name_of(names: &SessionNames, number: u8) -> Option<&SessionName>
    ensures { option_copied result ≡ name_of names.now number }
{
    match names.get(usize::from(number)) {
        Some(Some(name)) => Some(name),
        Some(None) | None => None,
    }
}

/// Whether the session of a number is open.
fn is_open(names: &SessionNames, number: u8) -> bool
    ensures { result ≡ is_open names.now number }
{
    name_of(names, number).is_some()
}

/// A name, and the bytes after the byte that ends it.
fn name_until(stop: u8, bytes: &[u8]) -> Option<(&[u8], &[u8])>
    ensures name { option_map (λ x. (x.0.now, x.1.now)) result ≡ name_until stop bytes.now }
    ensures few { IfSome result (λ x. length x.0.now ≤ 32) }
{
    let (name, rest) = word_until(stop, bytes)?;
    if is_name(name) {
        Some((name, rest))
    } else {
        None
    }
}

/// A session by its number, and the bytes after the byte that ends it.
fn number_at(stop: u8, bytes: &[u8]) -> Option<(Session<'_>, &[u8])>
    ensures number { option_map spelled_with result ≡ number_at stop bytes.now }
    ensures within { IfSome result (λ x. IsWithin x.0) }
{
    let (number, rest) = number_until(stop, LAST_SESSION, bytes)?;
    let session = Session {
        number: number as u8,
        name: &bytes[..bytes.len() - rest.len() - 1],
    };
    Some((session, rest))
}

/// The session that opens by an entry of the first version: it is not open.
fn opening_by_number<'a>(names: &SessionNames, bytes: &'a [u8]) -> Option<(Session<'a>, &'a [u8])>
    ensures session { option_map spelled_with result ≡ opening_at Version.One names.now bytes.now }
    ensures within { IfSome result (λ x. IsWithin x.0) }
{
    let (session, rest) = number_at(b'\n', bytes)?;
    if is_open(names, session.number) {
        return None;
    }
    Some((session, rest))
}

/// The session that opens by an entry of the second version: no open session has its name, and its number is the
/// least that is free.
fn opening_by_name<'a>(names: &SessionNames, bytes: &'a [u8]) -> Option<(Session<'a>, &'a [u8])>
    ensures session { option_map spelled_with result ≡ opening_at Version.Two names.now bytes.now }
    ensures within { IfSome result (λ x. IsWithin x.0) }
{
    let (name, rest) = name_until(b'\n', bytes)?;
    if number_named(names, name).is_some() {
        return None;
    }
    let number = least_free(names)?;
    Some((Session { number, name }, rest))
}

/// The session that opens, and the bytes after its line.
pub(crate) fn opening_at<'a>(
    version: Version,
    names: &SessionNames,
    bytes: &'a [u8],
) -> Option<(Session<'a>, &'a [u8])>
    ensures session { option_map spelled_with result ≡ opening_at version names.now bytes.now }
    ensures within { IfSome result (λ x. IsWithin x.0) }
{
    match version {
        Version::One => opening_by_number(names, bytes),
        Version::Two => opening_by_name(names, bytes),
    }
}

/// An open session by its number.
fn session_by_number<'a>(
    names: &SessionNames,
    stop: u8,
    bytes: &'a [u8],
) -> Option<(Session<'a>, &'a [u8])>
    ensures session { option_map spelled_with result ≡ session_at Version.One names.now stop bytes.now }
    ensures within { IfSome result (λ x. IsWithin x.0) }
{
    let (session, rest) = number_at(stop, bytes)?;
    if !is_open(names, session.number) {
        return None;
    }
    Some((session, rest))
}

/// An open session by its name.
fn session_by_name<'a>(
    names: &SessionNames,
    stop: u8,
    bytes: &'a [u8],
) -> Option<(Session<'a>, &'a [u8])>
    ensures session { option_map spelled_with result ≡ session_at Version.Two names.now stop bytes.now }
    ensures within { IfSome result (λ x. IsWithin x.0) }
{
    let (name, rest) = name_until(stop, bytes)?;
    let number = number_named(names, name)?;
    Some((Session { number, name }, rest))
}

/// A session that is open, and the bytes after the byte that ends it.
#[inline(always)]
pub(crate) fn session_at<'a>(
    version: Version,
    names: &SessionNames,
    stop: u8,
    bytes: &'a [u8],
) -> Option<(Session<'a>, &'a [u8])>
    ensures session { option_map spelled_with result ≡ session_at version names.now stop bytes.now }
    ensures within { IfSome result (λ x. IsWithin x.0) }
{
    match version {
        Version::One => session_by_number(names, stop, bytes),
        Version::Two => session_by_name(names, stop, bytes),
    }
}

/// Names the session that opens, and lets go of the name of one that is shut.
pub(crate) fn rename(names: &mut SessionNames, name: SessionName, what: &What)
    requires { IsOfSixteen what.now }
    ensures { names.new ≡ named_by names.old name what.now }
{
    match what {
        What::Open(number) => names[usize::from(*number)] = Some(name),
        What::Shut(number) => names[usize::from(*number)] = None,
        What::Bytes(..) | What::Guest(_) | What::Step(_) | What::End => {}
    }
}
