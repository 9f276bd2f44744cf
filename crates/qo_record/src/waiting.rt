//! Which bytes may still become an entry when more come.

ghost use Rattle.std.specs.Prelude.{◌≡◌, option_map};
ghost use Rattle.qo_record.specs.PartialEntries.{are_to_come, has_line, is_wrong, line_most, promised_by_guest, promised_by_session};

use crate::entries::moment_after;
use crate::names::{SessionNames, session_at};
use crate::reading::{PIECE_MAX, number_until};
use crate::versions::Version;

/// The most bytes that the first line of an entry has, with its end.
fn line_most(version: Version) -> usize
    ensures { result ≡ line_most version }
{
    match version {
        Version::One => 52,
        Version::Two => 72,
    }
}

/// How many bytes the first line of an entry of a session promises, and the bytes after that line.
fn promised_by_session<'a>(
    version: Version,
    names: &SessionNames,
    bytes: &'a [u8],
) -> Option<(u64, &'a [u8])>
    ensures { option_map (λ x. (x.0, x.1.now)) result ≡ promised_by_session version names.now bytes.now }
{
    let (_, rest) = moment_after(b"bytes ", bytes)?;
    let (_, rest) = session_at(version, names, b' ', rest)?;
    number_until(b'\n', PIECE_MAX, rest)
}

/// How many bytes the first line of an entry of the guest promises, and the bytes after that line.
fn promised_by_guest(bytes: &[u8]) -> Option<(u64, &[u8])>
    ensures { option_map (λ x. (x.0, x.1.now)) result ≡ promised_by_guest bytes.now }
{
    let (_, rest) = moment_after(b"guest ", bytes)?;
    number_until(b'\n', PIECE_MAX, rest)
}

/// Whether some of the bytes that were promised, or the line's end after them, are still to come.
fn are_to_come(promised: Option<(u64, &[u8])>) -> bool
    ensures { result ≡ are_to_come (option_map (λ x. (x.0, x.1.now)) promised.entry) }
{
    match promised {
        Some((len, rest)) => len > 0 && rest.len() as u64 <= len,
        None => false,
    }
}

/// Whether a line ends among the bytes.
fn has_line(bytes: &[u8]) -> bool
    ensures { result ≡ has_line bytes.now }
{
    bytes.contains(&b'\n')
}

/// Whether bytes at whose front no entry stands will have none, whatever follows them. It is told where their first line
/// has ended, or is too long.
#[tactic(auto, unfolding(crate::specs::PartialEntries::is_wrong))]
pub(crate) fn is_wrong(version: Version, names: &SessionNames, bytes: &[u8]) -> bool
    ensures { result ≡ is_wrong version names.now bytes.now }
{
    let ended = bytes.len() >= line_most(version) || has_line(bytes);
    let by_session = are_to_come(promised_by_session(version, names, bytes));
    let by_guest = are_to_come(promised_by_guest(bytes));
    ended && !(by_session || by_guest)
}
