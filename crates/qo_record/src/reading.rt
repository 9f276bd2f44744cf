//! Readers of parts of an entry. Each answers what was read and the bytes after it.

ghost use Rattle.std.specs.Prelude.{◌≡◌, ◌==◌, ◌≤◌, ◌-◌, ◌<◌, option_map, position, IfSome};
ghost use Rattle.std.specs.Option.{option_copied};
ghost use Rattle.qo_record.specs.Reading.{after_front, with_digit, digits_until, number_until, digits_of, word_until};
ghost use Rattle.qo_record.specs.Record.{moment_at, piece_at, piece_of};
ghost use Rattle.qo_record.specs.Spelling.{FitsPiece};

use qo_causes::Moment;

/// The last second of a moment: 2^63 - 1.
const LAST_SECOND: u64 = 9_223_372_036_854_775_807;

/// The most bytes in one piece.
pub(crate) const PIECE_MAX: u64 = 65_536;

/// The bytes after a front.
pub(crate) fn after_front<'a>(front: &[u8], bytes: &'a [u8]) -> Option<&'a [u8]>
    ensures { option_copied result ≡ after_front front.now bytes.now }
{
    bytes.strip_prefix(front)
}

/// Where the first byte that ends a word stands.
fn place_of(stop: u8, bytes: &[u8]) -> Option<usize>
    ensures { result ≡ position (λ byte. byte == stop) bytes.now }
{
    bytes.iter().position(|byte| *byte == stop)
}

/// The bytes before the first one that ends a word, and those after it.
#[tactic(auto, using(crate::proofs::ReadingLemmas::no_place))]
pub(crate) fn word_until(stop: u8, bytes: &[u8]) -> Option<(&[u8], &[u8])>
    ensures { option_map (λ x. (x.0.now, x.1.now)) result ≡ word_until stop bytes.now }
{
    let at = place_of(stop, bytes)?;
    Some((&bytes[..at], &bytes[at + 1..]))
}

/// The number with one more digit, where the byte is one and the number is not above the last.
pub fn with_digit(last: u64, number: u64, byte: u8) -> Option<u64>
    ensures { result ≡ with_digit last number byte }
{
    if !byte.is_ascii_digit() {
        return None;
    }
    let next = number.checked_mul(10)?.checked_add(u64::from(byte - b'0'))?;
    if next <= last { Some(next) } else { None }
}

/// Further digits, up to the byte that ends them.
fn digits_until(stop: u8, last: u64, first: u64, bytes: &[u8]) -> Option<(u64, &[u8])>
    requires { first ≤ last }
    ensures number { option_map (λ x. (x.0, x.1.now)) result ≡ digits_until stop last first bytes.now }
    ensures bound { IfSome result (λ x. x.0 ≤ last) }
{
    let mut number = first;
    let mut left = bytes;
    while let [byte, rest @ ..] = left {
        if *byte == stop {
            return Some((number, rest));
        }
        number = with_digit(last, number, *byte)?;
        left = rest;
    }
    None
}

/// A number up to the last, in digits without a leading zero, and the byte that ends it.
pub(crate) fn number_until(stop: u8, last: u64, bytes: &[u8]) -> Option<(u64, &[u8])>
    ensures number { option_map (λ x. (x.0, x.1.now)) result ≡ number_until stop last bytes.now }
    ensures bound { IfSome result (λ x. x.0 ≤ last) }
{
    let (byte, rest) = bytes.split_first()?;
    if *byte == b'0' {
        return Some((0, after_front(&[stop], rest)?));
    }
    digits_until(stop, last, with_digit(last, 0, *byte)?, rest)
}

/// Six digits.
fn six_digits(bytes: &[u8]) -> Option<(u32, &[u8])>
    ensures { option_map (λ x. (x.0, x.1.now)) result ≡ digits_of 6 0 bytes.now }
{
    let mut number = 0;
    let mut left = bytes;
    for _ in 0..6u8 {
        let (byte, rest) = left.split_first()?;
        number = with_digit(999_999, number, *byte)?;
        left = rest;
    }
    Some((number as u32, left))
}

/// A moment, and the space after it.
pub(crate) fn moment_at(bytes: &[u8]) -> Option<(Moment, &[u8])>
    ensures { option_map (λ x. (x.0, x.1.now)) result ≡ moment_at bytes.now }
{
    let (seconds, rest) = number_until(b'.', LAST_SECOND, bytes)?;
    let (micros, rest) = six_digits(rest)?;
    Some((Moment { seconds, micros }, after_front(b" ", rest)?))
}

/// So many bytes, and the line's end after them.
fn piece_of(len: u64, bytes: &[u8]) -> Option<(&[u8], &[u8])>
    requires { len ≤ 65536 }
    ensures piece { option_map (λ x. (x.0.now, x.1.now)) result ≡ piece_of len bytes.now }
    ensures size { IfSome result (λ x. FitsPiece x.0.now) }
{
    let len = len as usize;
    if len == 0 || bytes.len() < len {
        return None;
    }
    let (piece, rest) = bytes.split_at(len);
    Some((piece, after_front(b"\n", rest)?))
}

/// A number of bytes, and the bytes.
pub(crate) fn piece_at(bytes: &[u8]) -> Option<(&[u8], &[u8])>
    ensures piece { option_map (λ x. (x.0.now, x.1.now)) result ≡ piece_at bytes.now }
    ensures size { IfSome result (λ x. FitsPiece x.0.now) }
{
    let (len, rest) = number_until(b'\n', PIECE_MAX, bytes)?;
    piece_of(len, rest)
}
