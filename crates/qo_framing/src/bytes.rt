//! The bytes that matter to framing.

ghost use Rattle.std.specs.Prelude.{◌≡◌, ◌<◌, ◌≤◌, ℕ, true, length, slice_index};
ghost use Rattle.qo_framing.specs.Classes.{ends_skipping, is_passed, is_reset};
ghost use Rattle.qo_framing.specs.Cut.{trimmed};
ghost use Rattle.qo_framing.specs.Scanning.{is_plain};

/// Whether a byte resets the reader, as no JSON has it.
pub(crate) fn is_reset(byte: u8) -> bool
    ensures { result ≡ is_reset byte }
{
    if byte >= b' ' {
        return byte == 255;
    }
    !matches!(byte, b'\t' | b'\n' | b'\r')
}

/// Whether a byte is passed over between objects.
pub(crate) fn is_passed(byte: u8) -> bool
    ensures { result ≡ is_passed byte }
{
    matches!(byte, 0..=32 | 255)
}

/// Whether a byte ends the skipping.
pub(crate) fn ends_skipping(byte: u8) -> bool
    ensures { result ≡ ends_skipping byte }
{
    matches!(byte, 0..=8 | 10..=12 | 14..=31 | 255)
}

// A full stop at the place of each byte that means nothing inside an object, a star at each other.
static PLAIN: [u8; 256] = *b"\
    *********..**.******************\
    ..*.............................\
    ...........................***..\
    ...........................*.*..\
    ................................\
    ................................\
    ................................\
    ...............................*";

/// Whether a byte means nothing inside an object.
fn is_plain(byte: u8) -> bool
    ensures { result ≡ is_plain byte }
{
    PLAIN[byte as usize] == b'.'
}

/// The place of the first byte from `at` on that means something, or the end.
fn after_each(bytes: &[u8], at: usize) -> usize
    requires { at ≤ length bytes.now }
    ensures least { at ≤ result }
    ensures most { result ≤ length bytes.now }
    ensures plain { (k : ℕ) → at ≤ k → k < result → is_plain (slice_index bytes.now k) ≡ true }
{
    let mut place = at;
    while place < bytes.len() && is_plain(bytes[place]) {
        place += 1;
    }
    place
}

/// The place of the first byte from `at` on that means something, or the end. Most bytes mean nothing, so
/// four are looked at in one go.
pub(crate) fn after_plain(bytes: &[u8], at: usize) -> usize
    requires { at ≤ length bytes.now }
    ensures least { at ≤ result }
    ensures most { result ≤ length bytes.now }
    ensures plain { (k : ℕ) → at ≤ k → k < result → is_plain (slice_index bytes.now k) ≡ true }
{
    let mut place = at;
    while bytes.len() - place >= 4 {
        if !is_plain(bytes[place]) {
            return place;
        }
        if !is_plain(bytes[place + 1]) {
            return place + 1;
        }
        if !is_plain(bytes[place + 2]) {
            return place + 2;
        }
        if !is_plain(bytes[place + 3]) {
            return place + 3;
        }
        place += 4;
    }
    after_each(bytes, place)
}

/// Bytes without those in front that are passed over between objects.
pub(crate) fn trimmed(bytes: &[u8]) -> &[u8]
    ensures { result.now ≡ trimmed bytes.now }
{
    let mut left = bytes;
    while let [byte, rest @ ..] = left {
        if !is_passed(*byte) {
            return left;
        }
        left = rest;
    }
    left
}
