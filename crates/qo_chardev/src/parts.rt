//! Base64 read part by part, which takes no memory.

ghost use Rattle.std.specs.Prelude.{◌≡◌, ◌<◌, None, length, is_some, IfSome, IsNone};
ghost use Rattle.qo_chardev.specs.Parts.{IsPart};
ghost use Rattle.qo_chardev.specs.Texts.{bytes_of};

use base64::engine::general_purpose::STANDARD;

/// The length of a part, in symbols. The last may be shorter.
const PART: usize = 1024;

/// The bytes of a part: three for each four symbols.
pub const PART_BYTES: usize = PART / 4 * 3;

/// Decodes the first part of a text into a buffer: its bytes, and what is left of the text. `None`
/// only where the text is not Base64.
pub fn first_part<'b, 't>(
    text: &'t [u8],
    buffer: &'b mut [u8; PART_BYTES],
) -> Option<(&'b [u8], &'t [u8])>
    requires { 0 < length text.now }
    ensures part { IfSome result (λ p. IsPart text.now p.0.now p.1.now) }
    ensures none { IsNone result → bytes_of text.now ≡ None }
{
    let (part, rest) = text.split_at(text.len().min(PART));
    let Ok(count) = STANDARD.decode_slice_unchecked(part, buffer) else {
        return None;
    };
    let bytes = &buffer[..count];
    if bytes.len() < PART_BYTES && !rest.is_empty() {
        return None;
    }
    Some((bytes, rest))
}

/// Whether a text is the standard Base64 of any bytes.
pub fn is_base64(text: &[u8]) -> bool
    ensures { result ≡ is_some (bytes_of text.now) }
{
    let mut buffer = [0; PART_BYTES];
    let mut rest = text;
    while !rest.is_empty() {
        match first_part(rest, &mut buffer) {
            Some((_, after)) => rest = after,
            None => return false,
        }
    }
    true
}
