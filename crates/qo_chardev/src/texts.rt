//! Bytes of a ring as texts.

ghost use Rattle.std.specs.Prelude.{◌≡◌, ◌++◌, ◌≤◌, true, None, Some, take, length, IfOk};
ghost use Rattle.std.specs.Char.{is_ascii};
ghost use Rattle.std.specs.List.{list_all};
ghost use Rattle.qo_chardev.specs.Texts.{encoded};

use crate::ring::TakeError;
use base64::engine::general_purpose::STANDARD;
use circular_buffer::HeapCircularBuffer;
use qo_values::{Form, Text};
use std::alloc::{AllocError, Global};

/// The first `count` bytes of a buffer, in two slices.
pub fn oldest(buffer: &HeapCircularBuffer<u8>, count: usize) -> (&[u8], &[u8])
    requires { count ≤ length buffer.now.items }
    ensures { result.0.now ++ result.1.now ≡ take count buffer.now.items }
{
    let (front, back) = buffer.as_slices();
    let from_front = count.min(front.len());
    (&front[..from_front], &back[..count - from_front])
}

/// Whether all bytes are below 128.
fn is_ascii(bytes: &[u8]) -> bool
    ensures { result ≡ list_all is_ascii bytes.now }
{
    bytes.iter().all(|byte| byte.is_ascii())
}

/// The bytes of two slices.
fn joined(alloc: Global, front: &[u8], back: &[u8]) -> Result<Vec<u8>, AllocError>
    ensures { IfOk result (λ bytes. bytes.items ≡ front.now ++ back.now) }
{
    let mut bytes = Vec::new(alloc);
    bytes.extend_from_slice(front)?;
    bytes.extend_from_slice(back)?;
    Ok(bytes)
}

/// The text that ASCII bytes are.
fn ascii_text(bytes: Vec<u8>) -> Text
    requires { list_all is_ascii bytes.items ≡ true }
    ensures { result ≡ bytes.items }
{
    match String::from_utf8(bytes) {
        Ok(text) => Text::from_string(text),
        Err(_) => unreachable!(),
    }
}

/// The text that tells the bytes of two slices in a form; `NotAscii` exactly where there is none.
pub fn tell(alloc: Global, front: &[u8], back: &[u8], form: Form) -> Result<Text, TakeError>
    ensures text { IfOk result (λ text. encoded form (front.now ++ back.now) ≡ Some text) }
    ensures not_ascii { encoded form (front.now ++ back.now) ≡ None
        → result ≡ Err TakeError.NotAscii }
    ensures only_not_ascii { result ≡ Err TakeError.NotAscii
        → encoded form (front.now ++ back.now) ≡ None }
{
    match form {
        Form::Utf8 => {
            if !is_ascii(front) || !is_ascii(back) {
                return Err(TakeError::NotAscii);
            }
            Ok(ascii_text(joined(alloc, front, back)?))
        }
        Form::Base64 => {
            let bytes = joined(alloc, front, back)?;
            Ok(Text::from_string(STANDARD.encode(alloc, bytes.as_slice())?))
        }
    }
}
