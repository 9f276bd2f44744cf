//! Texts as JSON strings in ASCII.

ghost use Rattle.std.specs.Prelude.{◌≡◌, ◌++◌, true, string_bytes, OnOk};
ghost use Rattle.std.specs.List.{list_all};
ghost use Rattle.std.specs.Str.{IsUtf8};
ghost use Rattle.json.specs.Print.{quoted};
ghost use Rattle.qo_replies.specs.Json.{ascii};
ghost use Rattle.qo_replies.specs.PlainBytes.{is_plain_byte};

use crate::ascii::push_ascii;
use serde_json::Value;
use std::alloc::{AllocError, Global};

/// Whether a byte stands for itself in a JSON string.
fn is_plain_byte(byte: u8) -> bool
    ensures { result ≡ is_plain_byte byte }
{
    (32..127).contains(&byte) && byte != b'"' && byte != b'\\'
}

/// Whether each byte of a text stands for itself in a JSON string.
fn is_plain(text: &str) -> bool
    ensures { result ≡ list_all is_plain_byte text.now }
{
    for byte in text.as_bytes() {
        if !is_plain_byte(*byte) {
            return false;
        }
    }
    true
}

/// A text that stands for itself, in quotes.
pub(crate) fn push_plain(text: &mut String, plain: &str) -> Result<(), AllocError>
    requires { list_all is_plain_byte plain.now ≡ true }
    ensures { OnOk result (string_bytes text.new ≡ string_bytes text.old ++ ascii (quoted plain.now)) }
{
    text.push_str("\"")?;
    text.push_str(plain)?;
    text.push_str("\"")?;
    Ok(())
}

/// A text as a JSON string in ASCII.
pub(crate) fn push_quoted(alloc: Global, text: &mut String, plain: &str) -> Result<(), AllocError>
    ensures bytes { OnOk result (string_bytes text.new ≡ string_bytes text.old ++ ascii (quoted plain.now)) }
    ensures spelled { OnOk result (IsUtf8 (quoted plain.now)) }
{
    if is_plain(plain) {
        push_plain(text, plain)?;
        Ok(())
    } else {
        let value = Value::String(String::from_str(alloc, plain)?);
        let written = value.to_string(alloc)?;
        push_ascii(text, written.as_str())
    }
}
