//! Objects with one member, written as text.

ghost use Rattle.std.specs.Prelude.{◌≡◌, IfOk};
ghost use Rattle.serde_json.specs.Data.{member, no_members, number, object, string, unsigned};
ghost use Rattle.qo_replies.specs.Json.{json};

use crate::events::push_number;
use crate::quoted::push_quoted;
use qo_values::Text;
use std::alloc::{AllocError, Global};

/// An object with one member has about so many bytes.
const MEMBER_BYTES: usize = 64;

/// The text of an object whose one member is a text.
pub fn text_member(alloc: Global, name: &str, value: &str) -> Result<Text, AllocError>
    ensures { IfOk result (λ text. text ≡ json (object (member name.now (string value.now) no_members))) }
{
    let mut text = String::with_capacity(alloc, MEMBER_BYTES)?;
    text.push_str("{")?;
    push_quoted(alloc, &mut text, name)?;
    text.push_str(":")?;
    push_quoted(alloc, &mut text, value)?;
    text.push_str("}")?;
    Ok(Text::from_string(text))
}

/// The text of an object whose one member is a number.
pub fn number_member(alloc: Global, name: &str, value: u64) -> Result<Text, AllocError>
    ensures { IfOk result (λ text. text ≡ json (object (member name.now (number (unsigned value)) no_members))) }
{
    let mut text = String::with_capacity(alloc, MEMBER_BYTES)?;
    text.push_str("{")?;
    push_quoted(alloc, &mut text, name)?;
    text.push_str(":")?;
    push_number(&mut text, value)?;
    text.push_str("}")?;
    Ok(Text::from_string(text))
}
