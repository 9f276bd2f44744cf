//! JSON values as text in ASCII.

ghost use Rattle.std.specs.Prelude.{◌≡◌, ◌++◌, ◌∷◌, false, string_bytes, IsAscii, IfOk, OnOk};
ghost use Rattle.std.specs.Str.{IsUtf8};
ghost use Rattle.serde_json.specs.Find.{is_float};
ghost use Rattle.serde_json.specs.Data.{boolean};
ghost use Rattle.serde_json.specs.View.{number_view, view as owned_view};
ghost use Rattle.serde_json.specs.Written.{comma_if, compact_text, has_float, items_have_float, items_text, members_have_float, members_text, number_text};
ghost use Rattle.qo_json.specs.View.{view, items_view, members_view};
ghost use Rattle.qo_replies.specs.Json.{ascii, json};

use crate::ascii::push_ascii;
use crate::events::push_number;
use crate::quoted::push_quoted;
use itoa::Buffer;
use qo_json::Json;
use qo_values::Text;
use serde_json::{Number, Value};
use std::alloc::{AllocError, Global};

/// The text of an id has mostly fewer bytes.
const ID_BYTES: usize = 32;

/// A number. Nothing is said of the text of a fraction.
fn push_any_number(alloc: Global, text: &mut String, number: &Number) -> Result<(), AllocError>
    ensures bytes { OnOk result (is_float (number_view number.now) ≡ false → string_bytes text.new ≡ string_bytes text.old ++ number_text (number_view number.now)) }
    ensures spelled { OnOk result (is_float (number_view number.now) ≡ false → IsAscii (number_text (number_view number.now))) }
{
    if let Some(whole) = number.as_u64() {
        return push_number(text, whole);
    }
    match number.as_i64() {
        Some(whole) => text.push_str(Buffer::new().format(whole)),
        None => push_ascii(text, Value::Number(*number).to_string(alloc)?.as_str()),
    }
}

/// A truth value.
fn truth_text(truth: bool) -> &'static str
    ensures { result.now ≡ compact_text (boolean truth) }
{
    if truth { "true" } else { "false" }
}

/// What stands between two items or members.
fn push_comma(text: &mut String, later: bool) -> Result<(), AllocError>
    ensures { OnOk result (string_bytes text.new ≡ string_bytes text.old ++ comma_if later) }
{
    if later { text.push_str(",") } else { Ok(()) }
}

/// The text of a value.
#[cycle(push_value)]
fn push_value(alloc: Global, text: &mut String, value: &Json<'_>) -> Result<(), AllocError>
    ensures bytes { OnOk result (has_float (view value.now) ≡ false → string_bytes text.new ≡ string_bytes text.old ++ ascii (compact_text (view value.now))) }
    ensures spelled { OnOk result (has_float (view value.now) ≡ false → IsUtf8 (compact_text (view value.now))) }
{
    match value {
        Json::Null => push_ascii(text, "null"),
        Json::Bool(truth) => push_ascii(text, truth_text(*truth)),
        Json::Number(number) => {
            push_any_number(alloc, text, number)?;
            Ok(())
        }
        Json::String(plain) => push_quoted(alloc, text, *plain),
        Json::Array(items) => push_items(alloc, text, items),
        Json::Object(members) => push_members(alloc, text, members),
    }
}

/// The text of a list.
#[cycle(push_value)]
fn push_items(alloc: Global, text: &mut String, items: &Vec<Json<'_>>) -> Result<(), AllocError>
    ensures bytes { OnOk result (items_have_float (items_view items.now.items) ≡ false → string_bytes text.new ≡ string_bytes text.old ++ ascii (91 ∷ items_text false (items_view items.now.items))) }
    ensures spelled { OnOk result (items_have_float (items_view items.now.items) ≡ false → IsUtf8 (91 ∷ items_text false (items_view items.now.items))) }
{
    text.push_str("[")?;
    let mut later = false;
    for item in items {
        push_comma(text, later)?;
        push_value(alloc, text, item)?;
        later = true;
    }
    text.push_str("]")?;
    Ok(())
}

/// The text of an object.
#[cycle(push_value)]
fn push_members(
    alloc: Global,
    text: &mut String,
    members: &Vec<(&str, Json<'_>)>,
) -> Result<(), AllocError>
    ensures bytes { OnOk result (members_have_float (members_view members.now.items) ≡ false → string_bytes text.new ≡ string_bytes text.old ++ ascii (123 ∷ members_text false (members_view members.now.items))) }
    ensures spelled { OnOk result (members_have_float (members_view members.now.items) ≡ false → IsUtf8 (123 ∷ members_text false (members_view members.now.items))) }
{
    text.push_str("{")?;
    let mut later = false;
    for member in members {
        push_comma(text, later)?;
        push_quoted(alloc, text, member.0)?;
        text.push_str(":")?;
        push_value(alloc, text, &member.1)?;
        later = true;
    }
    text.push_str("}")?;
    Ok(())
}

/// Adds the text of a value. A number takes no text of its own.
#[tactic(auto, unfolding(crate::specs::Json::json))]
pub(crate) fn push_json(alloc: Global, text: &mut String, value: &Value) -> Result<(), AllocError>
    ensures { OnOk result (has_float (owned_view value.now) ≡ false → string_bytes text.new ≡ string_bytes text.old ++ json (owned_view value.now)) }
{
    if let Value::Number(number) = value {
        return push_any_number(alloc, text, number);
    }
    push_ascii(text, value.to_string(alloc)?.as_str())
}

/// The text of a value: compact JSON in ASCII, members in their order, every other character
/// escaped by its UTF-16 units. Nothing is said of the text of a fraction.
#[tactic(auto, unfolding(crate::specs::Json::json))]
pub fn json_text(alloc: Global, value: &Json<'_>) -> Result<Text, AllocError>
    ensures { IfOk result (λ text. has_float (view value.now) ≡ false → text ≡ json (view value.now)) }
{
    let mut text = String::with_capacity(alloc, ID_BYTES)?;
    push_value(alloc, &mut text, value)?;
    Ok(Text::from_string(text))
}
