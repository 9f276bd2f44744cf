//! JSON in ASCII.

ghost use Rattle.std.specs.Prelude.{◌≡◌, ◌<◌, ◌≤◌, ◌^◌, ◌++◌, string_bytes, OnOk};
ghost use Rattle.std.specs.Char.{digit_char};
ghost use Rattle.qo_replies.specs.Json.{ascii, character_text, pair_text, unit_text, units_text};

use std::alloc::AllocError;

/// A hexadecimal digit in lower case.
fn hex_digit(digit: u32) -> char
    requires { digit < 16 }
    ensures { result ≡ digit_char digit }
{
    char::from_digit(digit, 16).unwrap_or('0')
}

/// A UTF-16 unit as `\u` and four hexadecimal digits.
fn push_unit(text: &mut String, unit: u32) -> Result<(), AllocError>
    requires { unit < 2 ^ 16 }
    ensures { OnOk result (string_bytes text.new ≡ string_bytes text.old ++ unit_text unit) }
{
    text.push_str("\\u")?;
    text.push(hex_digit(unit / 4096))?;
    text.push(hex_digit(unit / 256 % 16))?;
    text.push(hex_digit(unit / 16 % 16))?;
    text.push(hex_digit(unit % 16))
}

/// A character above 65,535 as the two units that stand for it.
fn push_pair(text: &mut String, character: u32) -> Result<(), AllocError>
    requires above { 65536 ≤ character }
    requires most { character < 1114112 }
    ensures { OnOk result (string_bytes text.new ≡ string_bytes text.old ++ pair_text character) }
{
    push_unit(text, 55_296 + (character - 65_536) / 1_024)?;
    push_unit(text, 56_320 + (character - 65_536) % 1_024)?;
    Ok(())
}

/// A character that is not ASCII, as escapes of its UTF-16 units.
fn push_units(text: &mut String, character: u32) -> Result<(), AllocError>
    requires { character < 1114112 }
    ensures { OnOk result (string_bytes text.new ≡ string_bytes text.old ++ units_text character) }
{
    if character < 65_536 {
        push_unit(text, character)
    } else {
        push_pair(text, character)
    }
}

/// One character, escaped where it is not ASCII.
fn push_character(text: &mut String, character: char) -> Result<(), AllocError>
    ensures { OnOk result (string_bytes text.new ≡ string_bytes text.old ++ character_text character) }
{
    if character.is_ascii() {
        text.push(character)
    } else {
        push_units(text, u32::from(character))
    }
}

/// A text whose characters above ASCII are escaped.
fn push_escaped(text: &mut String, plain: &str) -> Result<(), AllocError>
    ensures { OnOk result (string_bytes text.new ≡ string_bytes text.old ++ ascii plain.now) }
{
    for character in plain.chars() {
        push_character(text, character)?;
    }
    Ok(())
}

/// A text in ASCII: as it is, or with the others escaped.
pub(crate) fn push_ascii(text: &mut String, plain: &str) -> Result<(), AllocError>
    ensures { OnOk result (string_bytes text.new ≡ string_bytes text.old ++ ascii plain.now) }
{
    if plain.is_ascii() {
        text.push_str(plain)?;
        Ok(())
    } else {
        push_escaped(text, plain)
    }
}
