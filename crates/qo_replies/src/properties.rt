//! Properties as they are listed, written into text as they are read.

ghost use Rattle.std.specs.Prelude.{◌≡◌, ◌++◌, [], ◌∷◌, List, ℕ, true, string_bytes, IfOk, OnOk};
ghost use Rattle.std.specs.List.{list_all};
ghost use Rattle.std.specs.Str.{IsUtf8};
ghost use Rattle.json.specs.Print.{quoted};
ghost use Rattle.qo_values.specs.TypeTexts.{around, text_of};
ghost use Rattle.qo_replies.specs.Json.{ascii, json};
ghost use Rattle.qo_replies.specs.PlainBytes.{is_plain_byte};
ghost use Rattle.qo_replies.specs.Properties.{before_name, property_data};
ghost use Rattle.serde_json.specs.Written.{comma_if, compact_text};

use crate::quoted::{push_plain, push_quoted};
use qo_values::{Text, TypeId, TypeText};
use std::alloc::{AllocError, Global};
use std::marker::Model;

/// A list has about so many bytes.
const LIST_BYTES: usize = 512;

/// A word around the name of a type, in quotes.
fn push_around(text: &mut String, word: &str, kind: TypeId) -> Result<(), AllocError>
    requires { list_all is_plain_byte word.now ≡ true }
    ensures { OnOk result (string_bytes text.new ≡ string_bytes text.old ++ ascii (quoted (around word.now kind))) }
{
    text.push_str("\"")?;
    text.push_str(word)?;
    text.push_str("<")?;
    text.push_str(kind.name())?;
    text.push_str(">\"")?;
    Ok(())
}

/// What is told of the type of a property, as a JSON string.
fn push_type(text: &mut String, ty: TypeText) -> Result<(), AllocError>
    ensures { OnOk result (string_bytes text.new ≡ string_bytes text.old ++ ascii (quoted (text_of ty))) }
{
    match ty {
        TypeText::Value(of) => push_plain(text, of.word()),
        TypeText::Child(kind) => push_around(text, "child", kind),
        TypeText::Link(kind) => push_around(text, "link", kind),
        TypeText::Nothing => push_plain(text, ""),
    }
}

/// What stands before the name of a property.
fn before_name(some: bool) -> &'static str
    ensures { result.now ≡ before_name some }
{
    if some { ",{\"name\":" } else { "{\"name\":" }
}

/// A property as it stands in a list: a comma where others stand before, and then its object.
fn push_property(
    alloc: Global,
    text: &mut String,
    some: bool,
    name: &str,
    ty: TypeText,
) -> Result<(), AllocError>
    ensures bytes { OnOk result (string_bytes text.new ≡ string_bytes text.old ++ ascii (comma_if some ++ compact_text (property_data (name.now, text_of ty)))) }
    ensures spelled { OnOk result (IsUtf8 (comma_if some ++ compact_text (property_data (name.now, text_of ty)))) }
{
    text.push_str(before_name(some))?;
    push_quoted(alloc, text, name)?;
    text.push_str(",\"type\":")?;
    push_type(text, ty)?;
    text.push_str("}")?;
    Ok(())
}

/// A list of properties, each by its name and its type text, that is written property by property
/// (QEMU's QAPI, `qom-list`).
#[derive(Drop)]
pub struct PropertyList {
    text: String,
    some: bool,
}

impl Model for PropertyList {
    ghost use Rattle.std.specs.Prelude.{string_bytes};
    ghost use Rattle.qo_replies.specs.Properties.{Begun};

    ghost Value = { Begun };

    ghost view = { λ l. record { text = string_bytes l.text; some = l.some } };
}

impl PropertyList {
    ghost use Rattle.qo_replies.specs.Properties.{HasWritten, properties_data};

    /// A list of no properties. The error is want of memory.
    pub fn new(alloc: Global) -> Result<PropertyList, AllocError>
        ensures { IfOk result (HasWritten []) }
    {
        let mut text = String::with_capacity(alloc, LIST_BYTES)?;
        text.push_str("[")?;
        Ok(PropertyList { text, some: false })
    }

    /// A property more, after the others. The error is want of memory.
    pub fn push(&mut self, alloc: Global, name: &str, ty: TypeText) -> Result<(), AllocError>
        ensures { OnOk result ((rows : List (List ℕ × List ℕ)) → HasWritten rows self.old → HasWritten (rows ++ (name.now, text_of ty) ∷ []) self.new) }
    {
        push_property(alloc, &mut self.text, self.some, name, ty)?;
        self.some = true;
        Ok(())
    }

    /// The text of the list: compact JSON in ASCII. The error is want of memory.
    pub fn into_text(self) -> Result<Text, AllocError>
        ensures { IfOk result (λ text. (rows : List (List ℕ × List ℕ)) → HasWritten rows self → text ≡ json (properties_data rows)) }
    {
        let mut text = self.text;
        text.push_str("]")?;
        Ok(Text::from_string(text))
    }
}
