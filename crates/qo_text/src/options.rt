//! The options of a line: parts joined by commas, each a key and a value (QEMU's util/qemu-option.c).
//! The error of each call is want of memory.

ghost use Rattle.std.specs.Prelude.{◌≡◌, [], find, position, slice_get, true, false, IfOk, OnOk, Some, None, option_map, if◌then◌else◌, ◌∷◌, ◌++◌};
ghost use Rattle.std.specs.List.{position_or_len};
ghost use Rattle.std.specs.Option.{option_map_or};
ghost use Rattle.std.specs.Str.{bytes_eq};
ghost use Rattle.qo_values.specs.PropertyLists.{NamesRise, is_above, names_of};
ghost use Rattle.qo_text.specs.Joined.{keys_of};
ghost use Rattle.qo_text.specs.Options.{holds, is_property, is_upto, option_in, options, parts, properties, put_new, text_of};

use crate::numbers::value_of;
use qo_values::{PropList, PushError, Text, Val};
use std::alloc::{AllocError, Global};
use std::mem;

/// Whether a byte stands in a text.
pub(crate) fn holds(byte: u8, text: &str) -> bool
    ensures { result ≡ holds byte text.now }
{
    text.as_bytes().iter().any(|c| *c == byte)
}

/// The parts of a text that commas join. Read from the left, two commas together stand for a comma in a
/// part.
pub(crate) fn parts(alloc: Global, text: &str) -> Result<Vec<Text>, AllocError>
    ensures { IfOk result (λ found. found.items ≡ parts text.now) }
{
    let mut found = Vec::new(alloc);
    let mut part = String::new(alloc);
    let mut rest = text;
    while let Some((front, after)) = rest.split_once(',') {
        part.push_str(front)?;
        if let Some(more) = after.strip_prefix(',') {
            part.push(',')?;
            rest = more;
        } else {
            let whole = mem::replace(&mut part, String::new(alloc));
            found.push(Text::from_string(whole))?;
            rest = after;
        }
    }
    part.push_str(rest)?;
    found.push(Text::from_string(part))?;
    Ok(found)
}

/// The key of a part and its value; `None` where there is no `=`, and where the key is empty or
/// `driver`.
fn option_in(alloc: Global, part: &str) -> Result<Option<(Text, Text)>, AllocError>
    ensures { IfOk result (λ found. found ≡ option_in part.now) }
{
    let Some((key, value)) = part.split_once('=') else {
        return Ok(None);
    };
    if key.is_empty() || key == "driver" {
        return Ok(None);
    }
    let key = Text::from_string(String::from_str(alloc, key)?);
    let value = Text::from_string(String::from_str(alloc, value)?);
    Ok(Some((key, value)))
}

/// The place of the first option whose key is no earlier in byte order.
fn first_upto(found: &[(Text, Text)], key: &str) -> Option<usize>
    ensures { result ≡ position (is_upto key.now) found.now }
{
    found.iter().position(|option| key <= option.0.as_str())
}

/// Where a key goes among options in byte order: before the first whose key is no earlier.
fn place_of(found: &[(Text, Text)], key: &str) -> usize
    ensures { result ≡ position_or_len (is_upto key.now) found.now }
{
    match first_upto(found, key) {
        Some(place) => place,
        None => found.len(),
    }
}

/// Whether the option at a place has a key.
fn is_at(found: &[(Text, Text)], place: usize, key: &str) -> bool
    ensures { result ≡ option_map_or (λ p. bytes_eq key.now p.0) (slice_get found.now place) false }
{
    match found.get(place) {
        Some(other) => key == other.0.as_str(),
        None => false,
    }
}

/// Puts an option among others in byte order of their keys; false where the key is there.
fn put_new(found: &mut Vec<(Text, Text)>, key: Text, value: Text) -> Result<bool, AllocError>
    ensures { IfOk result (λ is_new. put_new key value found.old.items ≡ (if is_new then Some found.new.items else None)) }
{
    let place = place_of(found.as_slice(), key.as_str());
    if is_at(found.as_slice(), place, key.as_str()) {
        return Ok(false);
    }
    found.insert(place, (key, value))?;
    Ok(true)
}

/// The options that parts are, in byte order of their keys; `None` where a part is no option, or a key
/// comes twice.
pub(crate) fn options(
    alloc: Global,
    parts: &[Text],
) -> Result<Option<Vec<(Text, Text)>>, AllocError>
    ensures { IfOk result (λ found. option_map (λ f. f.items) found ≡ options parts.now []) }
{
    let mut found = Vec::new(alloc);
    for part in parts {
        let Some((key, value)) = option_in(alloc, part.as_str())? else {
            return Ok(None);
        };
        if !put_new(&mut found, key, value)? {
            return Ok(None);
        }
    }
    Ok(Some(found))
}

/// The option of a key.
fn option_named<'a>(key: &str, found: &'a [(Text, Text)]) -> Option<&'a (Text, Text)>
    ensures { option_map (λ p. p.now) result ≡ find (λ p. bytes_eq p.0 key.now) found.now }
{
    found.iter().find(|option| option.0.as_str() == key)
}

/// The value of the option of a key, as a text.
pub(crate) fn text_of(
    alloc: Global,
    key: &str,
    found: &[(Text, Text)],
) -> Result<Option<Text>, AllocError>
    ensures { IfOk result (λ text. text ≡ text_of key.now found.now) }
{
    match option_named(key, found) {
        Some(option) => {
            let text = String::from_str(alloc, option.1.as_str())?;
            Ok(Some(Text::from_string(text)))
        }
        None => Ok(None),
    }
}

/// Whether an option is a property.
fn is_property(option: &(Text, Text)) -> bool
    ensures { result ≡ is_property option.now }
{
    option.0.as_str() != "id" && option.0.as_str() != "bus"
}

/// Puts a property after others, whose names come before its own.
fn put(props: &mut PropList, name: Text, val: Val) -> Result<(), AllocError>
    requires { is_above (names_of props.old) name ≡ true }
    ensures { OnOk result (props.new ≡ props.old ++ (name, val) ∷ []) }
{
    match props.push(name, val) {
        Ok(()) => Ok(()),
        Err(PushError::Memory) => Err(AllocError),
        Err(PushError::OutOfOrder) => unreachable!(),
    }
}

/// The options that are properties.
pub(crate) fn properties(alloc: Global, found: &[(Text, Text)]) -> Result<PropList, AllocError>
    requires { NamesRise (keys_of found.now) }
    ensures { IfOk result (λ props. props ≡ properties found.now) }
{
    let mut props = PropList::new(alloc);
    for option in found {
        if !is_property(option) {
            continue;
        }
        let name = Text::from_string(String::from_str(alloc, option.0.as_str())?);
        let val = value_of(alloc, option.1.as_str())?;
        put(&mut props, name, val)?;
    }
    Ok(props)
}
