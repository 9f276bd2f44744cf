//! From text to a value, in one pass over the tokens.

ghost use Rattle.std.specs.Prelude.{◌≡◌, ◌<◌, length, Some, None, Err, IfOk, OnOk, IsUtf8};
ghost use Rattle.json.specs.Json.{value, items, members};
ghost use Rattle.json.specs.Lex.{tokens};
ghost use Rattle.serde_json.specs.Data.{no_members};
ghost use Rattle.serde_json.specs.Read.{of_json, of_items, of_members, converted, read};
ghost use Rattle.qo_json.specs.Order.{IsOrdered};
ghost use Rattle.qo_json.specs.View.{view, items_view, members_view};

use crate::errors::JsonError;
use crate::members::{NAMES_MAX, put};
use crate::numbers::read_number;
use crate::values::Json;
use json::{Reader, Scratch, Token};
use std::alloc::Global;

/// Arrays and objects nest so deep at most.
const DEPTH_MAX: usize = 127;

/// An object has about so many members, so that room is made for as many at once.
const MEMBERS_AT_FIRST: usize = 4;

impl<'a> Json<'a> {
    /// Reads a text in UTF-8 in one pass. `Invalid`: it is no JSON, it nests deeper than 127, or a
    /// number in it is too large for a float. `Wide`: an object in it has more names than are looked
    /// through one by one.
    pub fn read(
        alloc: Global,
        bytes: &'a [u8],
        scratch: &'a mut Scratch,
    ) -> Result<Json<'a>, JsonError>
        ensures ok { IfOk result (λ v. IsUtf8 bytes.now × (read bytes.now ≡ Some (view v))) }
        ensures ordered { IfOk result (λ v. IsOrdered (view v)) }
        ensures invalid { result ≡ Err JsonError.Invalid → IsUtf8 bytes.now → read bytes.now ≡ None }
        ensures wide { result ≡ Err JsonError.Wide → NAMES_MAX < length (tokens bytes.now) }
    {
        match simdutf8::basic::from_utf8(bytes) {
            Ok(text) => read_text(alloc, text, scratch),
            Err(_) => Err(JsonError::Invalid),
        }
    }
}

/// Reads a text whole.
fn read_text<'a>(
    alloc: Global,
    text: &'a str,
    scratch: &'a mut Scratch,
) -> Result<Json<'a>, JsonError>
    ensures ok { IfOk result (λ v. read text.now ≡ Some (view v)) }
    ensures ordered { IfOk result (λ v. IsOrdered (view v)) }
    ensures invalid { result ≡ Err JsonError.Invalid → read text.now ≡ None }
    ensures wide { result ≡ Err JsonError.Wide → NAMES_MAX < length (tokens text.now) }
{
    let mut reader = Reader::new(text, scratch)?;
    let value = read(alloc, &mut reader, DEPTH_MAX)?;
    if reader.next().is_some() {
        return Err(JsonError::Invalid);
    }
    Ok(value)
}

/// The next value. Arrays and objects may nest `depth` deep.
#[cycle(read)]
#[inline(always)]
fn read<'a>(alloc: Global, reader: &mut Reader<'a>, depth: usize) -> Result<Json<'a>, JsonError>
    ensures ok { IfOk result (λ v. converted of_json (value depth reader.old) ≡ Some (view v, reader.new)) }
    ensures shorter { OnOk result (length reader.new < length reader.old) }
    ensures invalid { result ≡ Err JsonError.Invalid → converted of_json (value depth reader.old) ≡ None }
    ensures wide { result ≡ Err JsonError.Wide → NAMES_MAX < length reader.old }
{
    let token = reader.next().ok_or(JsonError::Invalid)?;
    match token {
        Token::String(text) => Ok(Json::String(text)),
        Token::Number(text) => match read_number(text) {
            Some(number) => Ok(Json::Number(number)),
            None => Err(JsonError::Invalid),
        },
        Token::Bool(truth) => Ok(Json::Bool(truth)),
        Token::Null => Ok(Json::Null),
        Token::EndObject | Token::EndArray | Token::Key(_) | Token::Bad => Err(JsonError::Invalid),
        Token::BeginArray => {
            if depth == 0 {
                return Err(JsonError::Invalid);
            }
            Ok(Json::Array(read_items(alloc, reader, depth - 1)?))
        }
        Token::BeginObject => {
            if depth == 0 {
                return Err(JsonError::Invalid);
            }
            Ok(Json::Object(read_members(alloc, reader, depth - 1)?))
        }
    }
}

/// The items of a list, up to its closing bracket.
#[cycle(read)]
#[inline(never)]
fn read_items<'a>(
    alloc: Global,
    reader: &mut Reader<'a>,
    depth: usize,
) -> Result<Vec<Json<'a>>, JsonError>
    ensures ok { IfOk result (λ found. converted of_items (items (value depth) (length reader.old) reader.old) ≡ Some (items_view found.items, reader.new)) }
    ensures shorter { OnOk result (length reader.new < length reader.old) }
    ensures invalid { result ≡ Err JsonError.Invalid → converted of_items (items (value depth) (length reader.old) reader.old) ≡ None }
    ensures wide { result ≡ Err JsonError.Wide → NAMES_MAX < length reader.old }
{
    let mut found = Vec::new(alloc);
    'items: while !reader.take_end_array() {
        let item = read(alloc, reader, depth)?;
        found.push(item)?;
    }
    Ok(found)
}

/// The members of an object, up to its closing brace.
#[cycle(read)]
#[inline(never)]
fn read_members<'a>(
    alloc: Global,
    reader: &mut Reader<'a>,
    depth: usize,
) -> Result<Vec<(&'a str, Json<'a>)>, JsonError>
    ensures ok { IfOk result (λ found. converted (λ ms. of_members ms no_members) (members (value depth) (length reader.old) reader.old) ≡ Some (members_view found.items, reader.new)) }
    ensures shorter { OnOk result (length reader.new < length reader.old) }
    ensures invalid { result ≡ Err JsonError.Invalid → converted (λ ms. of_members ms no_members) (members (value depth) (length reader.old) reader.old) ≡ None }
    ensures wide { result ≡ Err JsonError.Wide → NAMES_MAX < length reader.old }
{
    let mut found = Vec::with_capacity(alloc, MEMBERS_AT_FIRST)?;
    'members: while let Some(name) = reader.next_key()? {
        let member = read(alloc, reader, depth)?;
        put(&mut found, name, member)?;
    }
    Ok(found)
}
