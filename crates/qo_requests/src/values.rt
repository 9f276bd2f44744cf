//! The values of arguments that are of their kinds.

ghost use Rattle.std.specs.Prelude.{◌≡◌, [], ◌∷◌, ◌++◌, true, unwrap_or, IfOk, OnOk};
ghost use Rattle.serde_json.specs.View.{number_view};
ghost use Rattle.qo_json.specs.Order.{IsOrdered, NamesRise, names_of as member_names};
ghost use Rattle.qo_json.specs.View.{view, items_view, members_view};
ghost use Rattle.qo_values.specs.PlainValues.{whole_of};
ghost use Rattle.qo_values.specs.PropertyLists.{names_of, is_above};
ghost use Rattle.qo_values.specs.declared.properties.Val.TheVariants as val;
ghost use Rattle.qo_requests.specs.ArgumentMembers.{AreGiven};
ghost use Rattle.qo_requests.specs.Values.{text_of, texts_in, plain_in, form_named, reset_type_named, text_at, number_at, truth_at, form_at, reset_type_at, texts_at, text_in, number_in, value_in, properties_in, properties_beside};

use crate::argument_values::ArgumentValues;
use crate::arguments::{Argument, is_named};
use crate::fields::Field;
use qo_json::Json;
use qo_values::{Form, PropList, PushError, ResetKind, Text, TextList, Val};
use serde_json::Number;
use std::alloc::{AllocError, Global};

/// The text that a value is; empty where it is none.
fn text_of(alloc: Global, value: &Json<'_>) -> Result<Text, AllocError>
    ensures { IfOk result (λ text. text ≡ text_of (view value.now)) }
{
    match value.as_str() {
        Some(text) => Ok(Text::from_string(String::from_str(alloc, text)?)),
        None => Ok(Text::from_string(String::new(alloc))),
    }
}

/// The whole number of 64 bits that a number is; nothing where it is none.
fn whole_in(number: &Number) -> Val
    ensures { result ≡ unwrap_or (whole_of (number_view number.now)) val.Nothing }
{
    if let Some(whole) = number.as_u64() {
        return Val::Uint(whole);
    }
    match number.as_i64() {
        Some(whole) => Val::Int(whole),
        None => Val::Nothing,
    }
}

/// The plain value that a value is; nothing where it is none.
fn plain_in(alloc: Global, value: &Json<'_>) -> Result<Val, AllocError>
    ensures { IfOk result (λ val. val ≡ plain_in (view value.now)) }
{
    match value {
        Json::Bool(truth) => Ok(Val::Bool(*truth)),
        Json::Number(number) => Ok(whole_in(number)),
        Json::String(text) => Ok(Val::Text(Text::from_string(String::from_str(alloc, *text)?))),
        Json::Null | Json::Array(_) | Json::Object(_) => Ok(Val::Nothing),
    }
}

/// The texts of a list.
fn texts_in(alloc: Global, items: &[Json<'_>]) -> Result<TextList, AllocError>
    ensures { IfOk result (λ texts. texts ≡ texts_in (items_view items.now)) }
{
    let mut texts = Vec::new(alloc);
    for item in items {
        texts.push(text_of(alloc, item)?)?;
    }
    Ok(TextList::from_vec(texts))
}

/// A form by its name.
fn form_named(name: &str) -> Option<Form>
    ensures { result ≡ form_named name.now }
{
    if name == "utf8" {
        Some(Form::Utf8)
    } else if name == "base64" {
        Some(Form::Base64)
    } else {
        None
    }
}

/// A type of a reset by its name.
fn reset_type_named(name: &str) -> Option<ResetKind>
    ensures { result ≡ reset_type_named name.now }
{
    if name == "cold" {
        Some(ResetKind::Cold)
    } else if name == "wakeup" {
        Some(ResetKind::Wakeup)
    } else {
        None
    }
}

/// An argument that is a text, where it stands.
pub(crate) fn text_at(
    alloc: Global,
    args: &ArgumentValues<'_, '_>,
    field: Field,
) -> Result<Option<Text>, AllocError>
    requires { AreGiven args.now }
    ensures { IfOk result (λ text. text ≡ text_at field (view args.now.place.now)) }
{
    match args.at(field).and_then(Json::as_str) {
        Some(text) => Ok(Some(Text::from_string(String::from_str(alloc, text)?))),
        None => Ok(None),
    }
}

/// An argument that is a number, where it stands.
pub(crate) fn number_at(args: &ArgumentValues<'_, '_>, field: Field) -> Option<u64>
    requires { AreGiven args.now }
    ensures { result ≡ number_at field (view args.now.place.now) }
{
    args.at(field).and_then(Json::as_u64)
}

/// An argument that is a truth value, where it stands.
pub(crate) fn truth_at(args: &ArgumentValues<'_, '_>, field: Field) -> Option<bool>
    requires { AreGiven args.now }
    ensures { result ≡ truth_at field (view args.now.place.now) }
{
    args.at(field).and_then(Json::as_bool)
}

/// An argument that is a form, where it stands.
pub(crate) fn form_at(args: &ArgumentValues<'_, '_>, field: Field) -> Option<Form>
    requires { AreGiven args.now }
    ensures { result ≡ form_at field (view args.now.place.now) }
{
    args.at(field).and_then(Json::as_str).and_then(form_named)
}

/// An argument that is a type of a reset, where it stands.
pub(crate) fn reset_type_at(args: &ArgumentValues<'_, '_>, field: Field) -> Option<ResetKind>
    requires { AreGiven args.now }
    ensures { result ≡ reset_type_at field (view args.now.place.now) }
{
    args.at(field)
        .and_then(Json::as_str)
        .and_then(reset_type_named)
}

/// An argument that is a list of texts, where it stands.
pub(crate) fn texts_at(
    alloc: Global,
    args: &ArgumentValues<'_, '_>,
    field: Field,
) -> Result<Option<TextList>, AllocError>
    requires { AreGiven args.now }
    ensures { IfOk result (λ texts. texts ≡ texts_at field (view args.now.place.now)) }
{
    match args.at(field).and_then(Json::as_array) {
        Some(items) => Ok(Some(texts_in(alloc, items)?)),
        None => Ok(None),
    }
}

/// An argument that is a text; empty where it does not stand there.
pub(crate) fn text_in(
    alloc: Global,
    args: &ArgumentValues<'_, '_>,
    field: Field,
) -> Result<Text, AllocError>
    requires { AreGiven args.now }
    ensures { IfOk result (λ text. text ≡ text_in field (view args.now.place.now)) }
{
    match args.at(field) {
        Some(value) => text_of(alloc, value),
        None => Ok(Text::from_string(String::new(alloc))),
    }
}

/// An argument that is a number; 0 where it does not stand there.
pub(crate) fn number_in(args: &ArgumentValues<'_, '_>, field: Field) -> u64
    requires { AreGiven args.now }
    ensures { result ≡ number_in field (view args.now.place.now) }
{
    number_at(args, field).unwrap_or(0)
}

/// An argument that is a plain value; nothing where it does not stand there.
pub(crate) fn value_in(
    alloc: Global,
    args: &ArgumentValues<'_, '_>,
    field: Field,
) -> Result<Val, AllocError>
    requires { AreGiven args.now }
    ensures { IfOk result (λ val. val ≡ value_in field (view args.now.place.now)) }
{
    match args.at(field) {
        Some(value) => plain_in(alloc, value),
        None => Ok(Val::Nothing),
    }
}

/// Puts a property after others, whose names come before its own.
fn put(props: &mut PropList, name: Text, val: Val) -> Result<(), AllocError>
    requires { is_above (names_of props.old) name ≡ true }
    ensures { OnOk result (props.new ≡ props.old ++ (name, val) ∷ []) }
{
    match props.push(name, val) {
        Ok(()) => Ok(()),
        Err(PushError::Memory) => Err(AllocError),
        Err(PushError::OutOfOrder) => unreachable!(),
    }
}

/// The members that are none of these, as properties.
fn properties_in(
    alloc: Global,
    rows: &[Argument],
    members: &[(&str, Json<'_>)],
) -> Result<PropList, AllocError>
    requires { NamesRise (member_names (members_view members.now)) }
    ensures { IfOk result (λ props. props ≡ properties_in rows.now (members_view members.now)) }
{
    let mut props = PropList::new(alloc);
    for member in members {
        if is_named(rows, member.0) {
            continue;
        }
        let name = Text::from_string(String::from_str(alloc, member.0)?);
        let val = plain_in(alloc, &member.1)?;
        put(&mut props, name, val)?;
    }
    Ok(props)
}

/// The arguments that no row names, as properties.
#[tactic(auto, using(crate::proofs::ArgumentMemberLemmas::none_beside))]
pub(crate) fn properties_beside(
    alloc: Global,
    args: &ArgumentValues<'_, '_>,
) -> Result<PropList, AllocError>
    requires given { AreGiven args.now }
    requires ordered { IsOrdered (view args.now.place.now) }
    ensures { IfOk result (λ props. props ≡ properties_beside args.now.rows.now (view args.now.place.now)) }
{
    if args.has_only() {
        return Ok(PropList::new(alloc));
    }
    match args.place.as_object() {
        Some(members) => properties_in(alloc, args.rows, members),
        None => Ok(PropList::new(alloc)),
    }
}
