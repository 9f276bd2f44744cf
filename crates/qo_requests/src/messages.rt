//! Messages, read into requests.

ghost use Rattle.std.specs.Prelude.{◌≡◌, false, None, option_map, unwrap_or, IfOk};
ghost use Rattle.serde_json.specs.Data.{null};
ghost use Rattle.qo_json.specs.Order.{IsOrdered};
ghost use Rattle.qo_json.specs.View.{view, items_view, members_view};
ghost use Rattle.serde_json.specs.Written.{has_float, items_have_float, members_have_float};
ghost use Rattle.qo_requests.specs.Commands.{arguments};
ghost use Rattle.qo_requests.specs.ArgumentMembers.{AreGiven};
ghost use Rattle.qo_requests.specs.Members.{AreOf};
ghost use Rattle.qo_values.specs.declared.codes.Code.TheVariants.{E1};
ghost use Rattle.qo_requests.specs.declared.requests.ReadError.TheVariants.{Refused};
ghost use Rattle.qo_requests.specs.Messages.{backend_complete, backend_closed, backend_fits, backend_of, is_complete, is_closed, is_fitting, call_of, request_in, id_text, with_id, command, Reads, GivesCode};

use crate::argument_values::ArgumentValues;
use crate::building::request_of;
use crate::commands::{Command, backend_members, payload_members};
use crate::fields::Field;
use crate::members::Members;
use crate::requests::{Parsed, ReadError, Request};
use json::Scratch;
use qo_json::{Json, JsonError};
use qo_replies::json_text;
use qo_values::Code;
use serde_json::Value;
use std::alloc::{AllocError, Global};

/// Why a value is no request.
#[derive(Clone, Copy)]
pub(crate) enum Refusal {
    /// The first code that stands.
    Code(Code),
    /// Want of memory.
    Memory,
}

/// Whether a number in the value has a fraction or an exponent, or is out of range.
#[cycle(has_float)]
fn has_float(value: &Json<'_>) -> bool
    ensures { result ≡ has_float (view value.now) }
{
    match value {
        Json::Null | Json::Bool(_) | Json::String(_) => false,
        Json::Number(number) => number.is_f64(),
        Json::Array(items) => items_have_float(items),
        Json::Object(members) => members_have_float(members),
    }
}

#[cycle(has_float)]
fn items_have_float(items: &Vec<Json<'_>>) -> bool
    ensures { result ≡ items_have_float (items_view items.now.items) }
{
    for item in items {
        if has_float(item) {
            return true;
        }
    }
    false
}

#[cycle(has_float)]
fn members_have_float(members: &Vec<(&str, Json<'_>)>) -> bool
    ensures { result ≡ members_have_float (members_view members.now.items) }
{
    for member in members {
        if has_float(&member.1) {
            return true;
        }
    }
    false
}

/// Whether `backend`, where it is an object, has all its members.
fn backend_complete(backend: &Json<'_>) -> bool
    ensures { result ≡ backend_complete (view backend.now) }
{
    !backend.is_object() || ArgumentValues::of(backend_members(), backend).all_stand()
}

/// Whether `backend` and its `data` have no other members.
fn backend_closed(backend: &Json<'_>) -> bool
    ensures { result ≡ backend_closed (view backend.now) }
{
    let given = ArgumentValues::of(backend_members(), backend);
    let closed = given.has_only();
    match given.at(Field::Payload) {
        Some(payload) => closed && ArgumentValues::of(payload_members(), payload).has_only(),
        None => closed,
    }
}

/// Whether the members of `backend` and of its `data` are of their kinds.
fn backend_fits(backend: &Json<'_>) -> bool
    ensures { result ≡ backend_fits (view backend.now) }
{
    let given = ArgumentValues::of(backend_members(), backend);
    let fits = given.all_fit();
    match given.at(Field::Payload) {
        Some(payload) => fits && ArgumentValues::of(payload_members(), payload).all_fit(),
        None => fits,
    }
}

/// The `backend` of `chardev-add`, where it stands.
fn backend_of<'v, 'a>(command: Command, args: &ArgumentValues<'v, 'a>) -> Option<&'v Json<'a>>
    requires { AreGiven args.now }
    ensures { option_map (λ v. view v.now) result ≡ backend_of command (view args.now.place.now) }
{
    match command {
        Command::ChardevAdd => args.at(Field::Backend),
        _ => None,
    }
}

/// Whether each argument that must stand there does.
fn is_complete(command: Command, args: &ArgumentValues<'_, '_>) -> bool
    requires given { AreGiven args.now }
    requires rows { args.now.rows.now ≡ arguments command }
    ensures { result ≡ is_complete command (view args.now.place.now) }
{
    let complete = args.all_stand();
    match backend_of(command, args) {
        Some(backend) => complete && backend_complete(backend),
        None => complete,
    }
}

/// Whether no argument stands there that the command does not take.
fn is_closed(command: Command, args: &ArgumentValues<'_, '_>) -> bool
    requires given { AreGiven args.now }
    requires rows { args.now.rows.now ≡ arguments command }
    ensures { result ≡ is_closed command (view args.now.place.now) }
{
    let closed = command.is_open() || args.has_only();
    match backend_of(command, args) {
        Some(backend) => closed && backend_closed(backend),
        None => closed,
    }
}

/// Whether each argument is of its kind, and each further one a plain value.
fn is_fitting(command: Command, args: &ArgumentValues<'_, '_>) -> bool
    requires given { AreGiven args.now }
    requires rows { args.now.rows.now ≡ arguments command }
    ensures { result ≡ is_fitting command (view args.now.place.now) }
{
    let fits = args.all_fit() && (!command.is_open() || args.plain_beside());
    match backend_of(command, args) {
        Some(backend) => fits && backend_fits(backend),
        None => fits,
    }
}

/// A command with its arguments.
fn call_of(alloc: Global, command: Option<Command>, args: &Json<'_>) -> Result<Request, Refusal>
    requires { IsOrdered (view args.now) }
    ensures { GivesCode result (call_of command (view args.now)) }
{
    let Some(command) = command else {
        return Err(Refusal::Code(Code::E10));
    };
    let args = ArgumentValues::of(command.arguments(), args);
    if !is_complete(command, &args) {
        return Err(Refusal::Code(Code::E12));
    }
    if !is_closed(command, &args) {
        return Err(Refusal::Code(Code::E13));
    }
    if !is_fitting(command, &args) {
        return Err(Refusal::Code(Code::E14));
    }
    match request_of(alloc, command, &args) {
        Ok(request) => Ok(request),
        Err(AllocError) => Err(Refusal::Memory),
    }
}

/// The call that a message with this command and these arguments makes.
fn call_in(
    alloc: Global,
    command: Option<Command>,
    arguments: Option<&Json<'_>>,
) -> Result<Request, Refusal>
    requires { IsOrdered (unwrap_or (option_map (λ v. view v.now) arguments) null) }
    ensures { GivesCode result (call_of command (unwrap_or (option_map (λ v. view v.now) arguments.entry) null)) }
{
    match arguments {
        Some(args) => call_of(alloc, command, args),
        None => call_of(alloc, command, &Json::Null),
    }
}

/// The request that a value is, which has these members.
fn request_in(alloc: Global, value: &Json<'_>, members: Members<'_, '_>) -> Result<Request, Refusal>
    requires members { AreOf members (view value.now) }
    requires ordered { IsOrdered (view value.now) }
    ensures { GivesCode result (request_in (view value.now)) }
{
    if has_float(value) {
        return Err(Refusal::Code(Code::E7));
    }
    if !members.is_message() {
        return Err(Refusal::Code(Code::E6));
    }
    call_in(alloc, members.command(), members.arguments)
}

/// An id as its text in a reply, where no number of it is refused.
fn id_text(alloc: Global, id: Option<&Json<'_>>) -> Result<Option<qo_values::Text>, AllocError>
    ensures { IfOk result (λ text. text ≡ id_text (option_map (λ v. view v.now) id.entry)) }
{
    match id {
        Some(value) if !has_float(value) => Ok(Some(json_text(alloc, value)?)),
        _ => Ok(None),
    }
}

/// What the value of a message is read into.
fn read_value(alloc: Global, value: &Json<'_>) -> Result<Parsed, ReadError>
    requires { IsOrdered (view value.now) }
    ensures { Reads result (with_id (view value.now) (request_in (view value.now))) }
{
    let members = Members::of(value);
    let id = id_text(alloc, members.id)?;
    match request_in(alloc, value, members) {
        Ok(request) => Ok(Parsed { id, request }),
        Err(Refusal::Code(code)) => Err(ReadError::Refused {
            code,
            id,
            negotiates: members.name() == Some("qmp_capabilities"),
        }),
        Err(Refusal::Memory) => Err(ReadError::Memory),
    }
}

/// What is said of a text that is no JSON in UTF-8.
fn not_json() -> ReadError
    ensures { result ≡ Refused E1 None false }
{
    ReadError::Refused {
        code: Code::E1,
        id: None,
        negotiates: false,
    }
}

/// Reads a message that has an object with very many members, by a map of them.
#[tactic(auto, unfolding(crate::specs::Messages::command))]
fn read_wide(alloc: Global, bytes: &[u8]) -> Result<Parsed, ReadError>
    ensures { Reads result (command bytes.now) }
{
    match Value::from_slice(alloc, bytes) {
        Ok(value) => read_value(alloc, &Json::of(alloc, &value)?),
        Err(error) if error.is_memory() => Err(ReadError::Memory),
        Err(_) => Err(not_json()),
    }
}

/// Reads one message: the request with its id, or the first code that stands, exactly as `command`
/// defines it. E1: it is not JSON in UTF-8. E7: a number in it has a fraction or an exponent, or is
/// outside -2^63 to 2^64 - 1. E6: it has another member than `execute`, `arguments` and `id`,
/// `execute` is no text, or `arguments` no object. E10: there is no such command. E12: an argument
/// is missing. E13: an argument stands there that the command does not take. E14: an argument is of
/// another kind. `scratch` is room for what stands with escapes in the message; it is kept from call
/// to call.
#[tactic(auto, unfolding(crate::specs::Messages::command))]
pub fn read(alloc: Global, bytes: &[u8], scratch: &mut Scratch) -> Result<Parsed, ReadError>
    ensures { Reads result (command bytes.now) }
{
    match Json::read(alloc, bytes, scratch) {
        Ok(value) => read_value(alloc, &value),
        Err(JsonError::Wide) => read_wide(alloc, bytes),
        Err(JsonError::Memory) => Err(ReadError::Memory),
        Err(JsonError::Invalid) => Err(not_json()),
    }
}
