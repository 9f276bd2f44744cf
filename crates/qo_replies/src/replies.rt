//! The greeting and the replies.

ghost use Rattle.std.specs.Prelude.{◌≡◌, ◌++◌, [], codes, false, option_map, string_bytes, IfOk, OnOk};
ghost use Rattle.serde_json.specs.Data.{Data};
ghost use Rattle.serde_json.specs.View.{view};
ghost use Rattle.serde_json.specs.Written.{has_float};
ghost use Rattle.qo_replies.specs.Json.{json};
ghost use Rattle.qo_replies.specs.Replies.{error_reply, greeting, greeting_data, id_member, line_end, return_reply, version_data};

use crate::written::push_json;
use qo_values::{Chars, Code, Text};
use serde_json::{Value, json};
use std::alloc::{AllocError, Global};

/// A reply has about so many bytes beside its value and its id.
const REPLY_BYTES: usize = 128;

/// The version that the greeting and `query-version` tell.
pub fn version(alloc: Global) -> Result<Value, AllocError>
    ensures { IfOk result (λ v. view v ≡ version_data) }
{
    json!(in alloc; {"package": "compose", "qemu": {"major": 1u64, "micro": 0u64, "minor": 0u64}})
}

/// What the greeting tells: the version, and that no capability is offered.
fn greeting_value(alloc: Global) -> Result<Value, AllocError>
    ensures { IfOk result (λ v. view v ≡ greeting_data) }
{
    let version = version(alloc)?;
    json!(in alloc; {"QMP": {"capabilities": [], "version": version}})
}

/// A value as a line of its own.
pub(crate) fn json_line(alloc: Global, value: &Value) -> Result<Chars, AllocError>
    ensures { IfOk result (λ line. has_float (view value.now) ≡ false → line ≡ json (view value.now) ++ line_end) }
{
    let mut text = String::with_capacity(alloc, REPLY_BYTES)?;
    push_json(alloc, &mut text, value)?;
    text.push_str("\r\n")?;
    Ok(Chars::from_vec(text.into_bytes()))
}

#[tactic(auto, unfolding(crate::specs::Replies::greeting))]
/// What is sent when a session opens.
pub fn greeting(alloc: Global) -> Result<Chars, AllocError>
    ensures { IfOk result (λ line. line ≡ greeting) }
{
    let value = greeting_value(alloc)?;
    json_line(alloc, &value)
}

/// The member `id`, if there is one, between two texts.
fn push_id(
    text: &mut String,
    id: Option<&Text>,
    before: &str,
    after: &str,
) -> Result<(), AllocError>
    ensures { OnOk result (string_bytes text.new ≡ string_bytes text.old ++ id_member (option_map (λ id. id.now) id.entry) before.now after.now) }
{
    if let Some(id) = id {
        text.push_str(before)?;
        text.push_str("\"id\":")?;
        text.push_str(id.as_str())?;
        text.push_str(after)?;
    }
    Ok(())
}

/// Begins a reply to a command that was done, up to what it returns.
#[inline(always)]
fn push_opening(text: &mut String, id: Option<&Text>) -> Result<(), AllocError>
    ensures { OnOk result (string_bytes text.new ≡ string_bytes text.old ++ (codes "{" ++ id_member (option_map (λ id. id.now) id.entry) [] (codes ",") ++ codes "\"return\":")) }
{
    match id {
        Some(id) => {
            text.push_str("{\"id\":")?;
            text.push_str(id.as_str())?;
            text.push_str(",\"return\":")?;
        }
        None => text.push_str("{\"return\":")?,
    }
    Ok(())
}

#[tactic(auto, unfolding(crate::specs::Replies::return_reply))]
/// The reply to a command that was done. Its id is given as its text.
pub fn return_text(alloc: Global, id: Option<&Text>, value: &Value) -> Result<Chars, AllocError>
    ensures { IfOk result (λ line. has_float (view value.now) ≡ false → line ≡ return_reply (option_map (λ id. id.now) id.entry) (view value.now)) }
{
    let mut text = String::with_capacity(alloc, REPLY_BYTES)?;
    push_opening(&mut text, id)?;
    push_json(alloc, &mut text, value)?;
    text.push_str("}\r\n")?;
    Ok(Chars::from_vec(text.into_bytes()))
}

#[tactic(auto, unfolding(crate::specs::Replies::return_reply))]
/// The reply to a command that was done, with a value whose text is written already. Its id is given as its text.
pub fn return_written(alloc: Global, id: Option<&Text>, written: &str) -> Result<Chars, AllocError>
    ensures { IfOk result (λ line. (value : Data) → written.now ≡ json value → line ≡ return_reply (option_map (λ id. id.now) id.entry) value) }
{
    let room = REPLY_BYTES.saturating_add(written.len());
    let mut text = String::with_capacity(alloc, room)?;
    push_opening(&mut text, id)?;
    text.push_str(written)?;
    text.push_str("}\r\n")?;
    Ok(Chars::from_vec(text.into_bytes()))
}

#[tactic(auto, unfolding(crate::specs::Replies::error_reply))]
/// The reply to a message that was refused. Its id is given as its text.
pub fn error_text(alloc: Global, id: Option<&Text>, code: Code) -> Result<Chars, AllocError>
    ensures { IfOk result (λ line. line ≡ error_reply (option_map (λ id. id.now) id.entry) code) }
{
    let mut text = String::with_capacity(alloc, REPLY_BYTES)?;
    text.push_str("{\"error\":{\"class\":\"")?;
    text.push_str(code.class().name())?;
    text.push_str("\",\"desc\":\"")?;
    text.push_str(code.description())?;
    text.push_str("\"}")?;
    push_id(&mut text, id, ",", "")?;
    text.push_str("}\r\n")?;
    Ok(Chars::from_vec(text.into_bytes()))
}
