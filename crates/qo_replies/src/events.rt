//! Events: what a session is told unasked.

ghost use Rattle.std.specs.Prelude.{◌≡◌, ◌++◌, decimal, option_map, string_bytes, true, IfOk, OnOk};
ghost use Rattle.std.specs.List.{list_all};
ghost use Rattle.std.specs.Str.{IsAscii, IsUtf8};
ghost use Rattle.qo_replies.specs.Events.{before_path, before_reason, caused_event, device_name, ending, event_line, of_device, plain_event};
ghost use Rattle.qo_replies.specs.declared.events.Event.TheVariants.{Reset, Shutdown};
ghost use Rattle.qo_replies.specs.Json.{ascii, json};
ghost use Rattle.qo_replies.specs.PlainBytes.{is_plain_byte};
ghost use Rattle.qo_replies.specs.Replies.{line_end};

use crate::quoted::{push_plain, push_quoted};
use itoa::Buffer;
use qo_causes::Moment;
use qo_values::{Chars, Id, Text};
use std::alloc::{AllocError, Global};

/// The line of an event has about so many bytes.
const EVENT_BYTES: usize = 256;

/// What happened (QMP specification, 2.5 "Asynchronous events").
#[derive(Debug, Drop)]
pub enum Event {
    /// A device is finalized that had a path to it in the tree.
    DeviceDeleted { id: Option<Id>, path: Text },
    /// The guest refused to let a device go.
    DeviceUnplugGuestError { id: Option<Id>, path: Text },
    /// The machine was reset, by the guest or by a command.
    Reset { guest: bool },
    /// The run ends, by the guest or by a command.
    Shutdown { guest: bool },
    /// The machine stopped.
    Stop,
    /// The machine runs again.
    Resume,
}

/// Adds a number's decimal digits.
pub(crate) fn push_number(text: &mut String, number: u64) -> Result<(), AllocError>
    ensures bytes { OnOk result (string_bytes text.new ≡ string_bytes text.old ++ decimal number) }
    ensures spelled { IsAscii (decimal number) }
{
    let mut digits = Buffer::new();
    text.push_str(digits.format(number))?;
    Ok(())
}

/// Ends the line of an event, from its name on.
fn push_ending(text: &mut String, at: Moment, name: &str) -> Result<(), AllocError>
    requires { list_all is_plain_byte name.now ≡ true }
    ensures bytes { OnOk result (string_bytes text.new ≡ string_bytes text.old ++ (ending name.now at ++ line_end)) }
    ensures spelled { OnOk result (IsAscii (ending name.now at)) }
{
    text.push_str("\"event\":\"")?;
    text.push_str(name)?;
    text.push_str("\",\"timestamp\":{\"microseconds\":")?;
    push_number(text, u64::from(at.micros))?;
    text.push_str(",\"seconds\":")?;
    push_number(text, at.seconds)?;
    text.push_str("}}\r\n")?;
    Ok(())
}

/// Adds an event without data.
fn push_simple(text: &mut String, at: Moment, name: &str) -> Result<(), AllocError>
    requires { list_all is_plain_byte name.now ≡ true }
    ensures { OnOk result (string_bytes text.new ≡ string_bytes text.old ++ (json (plain_event at name.now) ++ line_end)) }
{
    text.push_str("{")?;
    push_ending(text, at, name)?;
    Ok(())
}

/// What stands before the reason of an event that one side caused.
fn before_reason(guest: bool) -> &'static str
    ensures { result.now ≡ before_reason guest }
{
    if guest {
        "{\"data\":{\"guest\":true,\"reason\":"
    } else {
        "{\"data\":{\"guest\":false,\"reason\":"
    }
}

/// Adds an event that one side caused.
fn push_caused(
    text: &mut String,
    at: Moment,
    guest: bool,
    reason: &str,
    name: &str,
) -> Result<(), AllocError>
    requires reason { list_all is_plain_byte reason.now ≡ true }
    requires name { list_all is_plain_byte name.now ≡ true }
    ensures { OnOk result (string_bytes text.new ≡ string_bytes text.old ++ (json (caused_event at guest reason.now name.now) ++ line_end)) }
{
    text.push_str(before_reason(guest))?;
    push_plain(text, reason)?;
    text.push_str("},")?;
    push_ending(text, at, name)?;
    Ok(())
}

#[tactic(auto, unfolding(crate::specs::Events::event_line))]
/// Adds that the machine was reset.
fn push_reset(text: &mut String, at: Moment, guest: bool) -> Result<(), AllocError>
    ensures { OnOk result (string_bytes text.new ≡ string_bytes text.old ++ event_line at (Reset guest)) }
{
    if guest {
        push_caused(text, at, true, "guest-reset", "RESET")
    } else {
        push_caused(text, at, false, "host-qmp-system-reset", "RESET")
    }
}

#[tactic(auto, unfolding(crate::specs::Events::event_line))]
/// Adds that the run ends.
fn push_shutdown(text: &mut String, at: Moment, guest: bool) -> Result<(), AllocError>
    ensures { OnOk result (string_bytes text.new ≡ string_bytes text.old ++ event_line at (Shutdown guest)) }
{
    if guest {
        push_caused(text, at, true, "guest-shutdown", "SHUTDOWN")
    } else {
        push_caused(text, at, false, "host-qmp-quit", "SHUTDOWN")
    }
}

/// Adds what stands before the path in an event of a device: its id, where it has one.
fn push_before_path(alloc: Global, text: &mut String, id: Option<&Id>) -> Result<(), AllocError>
    ensures bytes { OnOk result (string_bytes text.new ≡ string_bytes text.old ++ ascii (before_path (option_map (λ id. id.now) id.entry))) }
    ensures spelled { OnOk result (IsUtf8 (before_path (option_map (λ id. id.now) id.entry))) }
{
    match id {
        Some(id) => {
            text.push_str("{\"data\":{\"device\":")?;
            push_quoted(alloc, text, id.as_str())?;
            text.push_str(",\"path\":")?;
        }
        None => text.push_str("{\"data\":{\"path\":")?,
    }
    Ok(())
}

/// The name of an event of a device.
fn device_name(deleted: bool) -> &'static str
    ensures value { result.now ≡ device_name deleted }
    ensures plain { list_all is_plain_byte result.now ≡ true }
{
    if deleted {
        "DEVICE_DELETED"
    } else {
        "DEVICE_UNPLUG_GUEST_ERROR"
    }
}

/// Adds the line of an event of a device.
fn push_device(
    alloc: Global,
    text: &mut String,
    at: Moment,
    deleted: bool,
    id: Option<&Id>,
    path: &str,
) -> Result<(), AllocError>
    ensures { OnOk result (string_bytes text.new ≡ string_bytes text.old ++ event_line at (of_device deleted (option_map (λ id. id.now) id.entry) path.now)) }
{
    push_before_path(alloc, text, id)?;
    push_quoted(alloc, text, path)?;
    text.push_str("},")?;
    push_ending(text, at, device_name(deleted))?;
    Ok(())
}

#[tactic(auto, unfolding(crate::specs::Events::event_line))]
/// Adds the line of an event.
fn push_event(alloc: Global, text: &mut String, at: Moment, event: &Event) -> Result<(), AllocError>
    ensures { OnOk result (string_bytes text.new ≡ string_bytes text.old ++ event_line at event.now) }
{
    match event {
        Event::DeviceDeleted { id, path } => {
            push_device(alloc, text, at, true, id.as_ref(), path.as_str())
        }
        Event::DeviceUnplugGuestError { id, path } => {
            push_device(alloc, text, at, false, id.as_ref(), path.as_str())
        }
        Event::Reset { guest } => push_reset(text, at, *guest),
        Event::Shutdown { guest } => push_shutdown(text, at, *guest),
        Event::Stop => push_simple(text, at, "STOP"),
        Event::Resume => push_simple(text, at, "RESUME"),
    }
}

/// The line of an event, stamped by the moment of the input that made it.
pub fn event_text(alloc: Global, at: Moment, event: &Event) -> Result<Chars, AllocError>
    ensures { IfOk result (λ line. line ≡ event_line at event.now) }
{
    let mut text = String::with_capacity(alloc, EVENT_BYTES)?;
    push_event(alloc, &mut text, at, event)?;
    Ok(Chars::from_vec(text.into_bytes()))
}

/// The line of an event on a device, by its parts: that it was deleted, or if not, that the guest
/// refused to let it go.
pub fn device_event_text(
    alloc: Global,
    at: Moment,
    deleted: bool,
    id: Option<&Id>,
    path: &str,
) -> Result<Chars, AllocError>
    ensures { IfOk result (λ line. line ≡ event_line at (of_device deleted (option_map (λ id. id.now) id.entry) path.now)) }
{
    let mut text = String::with_capacity(alloc, EVENT_BYTES)?;
    push_device(alloc, &mut text, at, deleted, id, path)?;
    Ok(Chars::from_vec(text.into_bytes()))
}
