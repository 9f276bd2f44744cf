//! The lines that a guest sends, and the acts that they are.

ghost use Rattle.std.specs.Prelude.{◌≡◌, [], ◌∷◌, option_copied};
ghost use Rattle.std.specs.Result.{result_ok};
ghost use Rattle.qo_guest.specs.Addresses.{pieces};
ghost use Rattle.qo_guest.specs.Pieces.{pieces_after};
ghost use Rattle.qo_guest.specs.Lines.{lone_act, pending_act, register_act, aimed_act, is_memory_verb, memory_act, act_of, guest_line};

use crate::addresses::Addr;
use crate::words::{read_address, read_hwaddr, read_number, read_value, split_piece};
use qo_values::GUEST_LINE_MAX;
use thiserror::Error;

/// What a guest asks for.
#[derive(Clone, Copy, Debug, PartialEq, Eq)]
pub enum GuestAct {
    /// Lets the device be removed.
    Ack(Addr),
    /// Refuses the removal of the device.
    Nack(Addr),
    /// Takes the oldest notice.
    Poll,
    /// Reads a register of the device.
    Read(Addr, u8),
    /// Writes a register of the device.
    Write(Addr, u8, u32),
    /// Reads the register that shows at a hardware address.
    Peek(u64),
    /// Writes the register that shows at a hardware address.
    Poke(u64, u32),
    /// Reads the interrupt lines of the devices on the root bus.
    Irq,
    /// Resets the machine.
    Reset,
    /// Ends the run.
    Shutdown,
}

/// A line that is no act.
#[derive(Clone, Copy, Debug, PartialEq, Eq, Error)]
#[error("guest line unreadable")]
pub struct GuestBad;

/// The act of a line of one word.
fn lone_act(verb: &[u8]) -> Option<GuestAct>
    ensures { result ≡ lone_act verb.now }
{
    match verb {
        b"poll" => Some(GuestAct::Poll),
        b"irq" => Some(GuestAct::Irq),
        b"reset" => Some(GuestAct::Reset),
        b"shutdown" => Some(GuestAct::Shutdown),
        _ => None,
    }
}

/// The act of a verb with an address.
fn pending_act(verb: &[u8], at: Addr) -> Option<GuestAct>
    ensures { result ≡ pending_act verb.now at }
{
    match verb {
        b"ack" => Some(GuestAct::Ack(at)),
        b"nack" => Some(GuestAct::Nack(at)),
        _ => None,
    }
}

/// The act of a verb with an address, a register and a value's word.
fn write_act(verb: &[u8], at: Addr, register: u8, word: &[u8]) -> Option<GuestAct>
    ensures { result ≡ register_act verb.now at register (word.now ∷ []) }
{
    match verb {
        b"write" => Some(GuestAct::Write(at, register, read_value(word)?)),
        _ => None,
    }
}

/// The act of a verb with an address and a register.
fn register_act(verb: &[u8], at: Addr, register: u8, after: Option<&[u8]>) -> Option<GuestAct>
    ensures { result
        ≡ register_act verb.now at register (pieces_after 32 (option_copied after.entry)) }
{
    let Some(rest) = after else {
        return match verb {
            b"read" => Some(GuestAct::Read(at, register)),
            _ => None,
        };
    };
    match split_piece(rest, b' ') {
        (word, None) => write_act(verb, at, register, word),
        (_, Some(_)) => None,
    }
}

/// The act of a verb with an address.
fn aimed_act(verb: &[u8], at: Addr, after: Option<&[u8]>) -> Option<GuestAct>
    ensures { result ≡ aimed_act verb.now at (pieces_after 32 (option_copied after.entry)) }
{
    let Some(rest) = after else {
        return pending_act(verb, at);
    };
    let (word, after) = split_piece(rest, b' ');
    register_act(verb, at, read_number(word)?, after)
}

/// Whether a verb takes a hardware address.
fn is_memory_verb(verb: &[u8]) -> bool
    ensures { result ≡ is_memory_verb verb.now }
{
    matches!(verb, b"peek" | b"poke")
}

/// The act of a verb with a hardware address and a value's word.
fn poke_act(verb: &[u8], at: u64, word: &[u8]) -> Option<GuestAct>
    ensures { result ≡ memory_act verb.now at (word.now ∷ []) }
{
    match verb {
        b"poke" => Some(GuestAct::Poke(at, read_value(word)?)),
        _ => None,
    }
}

/// The act of a verb with a hardware address.
fn memory_act(verb: &[u8], at: u64, after: Option<&[u8]>) -> Option<GuestAct>
    ensures { result ≡ memory_act verb.now at (pieces_after 32 (option_copied after.entry)) }
{
    let Some(rest) = after else {
        return match verb {
            b"peek" => Some(GuestAct::Peek(at)),
            _ => None,
        };
    };
    match split_piece(rest, b' ') {
        (word, None) => poke_act(verb, at, word),
        (_, Some(_)) => None,
    }
}

/// The act that the words of a line are.
fn read_act(line: &[u8]) -> Option<GuestAct>
    ensures { result ≡ act_of (pieces 32 line.now) }
{
    let (verb, after) = split_piece(line, b' ');
    let Some(rest) = after else {
        return lone_act(verb);
    };
    let (word, after) = split_piece(rest, b' ');
    if is_memory_verb(verb) {
        return memory_act(verb, read_hwaddr(word)?, after);
    }
    aimed_act(verb, read_address(word)?, after)
}

/// The act that a line is; `GuestBad` exactly where it is none. It takes no memory. The line is
/// without its line end.
pub fn read_line(bytes: &[u8]) -> Result<GuestAct, GuestBad>
    ensures { result_ok result ≡ guest_line bytes.now }
{
    if bytes.len() as u64 > GUEST_LINE_MAX {
        return Err(GuestBad);
    }
    match read_act(bytes) {
        Some(act) => Ok(act),
        None => Err(GuestBad),
    }
}
