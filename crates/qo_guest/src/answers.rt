//! The answers to guest lines, and their texts.

ghost use Rattle.std.specs.Prelude.{◌≡◌, IfOk, Some};
ghost use Rattle.qo_guest.specs.Answers.{text_of};

use crate::addresses::Addr;
use qo_values::Chars;
use std::alloc::{AllocError, Global};
use std::fmt;

/// What a guest line is answered.
#[derive(Clone, Copy, Debug, PartialEq, Eq)]
pub enum GuestAnswer {
    /// It is done.
    Fine,
    /// The device at the address was plugged.
    Plug(Addr),
    /// The device at the address is to be unplugged.
    Unplug(Addr),
    /// No notice waits.
    NoNotice,
    /// A register's value.
    Value(u32),
    /// The line is unreadable.
    NoLine,
    /// The machine does not run.
    NoStopped,
    /// Nothing shows at the hardware address.
    NoAddress,
    /// No device is at the address.
    NoDevice,
    /// The device has no removal pending.
    NoPending,
    /// The device has no such register.
    NoRegister,
    /// Memory ran out.
    NoMemory,
}

impl fmt::Display for GuestAnswer {
    ghost output = { λ answer. Some (text_of answer) };

    fn fmt<W: fmt::Write>(&self, f: &mut fmt::Formatter<W>) -> fmt::Result {
        match self {
            GuestAnswer::Fine => write!(f, "ok"),
            GuestAnswer::Plug(at) => write!(f, "ok plug {at}"),
            GuestAnswer::Unplug(at) => write!(f, "ok unplug {at}"),
            GuestAnswer::NoNotice => write!(f, "ok none"),
            GuestAnswer::Value(value) => {
                let value = *value;
                write!(f, "ok 0x{value:08x}")
            }
            GuestAnswer::NoLine => write!(f, "no line"),
            GuestAnswer::NoStopped => write!(f, "no stopped"),
            GuestAnswer::NoAddress => write!(f, "no address"),
            GuestAnswer::NoDevice => write!(f, "no device"),
            GuestAnswer::NoPending => write!(f, "no pending"),
            GuestAnswer::NoRegister => write!(f, "no register"),
            GuestAnswer::NoMemory => write!(f, "no memory"),
        }
    }
}

/// The text of an answer, without a line end.
pub fn answer_text(alloc: Global, answer: &GuestAnswer) -> Result<Chars, AllocError>
    ensures { IfOk result (λ text. text ≡ text_of answer.now) }
{
    let text = answer.to_string(alloc)?;
    Ok(Chars::from_vec(text.into_bytes()))
}
