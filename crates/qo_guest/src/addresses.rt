//! Where a guest's act is aimed: the slots on the way to a device, or a memory slot.

ghost use Rattle.std.specs.Prelude.{◌≡◌, ◌≤◌, ◌<◌, [], ◌∷◌, ◌++◌, length, Some};
ghost use Rattle.qo_guest.specs.Answers.{steps_text, address_text};

use std::fmt;
use std::marker::Model;

/// The most slots on the way to a device: one of the root bus, and one for each bridge below it, of
/// which there are at most `BUS_DEPTH_MAX`.
pub const STEPS_MAX: usize = 9;

/// The slots on the way from the root bus to a device, 1 to `STEPS_MAX` of them, outermost first.
#[derive(Clone, Copy, Debug, PartialEq, Eq)]
pub struct SlotPath {
    slots: [u8; STEPS_MAX],
    count: usize,
}

impl Model for SlotPath {
    ghost use Rattle.std.specs.Prelude.{List, ℕ, length, take};
    ghost use Rattle.qo_guest.specs.Padding.{IsPadded, padded_steps, padded_again};

    ghost Value = { List ℕ };

    ghost view = { λ s. take s.count s.slots };

    ghost invariant = { λ s. IsPadded s.slots s.count };

    ghost inverse = { λ steps. record { slots = padded_steps steps; count = length steps } };

    ghost inverse_ok = { λ s h. padded_again s h };
}

impl SlotPath {
    /// The one slot of a device on the root bus.
    pub fn one(slot: u8) -> SlotPath
        ensures { result ≡ slot ∷ [] }
    {
        let mut slots = [0; STEPS_MAX];
        slots[0] = slot;
        SlotPath { slots, count: 1 }
    }

    /// Goes one slot further. It takes no memory.
    pub fn push(&mut self, slot: u8)
        requires { length self.old < STEPS_MAX }
        ensures { self.new ≡ self.old ++ slot ∷ [] }
    {
        self.slots[self.count] = slot;
        self.count += 1;
    }

    /// The slots as a slice. It takes no memory.
    pub fn as_slice(&self) -> &[u8]
        ensures value { result.now ≡ self.now }
        ensures within { (1 ≤ length self.now) × (length self.now ≤ STEPS_MAX) }
    {
        &self.slots[..self.count]
    }
}

impl fmt::Display for SlotPath {
    ghost output = { λ steps. Some (steps_text steps) };

    fn fmt<W: fmt::Write>(&self, f: &mut fmt::Formatter<W>) -> fmt::Result {
        let [first, others @ ..] = self.as_slice() else {
            unreachable!()
        };
        write!(f, "{first}")?;
        for slot in others {
            write!(f, ".{slot}")?;
        }
        Ok(())
    }
}

/// An address on a guest line.
#[derive(Clone, Copy, Debug, PartialEq, Eq)]
pub enum Addr {
    /// The slots from the root bus down.
    Slots(SlotPath),
    /// A memory slot.
    Mem(u8),
}

impl fmt::Display for Addr {
    ghost output = { λ at. Some (address_text at) };

    fn fmt<W: fmt::Write>(&self, f: &mut fmt::Formatter<W>) -> fmt::Result {
        match self {
            Addr::Slots(steps) => write!(f, "{steps}"),
            Addr::Mem(number) => write!(f, "m{number}"),
        }
    }
}
