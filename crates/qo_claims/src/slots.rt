//! The slots of buses that are held.

use crate::errors::ClaimError;
use indexmap::IndexSet;
use qo_values::BUS_SLOTS;
use std::alloc::{AllocError, Global};
use std::marker::Model;

/// A slot of a bus.
#[derive(Clone, Copy, Debug, PartialEq, Eq, Hash)]
pub struct BusSlot {
    /// The birth of the bus.
    pub bus: u64,
    /// The slot, below `BUS_SLOTS`.
    pub slot: u8,
}

/// Slots of buses, each once, in the order of the claims on them.
#[derive(Drop)]
pub struct Slots {
    set: IndexSet<BusSlot>,
}

impl Model for Slots {
    ghost use Rattle.std.specs.Prelude.{List};
    ghost use Rattle.qo_claims.specs.declared.slots.BusSlot.{BusSlot};

    ghost Value = { List BusSlot };

    ghost view = { λ s. s.set.keys };
}

impl Slots {
    ghost use Rattle.std.specs.Prelude.{◌≡◌, [], ◌∷◌, ◌++◌, false, IfOk, OnOk, OnErr};
    ghost use Rattle.qo_claims.specs.Answers.{Took};
    ghost use Rattle.qo_claims.specs.Lists.{has_bus_slot, without_bus_slot, least_free, slot_answer};

    pub fn new(alloc: Global) -> Slots
        ensures { result ≡ [] }
    {
        Slots {
            set: IndexSet::new(alloc),
        }
    }

    /// Whether a slot is held.
    pub fn has(&self, slot: &BusSlot) -> bool
        ensures { result ≡ has_bus_slot slot.now self.now }
    {
        self.set.contains(slot)
    }

    /// The least slot that is free on a bus.
    pub fn least_free(&self, bus: u64) -> Option<u8>
        ensures { result ≡ least_free bus self.now }
    {
        for slot in 0..BUS_SLOTS {
            if !self.has(&BusSlot { bus, slot }) {
                return Some(slot);
            }
        }
        None
    }

    /// Adds a slot that is not held. An error adds nothing.
    fn add(&mut self, slot: BusSlot) -> Result<(), AllocError>
        requires { has_bus_slot slot self.old ≡ false }
        ensures added { OnOk result (self.new ≡ self.old ++ slot ∷ []) }
        ensures err { OnErr result (self.new ≡ self.old) }
    {
        self.set.insert(slot)?;
        Ok(())
    }

    /// The slot to claim: the one that is named, or the least free.
    fn choose(&self, bus: u64, slot: Option<u8>) -> Result<BusSlot, ClaimError>
        ensures answer { result ≡ slot_answer bus slot self.now }
        ensures free { IfOk result (λ slot. has_bus_slot slot self.now ≡ false) }
    {
        let Some(slot) = slot else {
            return match self.least_free(bus) {
                Some(slot) => Ok(BusSlot { bus, slot }),
                None => Err(ClaimError::Full),
            };
        };
        let named = BusSlot { bus, slot };
        if slot >= BUS_SLOTS {
            return Err(ClaimError::Range);
        }
        if self.has(&named) {
            return Err(ClaimError::Taken);
        }
        Ok(named)
    }

    /// Claims a slot of a bus, the named one or the least free. An error claims nothing.
    pub fn take(&mut self, bus: u64, slot: Option<u8>) -> Result<BusSlot, ClaimError>
        ensures { Took (slot_answer bus slot self.old) (λ slot. self.old ++ slot ∷ []) self.old self.new result }
    {
        let chosen = self.choose(bus, slot)?;
        self.add(chosen)?;
        Ok(chosen)
    }

    /// Ends the claim on a slot, where it is taken. It takes no memory.
    pub fn give_back(&mut self, slot: &BusSlot)
        ensures { self.new ≡ without_bus_slot slot.now self.old }
    {
        self.set.shift_remove(slot);
    }
}
