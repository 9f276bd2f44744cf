//! Claims, and the book of them.

ghost use Rattle.std.specs.Prelude.{◌≡◌};
ghost use Rattle.qo_claims.specs.Book.{at_of};

use crate::births::Births;
use crate::errors::ClaimError;
use crate::ids::Ids;
use crate::ranges::Ranges;
use crate::slots::{BusSlot, Slots};
use qo_values::{Id, Range, Text};
use std::alloc::Global;
use std::marker::Model;

/// What a claim is on.
#[derive(Debug, Drop)]
pub enum Claimed {
    /// The id of a device.
    Device(Text),
    /// A slot of a bus.
    Slot(BusSlot),
    /// The ring of an id, for its bytes.
    Ring(Text),
    /// The memory backend of a birth.
    Backend(u64),
    /// A range of addresses.
    Range(Range),
}

/// A claim that was taken. It can't be let go: it is spent by `keep` or `Claims::give_back`.
pub struct Claim {
    what: Claimed,
}

/// A claim that is kept. It can't be let go: it is spent by `Claims::free`.
pub struct Kept {
    what: Claimed,
}

/// What is held. A claim on it is made by one of the calls `take_..`, and ends by `give_back`, or
/// by `free` where it was kept.
#[derive(Drop)]
pub struct Claims {
    devices: Ids,
    slots: Slots,
    rings: Ids,
    backends: Births,
    ranges: Ranges,
}

impl Model for Claim {
    ghost use Rattle.qo_claims.specs.declared.claims.Claimed.{Claimed};

    ghost Value = { Claimed };

    ghost view = { λ c. c.what };
}

impl Model for Kept {
    ghost use Rattle.qo_claims.specs.declared.claims.Claimed.{Claimed};

    ghost Value = { Claimed };

    ghost view = { λ k. k.what };
}

impl Model for Claims {
    ghost use Rattle.qo_claims.specs.Book.{ClaimsTaken};

    ghost Value = { ClaimsTaken };

    ghost view = { λ c. record {
      devices = c.devices;
      slots = c.slots;
      rings = c.rings;
      backends = c.backends;
      ranges = c.ranges;
    } };
}

/// The slot or the address that is claimed.
fn at(what: &Claimed) -> u64
    ensures { result ≡ at_of what.now }
{
    match what {
        Claimed::Slot(slot) => u64::from(slot.slot),
        Claimed::Range(range) => range.at,
        _ => 0,
    }
}

/// Keeps a claim. It takes no memory.
pub fn keep(claim: Claim) -> Kept
    ensures { result ≡ claim }
{
    let Claim { what } = claim;
    Kept { what }
}

impl Claim {
    ghost use Rattle.qo_claims.specs.Book.{at_of};

    /// The slot or the address that is claimed, and 0 for any other claim. It takes no memory.
    pub fn at(&self) -> u64
        ensures { result ≡ at_of self.now }
    {
        at(&self.what)
    }
}

impl Kept {
    ghost use Rattle.qo_claims.specs.Book.{at_of, size_of};

    /// The slot or the address that is claimed, and 0 for any other claim. It takes no memory.
    pub fn at(&self) -> u64
        ensures { result ≡ at_of self.now }
    {
        at(&self.what)
    }

    /// The size of the range that is claimed, and 0 for any other claim. It takes no memory.
    pub fn size(&self) -> u64
        ensures { result ≡ size_of self.now }
    {
        match &self.what {
            Claimed::Range(range) => range.size,
            _ => 0,
        }
    }
}

impl Claims {
    ghost use Rattle.std.specs.Prelude.{◌≡◌, ◌≤◌};
    ghost use Rattle.qo_claims.specs.declared.claims.Claimed.TheVariants as on;
    ghost use Rattle.qo_claims.specs.Answers.{Took, on_whole};
    ghost use Rattle.qo_claims.specs.Lists.{bus_slot, id_answer, birth_answer, least_free, slot_answer, range_answer};
    ghost use Rattle.qo_claims.specs.Book.{is_taken, nothing_taken, with_claim, without_claim};

    /// A book in which nothing is held. It takes memory only by the calls `take_..`.
    pub fn new(alloc: Global) -> Claims
        ensures { result ≡ nothing_taken }
    {
        Claims {
            devices: Ids::new(alloc),
            slots: Slots::new(alloc),
            rings: Ids::new(alloc),
            backends: Births::new(alloc),
            ranges: Ranges::new(alloc),
        }
    }

    /// Whether the id of a device is held. It takes no memory.
    pub fn is_id_taken(&self, id: &str) -> bool
        ensures { result ≡ is_taken (on.Device id.now) self.now }
    {
        self.devices.has(id)
    }

    /// Whether a slot of the bus of a birth is held. It takes no memory.
    pub fn is_slot_taken(&self, bus: u64, slot: u8) -> bool
        ensures { result ≡ is_taken (on.Slot (bus_slot bus slot)) self.now }
    {
        self.slots.has(&BusSlot { bus, slot })
    }

    /// The least slot that is free on the bus of a birth; `None` exactly where all are held. It takes no
    /// memory.
    pub fn free_slot(&self, bus: u64) -> Option<u8>
        ensures { result ≡ least_free bus self.now.slots }
    {
        self.slots.least_free(bus)
    }

    /// Whether the ring of an id is held. It takes no memory.
    pub fn is_ring_taken(&self, id: &str) -> bool
        ensures { result ≡ is_taken (on.Ring id.now) self.now }
    {
        self.rings.has(id)
    }

    /// Whether the memory backend of a birth is held. It takes no memory.
    pub fn is_backend_taken(&self, birth: u64) -> bool
        ensures { result ≡ is_taken (on.Backend birth) self.now }
    {
        self.backends.has(birth)
    }

    /// The ranges that are held, by rising addresses. It takes no memory.
    pub fn ranges(&self) -> &[Range]
        ensures { result.now ≡ self.now.ranges }
    {
        self.ranges.list()
    }

    /// Claims the id of a device; `Taken` exactly where it is taken. An error leaves all as it was.
    pub fn take_id(&mut self, id: &Id) -> Result<Claim, ClaimError>
        ensures { Took (on_whole on.Device (id_answer id.now self.old.devices)) (λ claim. with_claim claim self.old) self.old self.new result }
    {
        let id = self.devices.take(id.as_str())?;
        Ok(Claim {
            what: Claimed::Device(id),
        })
    }

    /// Claims a slot of a bus: the named one, or the least that is free. `Range` exactly where the
    /// named one is not below `BUS_SLOTS`, `Taken` exactly where it is taken, `Full` exactly where none
    /// is named and all are held. An error leaves all as it was.
    pub fn take_slot(&mut self, bus: u64, slot: Option<u8>) -> Result<Claim, ClaimError>
        ensures { Took (on_whole on.Slot (slot_answer bus slot self.old.slots)) (λ claim. with_claim claim self.old) self.old self.new result }
    {
        let slot = self.slots.take(bus, slot)?;
        Ok(Claim {
            what: Claimed::Slot(slot),
        })
    }

    /// Claims the ring of an id; `Taken` exactly where it is taken. An error leaves all as it was.
    pub fn take_ring(&mut self, id: &Id) -> Result<Claim, ClaimError>
        ensures { Took (on_whole on.Ring (id_answer id.now self.old.rings)) (λ claim. with_claim claim self.old) self.old self.new result }
    {
        let id = self.rings.take(id.as_str())?;
        Ok(Claim {
            what: Claimed::Ring(id),
        })
    }

    /// Claims the memory backend of a birth; `Taken` exactly where it is taken. An error leaves all as
    /// it was.
    pub fn take_backend(&mut self, birth: u64) -> Result<Claim, ClaimError>
        ensures { Took (on_whole on.Backend (birth_answer birth self.old.backends)) (λ claim. with_claim claim self.old) self.old self.new result }
    {
        let birth = self.backends.take(birth)?;
        Ok(Claim {
            what: Claimed::Backend(birth),
        })
    }

    /// Claims a range of `size` bytes: at the named address, or at its place, a multiple of `DIMM_ALIGN`.
    /// `Range` exactly where the named one leaves the window, `Taken` exactly where it overlaps one
    /// that is held, `Full` exactly where none is named and there is no place. An error leaves all as
    /// it was.
    pub fn take_range(&mut self, at: Option<u64>, size: u64) -> Result<Claim, ClaimError>
        requires { 1 ≤ size }
        ensures { Took (on_whole on.Range (range_answer at size self.old.ranges)) (λ claim. with_claim claim self.old) self.old self.new result }
    {
        let range = self.ranges.take(at, size)?;
        Ok(Claim {
            what: Claimed::Range(range),
        })
    }

    /// Ends a claim, where it is taken. It takes no memory.
    pub fn give_back(&mut self, claim: Claim)
        ensures { self.new ≡ without_claim claim self.old }
    {
        let Claim { what } = claim;
        self.end(what);
    }

    /// Ends a kept claim, where it is taken. It takes no memory.
    pub fn free(&mut self, kept: Kept)
        ensures { self.new ≡ without_claim kept self.old }
    {
        let Kept { what } = kept;
        self.end(what);
    }

    fn end(&mut self, what: Claimed)
        ensures { self.new ≡ without_claim what self.old }
    {
        match what {
            Claimed::Device(id) => self.devices.give_back(id.as_str()),
            Claimed::Slot(slot) => self.slots.give_back(&slot),
            Claimed::Ring(id) => self.rings.give_back(id.as_str()),
            Claimed::Backend(birth) => self.backends.give_back(birth),
            Claimed::Range(range) => self.ranges.give_back(range),
        }
    }
}
