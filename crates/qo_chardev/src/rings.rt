//! The rings.

ghost use Rattle.std.specs.Prelude.{◌≡◌, IfOk, map};

use crate::errors::{RingAddError, RingTakeError};
use crate::named_ring::NamedRing;
use crate::ring::{Ring, RingError};
use qo_values::{Form, Id, Text};
use std::alloc::{AllocError, Global};
use std::marker::Model;

/// The size of a ring, in bytes, for which none is given.
pub const RING_SIZE_DEFAULT: u64 = 65_536;

/// The rings of a board, in the order of adding. No two have the same id.
#[derive(Drop)]
pub struct Rings {
    list: Vec<NamedRing>,
}

impl Model for Rings {
    ghost use Rattle.std.specs.Prelude.{List};
    ghost use Rattle.qo_model.specs.Board.{Ring};
    ghost use Rattle.qo_chardev.specs.Rings.{IdsDiffer};

    ghost Value = { List Ring };

    ghost view = { λ r. r.list.items };

    ghost invariant = { λ r. IdsDiffer r.list.items };
}

/// The ids and sizes of rings, one after another.
fn rows_of(rings: &[NamedRing], alloc: Global) -> Result<Vec<(Text, u64)>, AllocError>
    ensures { IfOk result (λ rows. rows.items ≡ map (λ r. (r.id, r.size)) rings.now) }
{
    let mut rows = Vec::new(alloc);
    for ring in rings {
        rows.push(ring.row(alloc)?)?;
    }
    Ok(rows)
}

impl Rings {
    ghost use Rattle.std.specs.Prelude.{◌≡◌, [], ◌∷◌, ◌++◌, false, None, Some, IfOk, IsSome, OnOk, OnErr, map, option_map};
    ghost use Rattle.std.specs.List.{list_any, position};
    ghost use Rattle.qo_values.specs.Rings.{is_ring_size, ring_drop, ring_push};
    ghost use Rattle.qo_chardev.specs.declared.ring.RingError.TheVariants as bad;
    ghost use Rattle.qo_chardev.specs.declared.errors.RingAddError.TheVariants as adding;
    ghost use Rattle.qo_chardev.specs.declared.errors.RingTakeError.TheVariants as taking;
    ghost use Rattle.qo_chardev.specs.Rings.{Gains, given_bytes, is_ring, new_ring, ring_changed, ring_named, ring_text, without_ring};

    /// No rings. It takes no memory.
    pub fn new(alloc: Global) -> Rings
        ensures { result ≡ [] }
    {
        Rings {
            list: Vec::new(alloc),
        }
    }

    /// The id of the ring of an id, as it is kept; `None` exactly where there is none. It takes no
    /// memory.
    pub fn id(&self, id: &str) -> Option<&Id>
        ensures { option_map (λ i. i.now) result ≡ option_map (λ r. r.id) (ring_named id.now self.now) }
    {
        let at = self.place(id)?;
        Some(self.list[at].id())
    }

    /// Whether there is a ring of an id. It takes no memory.
    pub fn has(&self, id: &str) -> bool
        ensures { result ≡ list_any (is_ring id.now) self.now }
    {
        self.list.iter().any(|kept| kept.is(id))
    }

    /// The rings, each its id and its size, in the order of adding. The error is want of memory.
    pub fn rows(&self, alloc: Global) -> Result<Vec<(Text, u64)>, AllocError>
        ensures { IfOk result (λ rows. rows.items ≡ map (λ r. (r.id, r.size)) self.now) }
    {
        rows_of(self.list.as_slice(), alloc)
    }

    /// The place of the ring of an id.
    fn place(&self, id: &str) -> Option<usize>
        ensures { result ≡ position (is_ring id.now) self.now }
    {
        self.list.iter().position(|kept| kept.is(id))
    }

    /// Adds a ring of a size under an id that no other has, without bytes; `BadSize` exactly where the
    /// size is no power of two from 1 to `RING_SIZE_MAX`. The other error is want of memory. An error
    /// adds nothing.
    pub fn add(&mut self, id: Id, size: u64, alloc: Global) -> Result<(), RingError>
        requires has { list_any (is_ring id) self.old ≡ false }
        ensures added { OnOk result (self.new ≡ self.old ++ new_ring id size ∷ []) }
        ensures bad_size { is_ring_size size ≡ false → result ≡ Err bad.BadSize }
        ensures only_bad_size { result ≡ Err bad.BadSize → is_ring_size size ≡ false }
        ensures err { OnErr result (self.new ≡ self.old) }
    {
        let ring = Ring::new(alloc, size)?;
        match self.list.push(NamedRing::new(id, ring)) {
            Ok(()) => Ok(()),
            Err(_) => Err(RingError::Memory),
        }
    }

    /// Removes the ring of an id, where there is one. It takes no memory.
    pub fn remove(&mut self, id: &str)
        ensures { self.new ≡ without_ring id.now self.old }
    {
        self.list.retain(|kept| !kept.is(id));
    }

    /// Adds a byte to the ring of an id, where there is one; of a full ring the oldest goes. It takes
    /// no memory.
    pub fn push(&mut self, id: &str, byte: u8)
        ensures { self.new ≡ ring_changed (λ m. ring_push m byte) id.now self.old }
    {
        if let Some(at) = self.place(id) {
            self.list[at].push(byte);
        }
    }

    /// Takes the oldest bytes of the ring of an id, at most `most`, and tells them in a form.
    /// `NotFound` exactly where there is no such ring, and else `NotAscii` exactly where the form cannot
    /// tell them. The other error is want of memory. An error takes nothing.
    pub fn take(&mut self, id: &str, most: usize, form: Form) -> Result<Text, RingTakeError>
        ensures text { IfOk result (λ text. ring_text id.now most form self.old ≡ Some (Some text)) }
        ensures taken { OnOk result (self.new ≡ ring_changed (λ m. ring_drop m most) id.now self.old) }
        ensures not_found { ring_text id.now most form self.old ≡ None → result ≡ Err taking.NotFound }
        ensures only_not_found { result ≡ Err taking.NotFound → ring_text id.now most form self.old ≡ None }
        ensures not_ascii { ring_text id.now most form self.old ≡ Some None → result ≡ Err taking.NotAscii }
        ensures only_not_ascii { result ≡ Err taking.NotAscii → ring_text id.now most form self.old ≡ Some None }
        ensures err { OnErr result (self.new ≡ self.old) }
    {
        let Some(at) = self.place(id) else {
            return Err(RingTakeError::NotFound);
        };
        self.list[at].take(most, form)
    }

    /// Adds the bytes that a text gives to the ring of an id: the text's own, or those whose standard
    /// Base64 it is. Where they do not fit, the oldest go. `NotFound` exactly where there is no such
    /// ring, and else `BadText` exactly where the text is no Base64. It takes no memory. An error adds
    /// nothing.
    pub fn add_bytes(&mut self, id: &str, text: &str, form: Form) -> Result<(), RingAddError>
        ensures added { OnOk result (Gains form text.now (λ f. self.new ≡ ring_changed f id.now self.old)) }
        ensures not_found { ring_named id.now self.old ≡ None → result ≡ Err adding.NotFound }
        ensures only_not_found { result ≡ Err adding.NotFound → ring_named id.now self.old ≡ None }
        ensures bad_text { IsSome (ring_named id.now self.old) → given_bytes form text.now ≡ None → result ≡ Err adding.BadText }
        ensures only_bad_text { result ≡ Err adding.BadText → given_bytes form text.now ≡ None }
        ensures err { OnErr result (self.new ≡ self.old) }
    {
        let Some(at) = self.place(id) else {
            return Err(RingAddError::NotFound);
        };
        self.list[at].add_bytes(text, form)
    }
}
