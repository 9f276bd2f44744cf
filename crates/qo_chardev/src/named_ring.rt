//! A ring under its id.

use crate::errors::{RingAddError, RingTakeError};
use crate::ring::Ring;
use qo_values::{Form, Id, Text};
use std::alloc::{AllocError, Global};
use std::marker::Model;

/// A ring under its id.
#[derive(Drop)]
pub struct NamedRing {
    pub(crate) id: Id,
    pub(crate) ring: Ring,
}

impl Model for NamedRing {
    ghost use Rattle.qo_model.specs.Board.{Ring};

    ghost Value = { Ring };

    ghost view = { λ k. record { id = k.id; size = k.ring.size; bytes = k.ring.bytes } };
}

impl NamedRing {
    ghost use Rattle.std.specs.Prelude.{◌≡◌, None, Some, IfOk, OnOk, OnErr};
    ghost use Rattle.qo_values.specs.Rings.{empty_ring, ring_drop, ring_oldest, ring_push};
    ghost use Rattle.qo_chardev.specs.Texts.{encoded};
    ghost use Rattle.qo_chardev.specs.declared.errors.RingAddError.TheVariants as adding;
    ghost use Rattle.qo_chardev.specs.declared.errors.RingTakeError.TheVariants as taking;
    ghost use Rattle.qo_chardev.specs.Rings.{Gains, bytes_in, given_bytes, is_ring, new_ring, with_bytes};

    /// A ring under an id.
    pub fn new(id: Id, ring: Ring) -> NamedRing
        requires { ring ≡ empty_ring ring.size }
        ensures { result ≡ new_ring id ring.size }
    {
        NamedRing { id, ring }
    }

    /// The id.
    pub fn id(&self) -> &Id
        ensures { result.now ≡ self.now.id }
    {
        &self.id
    }

    /// The id and the size. The error is want of memory.
    pub fn row(&self, alloc: Global) -> Result<(Text, u64), AllocError>
        ensures { IfOk result (λ row. row ≡ (self.now.id, self.now.size)) }
    {
        let id = String::from_str(alloc, self.id.as_str())?;
        Ok((Text::from_string(id), self.ring.size()))
    }

    /// Whether the id is a text.
    pub fn is(&self, id: &str) -> bool
        ensures { result ≡ is_ring id.now self.now }
    {
        self.id.as_str() == id
    }

    /// Adds a byte.
    pub fn push(&mut self, byte: u8)
        ensures { self.new ≡ with_bytes (λ m. ring_push m byte) self.old }
    {
        self.ring.push(byte);
    }

    /// Takes the oldest bytes, at most `most`, and tells them in a form. An error takes nothing.
    pub fn take(&mut self, most: usize, form: Form) -> Result<Text, RingTakeError>
        ensures text { IfOk result (λ text. encoded form (ring_oldest (bytes_in self.old) most) ≡ Some text) }
        ensures taken { OnOk result (self.new ≡ with_bytes (λ m. ring_drop m most) self.old) }
        ensures not_ascii { encoded form (ring_oldest (bytes_in self.old) most) ≡ None → result ≡ Err taking.NotAscii }
        ensures only_not_ascii { result ≡ Err taking.NotAscii → encoded form (ring_oldest (bytes_in self.old) most) ≡ None }
        ensures found { ¬ (result ≡ Err taking.NotFound) }
        ensures err { OnErr result (self.new ≡ self.old) }
    {
        Ok(self.ring.take(most, form)?)
    }

    /// Adds the bytes that a text gives; `BadText` exactly where it gives none. It takes no memory. An
    /// error adds nothing.
    pub fn add_bytes(&mut self, text: &str, form: Form) -> Result<(), RingAddError>
        ensures added { OnOk result (Gains form text.now (λ f. self.new ≡ with_bytes f self.old)) }
        ensures bad_text { given_bytes form text.now ≡ None → result ≡ Err adding.BadText }
        ensures only_bad_text { result ≡ Err adding.BadText → given_bytes form text.now ≡ None }
        ensures found { ¬ (result ≡ Err adding.NotFound) }
        ensures err { OnErr result (self.new ≡ self.old) }
    {
        match form {
            Form::Utf8 => {
                self.ring.add(text.as_bytes());
                Ok(())
            }
            Form::Base64 => Ok(self.ring.add_base64(text)?),
        }
    }
}
