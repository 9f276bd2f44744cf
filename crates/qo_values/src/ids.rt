//! The ids that clients give to devices, objects and rings.

ghost use Rattle.qo_values.specs.Ids.{is_letter, is_id_byte, is_id};
ghost use Rattle.std.specs.List.{list_all};
ghost use Rattle.std.specs.Prelude.{◌≡◌};

use crate::limits::ID_MAX;
use crate::names::Name;
use std::alloc::{AllocError, Global};
use std::marker::Model;
use thiserror::Error;

/// An id: an ASCII letter, and then letters, digits, `-`, `.` and `_`, at most `ID_MAX` bytes in all.
#[derive(Debug, Drop)]
pub struct Id {
    text: String,
}

impl Model for Id {
    ghost use Rattle.std.specs.Prelude.{◌≡◌, List, ℕ, true, string_bytes};
    ghost use Rattle.qo_values.specs.Ids.{is_id};

    ghost Value = { List ℕ };

    ghost view = { λ i. string_bytes i.text };

    ghost invariant = { λ i. is_id (string_bytes i.text) ≡ true };
}

/// Why a text gave no id.
#[derive(Debug, Drop, Error)]
pub enum IdError {
    /// The text is no id.
    #[error("malformed id")]
    Malformed,
    /// Memory ran out.
    #[error("out of memory")]
    Memory,
}

/// Whether a byte is an ASCII letter.
fn is_letter(byte: u8) -> bool
    ensures { result ≡ is_letter byte }
{
    byte.is_ascii_alphabetic()
}

/// Whether a byte may stand after an id's first letter.
fn is_id_byte(byte: u8) -> bool
    ensures { result ≡ is_id_byte byte }
{
    is_letter(byte) || byte.is_ascii_digit() || matches!(byte, b'-' | b'.' | b'_')
}

/// Whether all bytes may stand after an id's first letter.
fn are_id_bytes(bytes: &[u8]) -> bool
    ensures { result ≡ list_all is_id_byte bytes.now }
{
    bytes.iter().all(|byte| is_id_byte(*byte))
}

/// Whether a text is an id.
fn is_id(text: &str) -> bool
    ensures { result ≡ is_id text.now }
{
    match text.as_bytes().split_first() {
        Some((first, rest)) => is_letter(*first) && are_id_bytes(rest) && rest.len() < ID_MAX,
        None => false,
    }
}

impl Id {
    ghost use Rattle.std.specs.Prelude.{◌≡◌, true, false, IfOk};
    ghost use Rattle.qo_values.specs.Ids.{is_id};
    ghost use Rattle.qo_values.specs.declared.ids.IdError.TheVariants.{Malformed};

    /// The id that a text is; `Malformed` exactly where it is none.
    pub fn parse(alloc: Global, text: &str) -> Result<Id, IdError>
        ensures id { IfOk result (λ i. (i ≡ text.now) × (is_id text.now ≡ true)) }
        ensures malformed { is_id text.now ≡ false → result ≡ Err Malformed }
        ensures only_malformed { result ≡ Err Malformed → is_id text.now ≡ false }
    {
        if !is_id(text) {
            return Err(IdError::Malformed);
        }
        match String::from_str(alloc, text) {
            Ok(text) => Ok(Id { text }),
            Err(AllocError) => Err(IdError::Memory),
        }
    }

    /// The id's text. It takes no memory.
    pub fn as_str(&self) -> &str
        ensures value { result.now ≡ self.now }
        ensures id { is_id self.now ≡ true }
    {
        self.text.as_str()
    }

    /// The name that the id is: each id is one. It takes no memory.
    pub fn into_name(self) -> Name
        ensures { result ≡ self }
    {
        let Id { text } = self;
        Name::from_string(text)
    }

    /// The name that the id is: each id is one. The error is want of memory.
    pub fn to_name(&self, alloc: Global) -> Result<Name, AllocError>
        ensures { IfOk result (λ name. name ≡ self.now) }
    {
        let text = String::from_str(alloc, self.as_str())?;
        Ok(Name::from_string(text))
    }
}
