//! The values of properties, and the types that admit them (docs/devel/qom.rst; which types there
//! are is the profile's).

ghost use Rattle.std.specs.Prelude.{◌≡◌, is_ok};
ghost use Rattle.qo_values.specs.Properties.{admits, is_multiple};
ghost use Rattle.qo_values.specs.PropertyLists.{names_of, NamesRise, is_above};

use crate::names::Text;
use std::alloc::{AllocFailed, Global};
use std::marker::Model;
use thiserror::Error;

/// The value of a plain property.
#[derive(Debug, Drop)]
pub enum Val {
    /// A truth value.
    Bool(bool),
    /// A number below 0.
    Int(i64),
    /// A number from 0 up.
    Uint(u64),
    /// A text.
    Text(Text),
    /// No value yet.
    Nothing,
}

/// A list of properties, each a name and a value. The names rise in byte order, so no two of them
/// are equal.
#[derive(Debug, Drop)]
pub struct PropList {
    pairs: Vec<(Text, Val)>,
}

impl Model for PropList {
    ghost use Rattle.std.specs.Prelude.{List, ℕ};
    ghost use Rattle.qo_values.specs.PropertyLists.{names_of, NamesRise};
    ghost use Rattle.qo_values.specs.declared.properties.Val.{Val};

    ghost Value = { List (List ℕ × Val) };

    ghost view = { λ p. p.pairs.items };

    ghost invariant = { λ p. NamesRise (names_of p.pairs.items) };
}

/// Why a property was not put after the others.
#[derive(Clone, Copy, Debug, PartialEq, Eq, Error)]
pub enum PushError {
    /// Its name does not come after all names of the list: one is equal, or comes after it.
    #[error("name out of order")]
    OutOfOrder,
    /// Want of memory.
    #[error("out of memory")]
    Memory,
}

impl<T: Drop> From<AllocFailed<T>> for PushError {
    ghost use Rattle.std.specs.Prelude.{◌≡◌};
    ghost use Rattle.qo_values.specs.declared.properties.PushError.TheVariants.{Memory};

    ghost from_gives = { λ _ e. e ≡ Memory };

    fn from(_refused: AllocFailed<T>) -> PushError {
        PushError::Memory
    }
}

/// Whether a name comes after all names of some properties, which rise.
fn is_above(pairs: &[(Text, Val)], name: &str) -> bool
    requires { NamesRise (names_of pairs.now) }
    ensures { result ≡ is_above (names_of pairs.now) name.now }
{
    match pairs.split_last() {
        Some((last, _)) => last.0.as_str() < name,
        None => true,
    }
}

impl PropList {
    ghost use Rattle.std.specs.Prelude.{◌≡◌, [], ◌∷◌, ◌++◌, true, false, OnOk, OnErr};
    ghost use Rattle.qo_values.specs.declared.properties.PushError.TheVariants.{OutOfOrder};

    /// No properties. It takes no memory.
    pub fn new(alloc: Global) -> PropList
        ensures { result ≡ [] }
    {
        PropList {
            pairs: Vec::new(alloc),
        }
    }

    /// Puts a property after the others; `OutOfOrder` exactly where its name does not come after
    /// all of theirs. An error leaves the list as it was.
    pub fn push(&mut self, name: Text, val: Val) -> Result<(), PushError>
        ensures pushed { OnOk result (self.new ≡ self.old ++ (name, val) ∷ []) }
        ensures left { OnErr result (self.new ≡ self.old) }
        ensures above { OnOk result (is_above (names_of self.old) name ≡ true) }
        ensures out_of_order { is_above (names_of self.old) name ≡ false → result ≡ Err OutOfOrder }
        ensures only_out_of_order { result ≡ Err OutOfOrder → is_above (names_of self.old) name ≡ false }
    {
        if !is_above(self.pairs.as_slice(), name.as_str()) {
            return Err(PushError::OutOfOrder);
        }
        self.pairs.push((name, val))?;
        Ok(())
    }

    /// The pairs as a slice. It takes no memory.
    pub fn as_slice(&self) -> &[(Text, Val)]
        ensures value { result.now ≡ self.now }
        ensures rise { NamesRise (names_of self.now) }
    {
        self.pairs.as_slice()
    }
}

/// Which values a plain property takes.
#[derive(Clone, Copy, Debug)]
pub enum PropType {
    /// A truth value.
    Bool,
    /// A whole number from `lo` to `hi`.
    Int {
        /// The least.
        lo: i64,
        /// The greatest.
        hi: i64,
    },
    /// A multiple of `step` from `lo` to `hi`.
    Uint {
        /// The least.
        lo: u64,
        /// The greatest.
        hi: u64,
        /// What it is a multiple of.
        step: u64,
    },
    /// A text.
    Text,
}

/// A value that does not fit a property's type.
#[derive(Clone, Copy, Debug, Error)]
#[error("value does not fit")]
pub struct Misfit;

/// Whether `number` is a multiple of `step`; of 0 only 0 is one.
fn is_multiple(step: u64, number: u64) -> bool
    ensures { result ≡ is_multiple step number }
{
    if step == 0 {
        number == 0
    } else {
        number % step == 0
    }
}

impl PropType {
    /// Whether the type takes a value: `Misfit` exactly where the kind differs, the number is
    /// outside `lo` to `hi`, or it is no multiple of `step`. It takes no memory.
    pub fn admit(&self, val: &Val) -> Result<(), Misfit>
        ensures { is_ok result ≡ admits self.now val.now }
    {
        let fits = match (self, val) {
            (PropType::Bool, Val::Bool(_)) | (PropType::Text, Val::Text(_)) => true,
            (PropType::Int { lo, hi }, Val::Int(number)) => lo <= number && number <= hi,
            (PropType::Int { lo, hi }, Val::Uint(number)) => {
                i128::from(*lo) <= i128::from(*number) && i128::from(*number) <= i128::from(*hi)
            }
            (PropType::Uint { lo, hi, step }, Val::Uint(number)) => {
                lo <= number && number <= hi && is_multiple(*step, *number)
            }
            _ => false,
        };
        if fits { Ok(()) } else { Err(Misfit) }
    }
}
