//! The names of many slots, to find one by.

use crate::names::SlotName;
use crate::slots::Slot;
use indexmap::IndexSet;
use std::alloc::{AllocError, Global};
use std::marker::Model;

/// The names of slots, in their order, each with a text of its own.
#[derive(Drop)]
pub struct Names {
    set: IndexSet<String>,
}

impl Model for Names {
    ghost use Rattle.std.specs.Prelude.{List, ℕ, map, string_bytes};

    ghost Value = { List (List ℕ) };

    ghost view = { λ n. map string_bytes n.set.keys };
}

impl Names {
    ghost use Rattle.std.specs.Prelude.{◌≡◌, [], ◌∷◌, ◌++◌, false, IfOk, OnOk, position, remove};
    ghost use Rattle.std.specs.List.{list_any, IsDistinct};
    ghost use Rattle.std.specs.Str.{bytes_eq};
    ghost use Rattle.qo_object.specs.Slots.{names_of};

    /// No names.
    fn new(alloc: Global) -> Names
        ensures { result ≡ [] }
    {
        Names {
            set: IndexSet::new(alloc),
        }
    }

    /// The names of some slots, which differ.
    pub fn of(slots: &[(SlotName, Slot)], alloc: Global) -> Result<Names, AllocError>
        requires { IsDistinct bytes_eq (names_of slots.now) }
        ensures { IfOk result (λ names. names ≡ names_of slots.now) }
    {
        let mut names = Names::new(alloc);
        for slot in slots {
            names.add(slot.0.as_str())?;
        }
        Ok(names)
    }

    /// The place of a name.
    pub fn find(&self, name: &str) -> Option<usize>
        ensures { result ≡ position (bytes_eq name.now) self.now }
    {
        self.set.get_index_of(name)
    }

    /// Adds a name that is not there, after the others.
    pub fn add(&mut self, name: &str) -> Result<(), AllocError>
        requires { list_any (bytes_eq name.now) self.old ≡ false }
        ensures { OnOk result (self.new ≡ self.old ++ name.now ∷ []) }
    {
        let alloc = *self.set.allocator();
        self.set.insert(String::from_str(alloc, name)?)?;
        Ok(())
    }

    /// Removes the name at a place; past the end there is none.
    pub fn remove(&mut self, at: usize)
        ensures { self.new ≡ remove self.old at }
    {
        self.set.shift_remove_index(at);
    }
}
