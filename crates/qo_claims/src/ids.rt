//! The ids that are held in one space.

use crate::errors::ClaimError;
use indexmap::IndexSet;
use qo_values::Text;
use std::alloc::{AllocError, Global};
use std::marker::Model;

/// Ids, each once, in the order of the claims on them.
#[derive(Drop)]
pub struct Ids {
    set: IndexSet<String>,
}

impl Model for Ids {
    ghost use Rattle.std.specs.Prelude.{List, ℕ, map, string_bytes};

    ghost Value = { List (List ℕ) };

    ghost view = { λ i. map string_bytes i.set.keys };
}

impl Ids {
    ghost use Rattle.std.specs.Prelude.{◌≡◌, [], ◌∷◌, ◌++◌, false, OnOk, OnErr, string_bytes};
    ghost use Rattle.qo_claims.specs.Answers.{Took};
    ghost use Rattle.qo_claims.specs.Lists.{has_id, without_id, id_answer};

    pub fn new(alloc: Global) -> Ids
        ensures { result ≡ [] }
    {
        Ids {
            set: IndexSet::new(alloc),
        }
    }

    /// Whether an id is held.
    pub fn has(&self, id: &str) -> bool
        ensures { result ≡ has_id id.now self.now }
    {
        self.set.contains(id)
    }

    /// Adds an id that is not held. An error adds nothing.
    fn add(&mut self, id: String) -> Result<(), AllocError>
        requires { has_id (string_bytes id) self.old ≡ false }
        ensures added { OnOk result (self.new ≡ self.old ++ string_bytes id ∷ []) }
        ensures err { OnErr result (self.new ≡ self.old) }
    {
        self.set.insert(id)?;
        Ok(())
    }

    /// Claims an id; `Taken` where it is taken. An error claims nothing.
    pub fn take(&mut self, id: &str) -> Result<Text, ClaimError>
        ensures { Took (id_answer id.now self.old) (λ id. self.old ++ id ∷ []) self.old self.new result }
    {
        if self.has(id) {
            return Err(ClaimError::Taken);
        }
        let alloc = *self.set.allocator();
        let claimed = Text::from_string(String::from_str(alloc, id)?);
        self.add(String::from_str(alloc, id)?)?;
        Ok(claimed)
    }

    /// Ends the claim on an id, where it is taken. It takes no memory.
    pub fn give_back(&mut self, id: &str)
        ensures { self.new ≡ without_id id.now self.old }
    {
        self.set.shift_remove(id);
    }
}
