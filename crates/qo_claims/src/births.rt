//! The births that are held.

use crate::errors::ClaimError;
use indexmap::IndexSet;
use std::alloc::{AllocError, Global};
use std::marker::Model;

/// Births, each once, in the order of the claims on them.
#[derive(Drop)]
pub struct Births {
    set: IndexSet<u64>,
}

impl Model for Births {
    ghost use Rattle.std.specs.Prelude.{List, ℕ};

    ghost Value = { List ℕ };

    ghost view = { λ b. b.set.keys };
}

impl Births {
    ghost use Rattle.std.specs.Prelude.{◌≡◌, [], ◌∷◌, ◌++◌, false, OnOk, OnErr};
    ghost use Rattle.qo_claims.specs.Answers.{Took};
    ghost use Rattle.qo_claims.specs.Lists.{has_birth, without_birth, birth_answer};

    pub fn new(alloc: Global) -> Births
        ensures { result ≡ [] }
    {
        Births {
            set: IndexSet::new(alloc),
        }
    }

    /// Whether a birth is held.
    pub fn has(&self, birth: u64) -> bool
        ensures { result ≡ has_birth birth self.now }
    {
        self.set.contains(&birth)
    }

    /// Adds a birth that is not held. An error adds nothing.
    fn add(&mut self, birth: u64) -> Result<(), AllocError>
        requires { has_birth birth self.old ≡ false }
        ensures added { OnOk result (self.new ≡ self.old ++ birth ∷ []) }
        ensures err { OnErr result (self.new ≡ self.old) }
    {
        self.set.insert(birth)?;
        Ok(())
    }

    /// Claims a birth; `Taken` where it is taken. An error claims nothing.
    pub fn take(&mut self, birth: u64) -> Result<u64, ClaimError>
        ensures { Took (birth_answer birth self.old) (λ birth. self.old ++ birth ∷ []) self.old self.new result }
    {
        if self.has(birth) {
            return Err(ClaimError::Taken);
        }
        self.add(birth)?;
        Ok(birth)
    }

    /// Ends the claim on a birth, where it is taken. It takes no memory.
    pub fn give_back(&mut self, birth: u64)
        ensures { self.new ≡ without_birth birth self.old }
    {
        self.set.shift_remove(&birth);
    }
}
