//! The table.

use crate::counting::Steps;
use crate::keys::Key;
use crate::stored::Stored;
use crate::walk::Rest;
use slab::Slab;
use std::alloc::{AllocError, Global};
use std::marker::Model;
use std::sync::ledger::Ledger;

/// Values under keys. It is linear, since its values may be: it ends by `destroy_empty` or
/// `into_rest`.
///
/// A birth is given by each `put`, from 1 up, and is never given again.
pub struct Arena<T> {
    table: Slab<Stored<T>>,
    born: u64,
}

impl<T> Model for Arena<T> {
    ghost use Rattle.qo_slots.specs.Table.{Table, table_code};

    ghost Value = { Table T };

    ghost coded = { table_code T.code };

    ghost view = { λ s. record {
      slots = s.table.slots;
      born = s.born;
      capacity = s.table.capacity;
    } };

    ghost use Rattle.qo_slots.specs.Table.{BirthsGiven};

    ghost invariant = { λ s. BirthsGiven s.table.slots s.born };
}

impl<T> Arena<T> {
    ghost use Rattle.std.specs.Prelude.{◌≡◌, ℕ, ◌+◌, ◌≤◌, ◌<◌, ◌^◌, [], IfSome, IsOk, IsErr, OnOk, Some, None, slice_set};
    ghost use Rattle.std.specs.Borrow.{sem};
    ghost use Rattle.qo_slots.specs.Table.{find, live_count, values_in, HasSpare, IsLive, Updates};
    ghost use Rattle.qo_slots.specs.Loans.{lends_value};

    /// A table without values. It takes memory only by `reserve`.
    pub fn new(alloc: Global) -> Arena<T>
        ensures { result ≡ record { slots = []; born = 0; capacity = 0 } }
    {
        Arena {
            table: Slab::new(alloc),
            born: 0,
        }
    }

    /// Makes room for at least `n` more values, so that as many calls of `put` need no memory.
    /// The error comes where memory runs out, or where fewer than `n` births are left below 2^64;
    /// the values and the births are then as before, and the room is no less.
    pub fn reserve(&mut self, n: usize) -> Result<(), AllocError>
        ensures spare { OnOk result (HasSpare self.new n) }
        ensures births { 2 ^ 64 ≤ self.old.born + n → IsErr result }
        ensures succeeds { HasSpare self.old n → IsOk result }
        ensures kept { self.new ≡ record self.old { capacity = self.new.capacity } }
        ensures grows { self.old.capacity ≤ self.new.capacity }
    {
        if n as u64 > u64::MAX - self.born || self.table.reserve(n).is_err() {
            return Err(AllocError);
        }
        Ok(())
    }

    /// Stores a value under a new key: of the next birth, at an index that was empty. It takes no
    /// memory.
    pub fn put<L: Ledger>(&mut self, value: T, steps: &mut Steps<L>) -> Key
        requires { HasSpare self.old 1 }
        ensures birth { result.birth ≡ self.old.born + 1 }
        ensures fresh { (index : ℕ) → IfSome (find self.old index) (λ e. e.0 < result.birth) }
        ensures vacant { find self.old result.index ≡ None }
        ensures updates { Updates self.old self.new result.index (Some (result.birth, value)) }
        ensures born { self.new.born ≡ result.birth }
        ensures count { live_count self.new ≡ live_count self.old + 1 }
        ensures capacity { self.new.capacity ≡ self.old.capacity }
        ensures cost { steps.new ≡ steps.old + 1 }
    {
        steps.tick();
        self.born += 1;
        let birth = self.born;
        let index = self.table.insert_reserved(Stored::new(birth, value));
        Key { index, birth }
    }

    /// The value under a live key. It takes no memory.
    pub fn look<L: Ledger>(&self, key: Key, steps: &mut Steps<L>) -> &T
        requires { IsLive self.now key }
        ensures value { find self.now key.index ≡ Some (key.birth, result.now) }
        ensures given { (1 ≤ key.birth) × (key.birth ≤ self.now.born) }
        ensures cost { steps.new ≡ steps.old + 1 }
    {
        steps.tick();
        self.table[key.index].value()
    }

    /// The value under a live key, for writing. It takes no memory.
    pub fn change<L: Ledger>(&mut self, key: Key, steps: &mut Steps<L>) -> &mut T
        requires { IsLive self.old key }
        ensures* writes_back { sem 𝓛 (lends_value T.row self.entry key result) }
        ensures value { find self.old key.index ≡ Some (key.birth, result.now) }
        ensures given { (1 ≤ key.birth) × (key.birth ≤ self.old.born) }
        ensures cost { steps.new ≡ steps.old + 1 }
    {
        steps.tick();
        self.table[key.index].value_mut()
    }

    /// Takes the value under a live key out. Its index is empty then, and its birth is not given
    /// again. It takes no memory.
    pub fn take<L: Ledger>(&mut self, key: Key, steps: &mut Steps<L>) -> T
        requires { IsLive self.old key }
        ensures value { find self.old key.index ≡ Some (key.birth, result) }
        ensures given { (1 ≤ key.birth) × (key.birth ≤ self.old.born) }
        ensures updates { Updates self.old self.new key.index None }
        ensures slots { self.new.slots ≡ slice_set self.old.slots key.index None }
        ensures born { self.new.born ≡ self.old.born }
        ensures count { live_count self.new + 1 ≡ live_count self.old }
        ensures capacity { self.new.capacity ≡ self.old.capacity }
        ensures cost { steps.new ≡ steps.old + 1 }
    {
        steps.tick();
        self.table.remove(key.index).into_value()
    }

    /// Ends a table without values. It takes no memory.
    pub fn destroy_empty(self)
        requires { live_count self ≡ 0 }
    {
        let Arena { table: _, born: _ } = self;
    }

    /// Gives the table up, for what it still holds. It takes no memory.
    pub fn into_rest(self) -> Rest<T>
        ensures { result ≡ values_in self.slots }
    {
        let Arena { table, born: _ } = self;
        Rest::new(table)
    }
}
