//! The table of objects: each stands in a slot under its name, and the names are listed in the order
//! of their births. Whoever holds a name reaches its object in one step, which is counted.

ghost use Rattle.std.specs.Prelude.{◌≡◌, ℕ, ◌+◌, ◌<◌, Bool, [], ◌∷◌, ◌++◌, nat_lt, count_by, slice_get, Some, IfOk, IfErr, OnOk};
ghost use Rattle.std.specs.Borrow.{sem};
ghost use Rattle.qo_slots.specs.Loans.{lends_value};
ghost use Rattle.qo_heap.specs.Order.{births_of, front, rows_in, IsOrdered};
ghost use Rattle.qo_heap.specs.Rows.{Rises, IsLive, object_at, without};

use qo_slots::{Arena, Key, Rest, Steps};
use std::sync::ledger::Ledger;

/// How many names of a list in the order of births have a birth below this one.
pub fn place_of(order: &[Key], birth: u64) -> usize
    requires { (last : ℕ) × Rises 0 (births_of order.now) last }
    ensures { result ≡ front (λ k. nat_lt k.birth birth) order.now }
{
    order.partition_point(|key| key.birth < birth)
}

/// The name at a place of a list.
pub fn key_in(order: &[Key], place: usize) -> Option<Key>
    ensures { result ≡ slice_get order.now place }
{
    order.get(place).copied()
}

/// Adds an object under a new name, of the next birth. The error gives the object back, for want of
/// memory or where no birth is left below 2^64; the objects are then as before.
pub fn add<T, L: Ledger>(
    table: &mut Arena<T>,
    order: &mut Vec<Key>,
    object: T,
    steps: &mut Steps<L>,
) -> Result<Key, T>
    requires { IsOrdered table.old order.old.items }
    ensures ordered { IsOrdered table.new order.new.items }
    ensures added { IfOk result (λ key. (key.birth ≡ table.old.born + 1) × ((rows_in table.new order.new.items ≡ rows_in table.old order.old.items ++ (key, object) ∷ []) × (table.new.born ≡ table.old.born + 1))) }
    ensures refused { IfErr result (λ back. (back ≡ object) × ((rows_in table.new order.new.items ≡ rows_in table.old order.old.items) × (table.new.born ≡ table.old.born))) }
    ensures cost { OnOk result (steps.new ≡ steps.old + 1) }
{
    if table.reserve(1).is_err() {
        return Err(object);
    }
    if order.reserve(1).is_err() {
        return Err(object);
    }
    let key = table.put(object, steps);
    order.push_reserved(key);
    Ok(key)
}

/// The object of a live name, for writing. The order of names, which stays, says which are live. It
/// takes no memory.
pub fn change<'a, T, L: Ledger>(
    table: &'a mut Arena<T>,
    order: &Vec<Key>,
    key: Key,
    steps: &mut Steps<L>,
) -> &'a mut T
    requires ordered { IsOrdered table.old order.now.items }
    requires live { IsLive (rows_in table.old order.now.items) key }
    ensures* writes_back { sem 𝓛 (lends_value T.row table.entry key result) }
    ensures object { object_at (rows_in table.old order.now.items) key.birth ≡ Some result.now }
    ensures cost { steps.new ≡ steps.old + 1 }
{
    table.change(key, steps)
}

/// Takes the object of a live name out; its birth is not given again. It takes no memory.
pub fn take<T, L: Ledger>(
    table: &mut Arena<T>,
    order: &mut Vec<Key>,
    key: Key,
    steps: &mut Steps<L>,
) -> T
    requires ordered { IsOrdered table.old order.old.items }
    requires live { IsLive (rows_in table.old order.old.items) key }
    ensures ordered { IsOrdered table.new order.new.items }
    ensures object { object_at (rows_in table.old order.old.items) key.birth ≡ Some result }
    ensures rest { rows_in table.new order.new.items ≡ without key.birth (rows_in table.old order.old.items) }
    ensures born { table.new.born ≡ table.old.born }
    ensures cost { steps.new ≡ steps.old + 1 }
{
    let place = place_of(order.as_slice(), key.birth);
    order.remove(place);
    table.take(key, steps)
}

/// Gives the table up, for the objects that it still holds, each once. It takes no memory.
pub fn into_rest<T>(table: Arena<T>, order: Vec<Key>) -> Rest<T>
    requires { IsOrdered table order.items }
    ensures { (p : T → Bool) → count_by p result ≡ count_by (λ row. p row.1) (rows_in table order.items) }
{
    table.into_rest()
}
