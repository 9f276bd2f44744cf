//! The way up: the place of an object in the tree, and whether it is attached.

ghost use Rattle.std.specs.Prelude.{◌≡◌, option_map};
ghost use Rattle.qo_model.specs.Board.{Board};
ghost use Rattle.qo_model.specs.Paths.{attached, place_of};
ghost use Rattle.qo_heap.specs.Board.{Shows};

use qo_heap::{Heap, Oid, Steps};
use std::sync::ledger::Ledger;

/// The place of an object in the tree.
#[derive(Clone, Copy)]
pub struct Parent<'a> {
    /// The parent.
    pub parent: Oid,
    /// The name that the object has there.
    pub name: &'a str,
}

/// The place of an object; `None` exactly where it has no parent.
pub fn place_of<'a, L: Ledger>(heap: &'a Heap, o: Oid, steps: &mut Steps<L>) -> Option<Parent<'a>>
    ensures { (b : Board) → Shows b heap.now → option_map (λ p. (p.parent.birth, p.name.now)) result ≡ place_of b o.birth }
{
    heap.reveal_invariant();
    let parent = heap.parent(o, steps)?;
    let slot = heap.child_slot(parent, o.birth, steps)?;
    Some(Parent {
        parent,
        name: slot.name,
    })
}

/// Whether parents lead from an object to `/`. It takes no memory.
pub fn is_attached<L: Ledger>(heap: &Heap, o: Oid, steps: &mut Steps<L>) -> bool
    ensures { (b : Board) → Shows b heap.now → result ≡ attached b o.birth }
{
    heap.reveal_invariant();
    let mut at = o;
    // A way that is longer than there are objects goes round, and ends nowhere.
    for _turn in 0..heap.live() + 1 {
        if at.birth == 1 {
            return true;
        }
        match heap.parent(at, steps) {
            Some(parent) => at = parent,
            None => return false,
        }
    }
    false
}
