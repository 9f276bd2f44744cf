//! Users' objects that are in use (docs/PROFILE.md, DIMMs).

ghost use Rattle.std.specs.Prelude.{◌≡◌, ◌+◌, ◌≤◌};
ghost use Rattle.qo_buses.specs.Recount.{IsRecounted};
ghost use Rattle.qo_model.specs.Board.{Board};
ghost use Rattle.qo_heap.specs.Rows.{IsLive};
ghost use Rattle.qo_heap.specs.Board.{Shows};
ghost use Rattle.qo_realize.specs.Users.{has_dimm, is_used};

use qo_buses::{child_at, is_of};
use qo_heap::{Heap, Oid, Steps};
use qo_values::{OBJECTS_BIRTH, TypeId};
use std::sync::ledger::Ledger;

/// Whether an object is a memory backend on which a DIMM stands.
fn has_dimm<L: Ledger>(heap: &Heap, o: Oid, steps: &mut Steps<L>) -> bool
    requires { IsLive heap.now.rows o }
    ensures used { (b : Board) → Shows b heap.now → IsRecounted b heap.now.claims → result ≡ has_dimm b o.birth }
    ensures cost { steps.new ≡ steps.old + 1 }
{
    if !is_of(heap, o, TypeId::MemoryBackend, steps) {
        return false;
    }
    heap.book().is_backend_taken(o.birth)
}

/// Whether the user's object of an id is a memory backend on which a DIMM stands.
pub(crate) fn is_used<L: Ledger>(heap: &Heap, id: &str, steps: &mut Steps<L>) -> bool
    ensures used { (b : Board) → Shows b heap.now → IsRecounted b heap.now.claims → result ≡ is_used b id.now }
    ensures cost { steps.new ≤ steps.old + 2 }
{
    let Some(objects) = heap.by_birth(OBJECTS_BIRTH) else {
        return false;
    };
    match child_at(heap, objects, id, steps) {
        Some(o) => has_dimm(heap, o, steps),
        None => false,
    }
}
