//! Who has a weak link to an object. No call takes memory.

ghost use Rattle.std.specs.Prelude.{◌≡◌};
ghost use Rattle.qo_heap.specs.WeakEnds.{nearer};

use crate::heap::Heap;
use qo_object::Oid;
use qo_slots::Steps;
use std::sync::ledger::Ledger;

/// Of what was found so far, if anything, and of another object, the one of the lesser birth above a
/// number.
fn nearer(found: Option<Oid>, other: Oid, above: u64) -> Option<Oid>
    ensures { result ≡ nearer above found other }
{
    if other.birth <= above {
        return found;
    }
    match found {
        Some(near) if near.birth <= other.birth => Some(near),
        _ => Some(other),
    }
}

impl Heap {
    ghost use Rattle.std.specs.Prelude.{◌≡◌, ◌+◌, ◌≤◌};
    ghost use Rattle.qo_heap.specs.Rows.{IsLive};
    ghost use Rattle.qo_heap.specs.WeakEnds.{weak_count, weak_owner_above};

    /// The object of the least birth above a number that has a weak link to an object; `None` exactly
    /// where none has. It looks at each weak link that names the object once, and takes no memory.
    pub fn weak_owner<L: Ledger>(&self, o: Oid, above: u64, steps: &mut Steps<L>) -> Option<Oid>
        requires { IsLive self.now.rows o }
        ensures owner { result ≡ weak_owner_above o.birth above self.now.rows }
        ensures cost { steps.new ≤ steps.old + (1 + weak_count o.birth self.now.rows) }
    {
        let mut next = self.table.look(o, steps).links.first();
        let mut owner = None;
        while let Some(link) = next {
            next = self.table.look(link.owner, steps).links.next_of(link.id);
            owner = nearer(owner, link.owner, above);
        }
        owner
    }
}
