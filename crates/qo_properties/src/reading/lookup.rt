//! Finding objects of the heap, and the slots of users' objects.

ghost use Rattle.std.specs.Prelude.{◌≡◌, ◌+◌, IfSome, IfNone, None, is_some, position};
ghost use Rattle.std.specs.Str.{bytes_eq};
ghost use Rattle.qo_model.specs.Objects.{is_object_named, index_from};
ghost use Rattle.qo_object.specs.BoardObject.{shown_slots};
ghost use Rattle.qo_object.specs.Slots.{child_of};
ghost use Rattle.qo_heap.specs.Rows.{IsLive};
ghost use Rattle.qo_heap.specs.Objects.{content_of, slots_of};

use qo_heap::{Heap, Oid, Slot, Steps};
use std::sync::ledger::Ledger;

/// The live object of a birth; `None` exactly where there is none.
pub fn object_of(heap: &Heap, birth: u64) -> Option<Oid>
    ensures born { IfSome result (λ o. o.birth ≡ birth) }
    ensures live { IfSome result (IsLive heap.now.rows) }
    ensures none { IfNone result (content_of heap.now birth ≡ None) }
{
    heap.by_birth(birth)
}

/// The place of the slot of a name of an object; `None` where it has none.
pub fn place_named<L: Ledger>(
    heap: &Heap,
    o: Oid,
    name: &str,
    steps: &mut Steps<L>,
) -> Option<usize>
    requires { IsLive heap.now.rows o }
    ensures { result ≡ position (λ s. bytes_eq name.now s.0) (slots_of heap.now o.birth) }
{
    let slot = heap.slot(o, name, steps)?;
    Some(slot.at)
}

/// Whether a child stands in a slot.
fn is_child(what: &Slot) -> bool
    ensures { result ≡ is_some (child_of what.now) }
{
    matches!(what, Slot::Child(_))
}

/// The place at which an object has a child under a name, by one look-up; `None` where it has none.
pub fn child_place<L: Ledger>(heap: &Heap, o: Oid, id: &str, steps: &mut Steps<L>) -> Option<usize>
    requires { IsLive heap.now.rows o }
    ensures place { result ≡ index_from (is_object_named id.now) 0 (shown_slots (slots_of heap.now o.birth)) }
    ensures cost { steps.new ≡ steps.old + 1 }
{
    let slot = heap.slot(o, id, steps)?;
    if is_child(slot.what) {
        return Some(slot.at);
    }
    None
}
