//! Which of the weak links of an object a slot is.

ghost use Rattle.std.specs.Prelude.{◌≡◌, ◌≤◌, true, None, Some, IfSome, IfNone, is_some, length};
ghost use Rattle.std.specs.List.{AllByRecursion};
ghost use Rattle.std.specs.Option.{option_and_then};
ghost use Rattle.qo_object.specs.Slots.{slot_in, weak_target};
ghost use Rattle.qo_heap.specs.WeakLinks.{is_weak_at, weak_before, weak_name, weak_names, weak_place};

use qo_object::{Object, Oid, Slot};

/// Whether a slot is a weak link.
pub fn is_weak(slot: &Slot) -> bool
    ensures { result ≡ is_some (weak_name slot.now) }
{
    matches!(slot, Slot::Link { strong: false, .. })
}

/// Whether the slot of an object at a place is a weak link.
fn is_weak_at(object: &Object, at: usize) -> bool
    ensures { result ≡ is_weak_at object.now.slots at }
{
    match object.what_at(at) {
        Some(slot) => is_weak(slot),
        None => false,
    }
}

#[tactic(auto, using(crate::proofs::WeakSlots::before_none, crate::proofs::WeakSlots::before_next, crate::proofs::WeakSlots::before_within))]
/// How many weak links of an object stand before a place.
fn weak_before(object: &Object, at: usize) -> usize
    ensures { result ≡ weak_before at object.now.slots }
{
    let mut before = 0;
    for place in 0..at {
        if is_weak_at(object, place) {
            before += 1;
        }
    }
    before
}

#[tactic(auto, using(crate::proofs::WeakSlots::place_before))]
/// Which of the weak links of an object the slot at a place is, from 0, if it is one.
pub fn weak_place(object: &Object, at: usize) -> Option<usize>
    ensures { result ≡ weak_place object.now.slots at }
{
    if is_weak_at(object, at) {
        Some(weak_before(object, at))
    } else {
        None
    }
}

#[tactic(auto, using(crate::proofs::WeakSlots::before_none, crate::proofs::WeakSlots::before_next, crate::proofs::WeakSlots::before_all, crate::proofs::WeakSlots::place_before))]
/// The place of the slot of a weak link of an object, where `nth` says which, from 0.
pub fn weak_slot(object: &Object, nth: usize) -> Option<usize>
    ensures place { IfSome result (λ at. weak_place object.now.slots at ≡ Some nth) }
    ensures none { IfNone result (length (weak_names object.now.slots) ≤ nth) }
{
    let mut before = 0;
    for at in 0..object.len() {
        if is_weak_at(object, at) {
            if before == nth {
                return Some(at);
            }
            before += 1;
        }
    }
    None
}

/// The object that a weak link names.
pub fn weak_target(slot: &Slot) -> Option<Oid>
    ensures { result ≡ weak_target slot.now }
{
    match slot {
        Slot::Link {
            strong: false,
            target,
            ..
        } => *target,
        _ => None,
    }
}

/// The object that the weak link of an object at a place names.
fn weak_target_at(object: &Object, at: usize) -> Option<Oid>
    ensures { result ≡ option_and_then weak_target (slot_in object.now.slots at) }
{
    match object.what_at(at) {
        Some(slot) => weak_target(slot),
        None => None,
    }
}

/// The place of the first weak link of an object that has a target.
pub fn linked_slot(object: &Object) -> Option<usize>
    ensures place { IfSome result (λ at. is_some (option_and_then weak_target (slot_in object.now.slots at)) ≡ true) }
    ensures none { IfNone result (AllByRecursion (λ t. t ≡ None) (weak_names object.now.slots)) }
{
    for at in 0..object.len() {
        if weak_target_at(object, at).is_some() {
            return Some(at);
        }
    }
    None
}
