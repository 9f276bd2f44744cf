//! What stands in the slots of an object, by their names.

ghost use Rattle.std.specs.Prelude.{◌≡◌, ◌+◌, Some, IfSome, option_map};
ghost use Rattle.std.specs.Option.{option_and_then};
ghost use Rattle.qo_model.specs.Board.{Board, slot_named};
ghost use Rattle.qo_model.specs.RowNames.{property_name};
ghost use Rattle.qo_model.specs.Devices.{child_named, number_at, number_in, plain_at, plain_in, strong_at, strong_in, text_at, text_in};
ghost use Rattle.qo_object.specs.BoardObject.{birth_of, shown_slot};
ghost use Rattle.qo_object.specs.Slots.{target_of};
ghost use Rattle.qo_heap.specs.Rows.{IsLive};
ghost use Rattle.qo_heap.specs.Board.{Shows};

use qo_heap::{Heap, Oid, Slot, Steps};
use qo_model::PropertyName;
use qo_values::{Text, Val};
use std::sync::ledger::Ledger;

/// The value of a plain slot.
fn plain_in(what: &Slot) -> Option<&Val>
    ensures { option_map (λ v. v.now) result ≡ plain_in (shown_slot what.now) }
{
    match what {
        Slot::Plain(val) => Some(val),
        _ => None,
    }
}

/// The number that a value is.
fn number_in(val: &Val) -> Option<u64>
    ensures { result ≡ number_in val.now }
{
    match val {
        Val::Uint(number) => Some(*number),
        _ => None,
    }
}

/// The text that a value is.
fn text_in(val: &Val) -> Option<&Text>
    ensures { option_map (λ t. t.now) result ≡ text_in val.now }
{
    match val {
        Val::Text(text) => Some(text),
        _ => None,
    }
}

/// The target of a strong link.
pub(crate) fn strong_in(what: &Slot) -> Option<Oid>
    ensures target { birth_of result ≡ strong_in (shown_slot what.now) }
    ensures named { IfSome result (λ key. target_of what.now ≡ Some key) }
{
    match what {
        Slot::Link {
            strong: true,
            target,
            ..
        } => *target,
        _ => None,
    }
}

/// The child in a slot.
pub(crate) fn child_in(what: &Slot) -> Option<Oid>
    ensures child { birth_of result ≡ child_named (shown_slot what.now) }
    ensures named { IfSome result (λ key. target_of what.now ≡ Some key) }
{
    match what {
        Slot::Child(child) => Some(*child),
        _ => None,
    }
}

/// The value of a plain property of an object; `None` exactly where it has no such.
pub fn plain_at<'h, L: Ledger>(
    heap: &'h Heap,
    o: Oid,
    name: PropertyName,
    steps: &mut Steps<L>,
) -> Option<&'h Val>
    requires { IsLive heap.now.rows o }
    ensures { (b : Board) → Shows b heap.now → option_map (λ v. v.now) result ≡ plain_at b o.birth (property_name name) }
{
    let slot = heap.property(o, name, steps)?;
    plain_in(slot.what)
}

/// The number that a plain property of an object is, if it is one.
pub fn number_at<L: Ledger>(
    heap: &Heap,
    o: Oid,
    name: PropertyName,
    steps: &mut Steps<L>,
) -> Option<u64>
    requires { IsLive heap.now.rows o }
    ensures { (b : Board) → Shows b heap.now → result ≡ number_at b o.birth (property_name name) }
{
    let val = plain_at(heap, o, name, steps)?;
    number_in(val)
}

/// The text that a plain property of an object is, if it is one.
pub fn text_at<'h, L: Ledger>(
    heap: &'h Heap,
    o: Oid,
    name: PropertyName,
    steps: &mut Steps<L>,
) -> Option<&'h Text>
    requires { IsLive heap.now.rows o }
    ensures { (b : Board) → Shows b heap.now → option_map (λ t. t.now) result ≡ text_at b o.birth (property_name name) }
{
    let val = plain_at(heap, o, name, steps)?;
    text_in(val)
}

/// The target of a strong link of an object; `None` exactly where it has no such link, or this has no
/// target.
pub fn strong_at<L: Ledger>(
    heap: &Heap,
    o: Oid,
    name: PropertyName,
    steps: &mut Steps<L>,
) -> Option<Oid>
    requires { IsLive heap.now.rows o }
    ensures target { (b : Board) → Shows b heap.now → birth_of result ≡ strong_at b o.birth (property_name name) }
    ensures live { IfSome result (IsLive heap.now.rows) }
{
    heap.reveal_invariant();
    let slot = heap.property(o, name, steps)?;
    strong_in(slot.what)
}

/// The child under a name of an object; `None` exactly where it has none.
pub fn child_at<L: Ledger>(heap: &Heap, o: Oid, name: &str, steps: &mut Steps<L>) -> Option<Oid>
    requires { IsLive heap.now.rows o }
    ensures child { (b : Board) → Shows b heap.now → birth_of result ≡ option_and_then child_named (slot_named b o.birth name.now) }
    ensures live { IfSome result (IsLive heap.now.rows) }
    ensures cost { steps.new ≡ steps.old + 1 }
{
    heap.reveal_invariant();
    let slot = heap.slot(o, name, steps)?;
    child_in(slot.what)
}
