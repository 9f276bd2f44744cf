//! Listing the slots of objects (QEMU's QAPI, `qom-list`; the type texts are the profile's).

ghost use Rattle.std.specs.Prelude.{◌≡◌, ◌<◌, ◌^◌, [], IfSome, length, option_map, slice_get};
ghost use Rattle.std.specs.Option.{option_map_or};
ghost use Rattle.qo_model.specs.Board.{Board as Tree, slot_named};
ghost use Rattle.qo_model.specs.Listing.{listing, own_text, plain_word, row_word, type_text};
ghost use Rattle.qo_values.specs.TypeTexts.{text_of};
ghost use Rattle.qo_object.specs.BoardObject.{shown_slot};
ghost use Rattle.qo_object.specs.Slots.{target_of};
ghost use Rattle.qo_heap.specs.Rows.{IsLive};
ghost use Rattle.qo_heap.specs.Board.{Shows};
ghost use Rattle.qo_heap.specs.Objects.{slots_of};

use crate::reading::lookup::object_of;
use qo_heap::{Heap, Oid, Slot, Steps};
use qo_model::{Property, PropertyRole};
use qo_types::TypeTable;
use qo_values::{TypeId, TypeText};
use std::sync::ledger::Ledger;

/// What is told of the type of a property, by its row; only plain rows have a word.
fn row_text(row: Property) -> TypeText
    ensures { text_of result ≡ row_word row }
{
    match row.role {
        PropertyRole::Plain(ty, _) => TypeText::Value(ty),
        _ => TypeText::Nothing,
    }
}

/// What is told of the type of the plain property of a name, of an object of a type.
fn plain_text(kind: TypeId, name: &str) -> TypeText
    ensures { text_of result ≡ plain_word kind name.now }
{
    match TypeTable::board().property(kind, name) {
        Some(row) => row_text(row),
        None => TypeText::Nothing,
    }
}

/// What is told of the type of a slot that is no alias.
fn own_text<L: Ledger>(
    heap: &Heap,
    o: Oid,
    name: &str,
    what: &Slot,
    steps: &mut Steps<L>,
) -> TypeText
    requires live { IsLive heap.now.rows o }
    requires target { IfSome (target_of what.now) (IsLive heap.now.rows) }
    ensures { (b : Tree) → Shows b heap.now → text_of result ≡ own_text b o.birth name.now (shown_slot what.now) }
{
    match what {
        Slot::Plain(_) => plain_text(heap.kind(o, steps), name),
        Slot::Child(child) => TypeText::Child(heap.kind(*child, steps)),
        Slot::Link { ty, .. } => TypeText::Link(*ty),
        Slot::Alias(_, _) => TypeText::Nothing,
    }
}

/// What is told of the type of the property of a name of the object of a birth, which an alias has
/// too.
fn passed_text<L: Ledger>(heap: &Heap, birth: u64, of: &str, steps: &mut Steps<L>) -> TypeText
    ensures { (b : Tree) → Shows b heap.now → text_of result ≡ option_map_or (own_text b birth of.now) (slot_named b birth of.now) [] }
{
    heap.reveal_invariant();
    let Some(o) = object_of(heap, birth) else {
        return TypeText::Nothing;
    };
    let Some(slot) = heap.slot(o, of, steps) else {
        return TypeText::Nothing;
    };
    own_text(heap, o, of, slot.what, steps)
}

/// What is told of the type of a slot of an object.
fn type_text<L: Ledger>(
    heap: &Heap,
    o: Oid,
    name: &str,
    what: &Slot,
    steps: &mut Steps<L>,
) -> TypeText
    requires live { IsLive heap.now.rows o }
    requires target { IfSome (target_of what.now) (IsLive heap.now.rows) }
    ensures { (b : Tree) → Shows b heap.now → text_of result ≡ type_text b o.birth (name.now, shown_slot what.now) }
{
    if let Slot::Alias(target, of) = what {
        return passed_text(heap, target.birth, of.as_str(), steps);
    }
    own_text(heap, o, name, what, steps)
}

/// The slot of an object at a place, as it is listed: its name, and what is told of its type (QEMU's
/// QAPI, `qom-list`). `None` past the end. It takes no memory.
pub fn property_at<'h, L: Ledger>(
    heap: &'h Heap,
    o: Oid,
    at: usize,
    steps: &mut Steps<L>,
) -> Option<(&'h str, TypeText)>
    requires { IsLive heap.now.rows o }
    ensures listed { (b : Tree) → Shows b heap.now → option_map (λ p. (p.0.now, text_of p.1)) result ≡ slice_get (listing b o.birth) at }
    ensures within { IfSome result (λ p. at < length (slots_of heap.now o.birth)) }
    ensures few { IfSome result (λ p. at < 2 ^ 32) }
{
    heap.reveal_invariant();
    let Some(slot) = heap.slot_at(o, at, steps) else {
        return None;
    };
    let ty = type_text(heap, o, slot.name, slot.what, steps);
    Some((slot.name, ty))
}
