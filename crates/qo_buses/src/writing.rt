//! What is written into the slots of an object, by the names of their properties. None of these calls takes memory.

ghost use Rattle.std.specs.Prelude.{◌≡◌, ℕ, Bool, Some, None, IfSome, IfNone, option_map};
ghost use Rattle.qo_values.specs.Kinds.{type_name};
ghost use Rattle.qo_slots.specs.declared.keys.Key.{Key};
ghost use Rattle.qo_model.specs.Board.{Board};
ghost use Rattle.qo_model.specs.Plug.{fitted, link_named};
ghost use Rattle.qo_model.specs.RowNames.{property_name};
ghost use Rattle.qo_model.specs.Types.{is_a};
ghost use Rattle.qo_model.specs.Unplug.{set_named};
ghost use Rattle.qo_object.specs.BoardObject.{shown_slot};
ghost use Rattle.qo_object.specs.declared.slots.Slot.TheVariants.{Link};
ghost use Rattle.qo_heap.specs.Rows.{IsLive};
ghost use Rattle.qo_heap.specs.Board.{Shows, pins_in};
ghost use Rattle.qo_heap.specs.Objects.{content_of};
ghost use Rattle.qo_life.specs.Life.{Goes};

use qo_heap::{Heap, Oid, Slot, Steps};
use qo_model::PropertyName;
use qo_types::TypeTable;
use qo_values::{TypeId, Val};
use std::sync::ledger::Ledger;

/// The type of the targets of a link that has none; `None` of any other slot.
fn open_type(what: &Slot) -> Option<TypeId>
    ensures open { IfSome result (λ ty. (strong : Bool) × (what.now ≡ Link ty strong None)) }
    ensures closed { IfNone result ((b : Board) (m : ℕ) → fitted b m (shown_slot what.now) ≡ shown_slot what.now) }
{
    match what {
        Slot::Link { ty, target, .. } => match target {
            None => Some(*ty),
            Some(_) => None,
        },
        Slot::Plain(_) | Slot::Child(_) | Slot::Alias(_, _) => None,
    }
}

/// Whether an object is of the type of a link's targets.
fn is_fit<L: Ledger>(heap: &Heap, o: Oid, ty: TypeId, steps: &mut Steps<L>) -> bool
    requires { IsLive heap.now.rows o }
    ensures { option_map (λ c. is_a c.kind (type_name ty)) (content_of heap.now o.birth) ≡ Some result }
{
    TypeTable::board().derives_from(heap.kind(o, steps), ty)
}

/// Points the link of a name of an object at another, where it has no target and the other is of its
/// type.
fn point_open<L: Ledger>(
    heap: &mut Heap,
    o: Oid,
    name: PropertyName,
    target: Oid,
    steps: &mut Steps<L>,
)
    requires live { IsLive heap.old.rows o }
    requires target { IsLive heap.old.rows target }
    ensures goes { Goes (link_named o.birth (property_name name) target.birth) heap.old heap.new }
    ensures names { (key : Key) → IsLive heap.old.rows key → IsLive heap.new.rows key }
    ensures pins { pins_in heap.new.rows ≡ pins_in heap.old.rows }
{
    heap.reveal_invariant();
    let Some(view) = heap.property(o, name, steps) else {
        return;
    };
    let Some(ty) = open_type(view.what) else {
        return;
    };
    let at = view.at;
    if is_fit(heap, target, ty, steps) {
        heap.point(o, at, target, steps);
    }
}

/// Points the link of a name of an object at another, where it has no target and the other is of its
/// type; anything else stays.
pub fn point_named<L: Ledger>(
    heap: &mut Heap,
    o: Oid,
    name: PropertyName,
    target: Oid,
    steps: &mut Steps<L>,
)
    requires live { IsLive heap.old.rows o }
    requires target { IsLive heap.old.rows target }
    ensures shown { (b : Board) → Shows b heap.old → Shows (link_named o.birth (property_name name) target.birth b) heap.new }
    ensures goes { Goes (link_named o.birth (property_name name) target.birth) heap.old heap.new }
    ensures names { (key : Key) → IsLive heap.old.rows key → IsLive heap.new.rows key }
    ensures pins { pins_in heap.new.rows ≡ pins_in heap.old.rows }
{
    point_open(heap, o, name, target, steps);
}

/// Gives the plain property of a name of an object a value.
fn put_named<L: Ledger>(heap: &mut Heap, o: Oid, name: PropertyName, val: Val, steps: &mut Steps<L>)
    requires { IsLive heap.old.rows o }
    ensures goes { Goes (set_named o.birth (property_name name) val) heap.old heap.new }
    ensures names { (key : Key) → IsLive heap.old.rows key → IsLive heap.new.rows key }
    ensures pins { pins_in heap.new.rows ≡ pins_in heap.old.rows }
{
    heap.reveal_invariant();
    let Some(view) = heap.property(o, name, steps) else {
        return;
    };
    let at = view.at;
    heap.set(o, at, val, steps);
}

/// Gives the plain property of a name of an object a value; anything else stays.
#[inline(always)]
pub fn set_named<L: Ledger>(
    heap: &mut Heap,
    o: Oid,
    name: PropertyName,
    val: Val,
    steps: &mut Steps<L>,
)
    requires { IsLive heap.old.rows o }
    ensures shown { (b : Board) → Shows b heap.old → Shows (set_named o.birth (property_name name) val b) heap.new }
    ensures goes { Goes (set_named o.birth (property_name name) val) heap.old heap.new }
    ensures names { (key : Key) → IsLive heap.old.rows key → IsLive heap.new.rows key }
    ensures pins { pins_in heap.new.rows ≡ pins_in heap.old.rows }
{
    put_named(heap, o, name, val, steps);
}
