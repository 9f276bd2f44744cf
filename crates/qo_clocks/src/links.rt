//! Which clock a clock goes by (docs/devel/clocks.rst, "Connecting two clocks together").

ghost use Rattle.std.specs.Prelude.{◌≡◌, ◌≢◌, Some, codes};
ghost use Rattle.qo_values.specs.declared.properties.Val.TheVariants as val;
ghost use Rattle.qo_heap.specs.Rows.{IsLive};
ghost use Rattle.qo_model.specs.Board.{Board};
ghost use Rattle.qo_model.specs.Plug.{with_source};
ghost use Rattle.qo_model.specs.RowNames.{property_name};
ghost use Rattle.qo_model.specs.Unplug.{disconnected};
ghost use Rattle.qo_object.specs.Slots.{with_val};
ghost use Rattle.qo_heap.specs.Board.{Shows};
ghost use Rattle.qo_heap.specs.Acts.{KeepsCounts};
ghost use Rattle.qo_clocks.specs.Kept.{FeedsNone, PeriodsKept, kept_afresh};
ghost use Rattle.qo_clocks.specs.Links.{accepts, changed_named, fitted_on, is_weak, unseen_on};

use crate::kept::keep_afresh;
use qo_heap::{Heap, Oid, Slot, Steps};
use qo_model::PropertyName;
use qo_types::TypeTable;
use qo_values::Val;
use std::sync::ledger::Ledger;

/// Whether a slot is a link without a target to objects of a type that an object is of.
fn accepts<L: Ledger>(heap: &Heap, slot: &Slot, target: Oid, steps: &mut Steps<L>) -> bool
    requires { IsLive heap.now.rows target }
    ensures { result ≡ accepts heap.now target slot.now }
{
    match slot {
        Slot::Link {
            ty,
            target: None,
            ..
        } => TypeTable::board().derives_from(heap.kind(target, steps), *ty),
        _ => false,
    }
}

/// A link of an object is pointed at a target, where it accepts it.
fn link<L: Ledger>(heap: &mut Heap, c: Oid, name: PropertyName, target: Oid, steps: &mut Steps<L>)
    requires live { IsLive heap.old.rows c }
    requires target { IsLive heap.old.rows target }
    ensures { heap.new ≡ changed_named c.birth (property_name name) (fitted_on heap.old target) heap.old }
{
    heap.reveal_invariant();
    let Some(link) = heap.property(c, name, steps) else {
        return;
    };
    let at = link.at;
    if accepts(heap, link.what, target, steps) {
        heap.point(c, at, target, steps);
    }
}

/// A clock goes by another from now on: its period is by the other's. Nobody is called back. A
/// clock that has a source keeps it. The periods that are kept stay right where no clock goes by this
/// one, and it is not to go by itself. It takes no memory.
pub fn connect<L: Ledger>(heap: &mut Heap, c: Oid, source: Oid, steps: &mut Steps<L>)
    requires live { IsLive heap.old.rows c }
    requires source { IsLive heap.old.rows source }
    ensures shown { (b : Board) → Shows b heap.old → Shows (with_source source.birth (Some c.birth) b) heap.new }
    ensures now { heap.new ≡ kept_afresh c.birth (changed_named c.birth (codes "source") (fitted_on heap.old source) heap.old) }
    ensures counts { KeepsCounts heap.old heap.new }
    ensures kept { PeriodsKept heap.old → FeedsNone heap.old c.birth → c.birth ≢ source.birth → PeriodsKept heap.new }
{
    link(heap, c, PropertyName::Source, source, steps);
    keep_afresh(heap, c, steps);
}

/// Whether a slot is a weak link.
fn is_weak(slot: &Slot) -> bool
    ensures { result ≡ is_weak slot.now }
{
    matches!(slot, Slot::Link { strong: false, .. })
}

/// A weak link of an object is emptied.
fn unlink<L: Ledger>(heap: &mut Heap, c: Oid, name: PropertyName, steps: &mut Steps<L>)
    requires { IsLive heap.old.rows c }
    ensures { heap.new ≡ changed_named c.birth (property_name name) unseen_on heap.old }
{
    heap.reveal_invariant();
    let Some(link) = heap.property(c, name, steps) else {
        return;
    };
    let at = link.at;
    if is_weak(link.what) {
        let _source = heap.empty(c, at, steps);
    }
}

/// A plain property of an object is given a number.
pub fn set_number<L: Ledger>(
    heap: &mut Heap,
    c: Oid,
    name: PropertyName,
    number: u64,
    steps: &mut Steps<L>,
)
    requires { IsLive heap.old.rows c }
    ensures { heap.new ≡ changed_named c.birth (property_name name) (with_val (val.Uint number)) heap.old }
{
    let Some(slot) = heap.property(c, name, steps) else {
        return;
    };
    let at = slot.at;
    heap.set(c, at, Val::Uint(number), steps);
}

/// A clock goes by no other from now on, and stands still. Nobody is called back. The periods that are
/// kept stay right where no clock goes by this one. It takes no memory.
pub fn disconnect<L: Ledger>(heap: &mut Heap, c: Oid, steps: &mut Steps<L>)
    requires { IsLive heap.old.rows c }
    ensures shown { (b : Board) → Shows b heap.old → Shows (disconnected (Some c.birth) b) heap.new }
    ensures now { heap.new ≡ kept_afresh c.birth (changed_named c.birth (codes "period") (with_val (val.Uint 0)) (changed_named c.birth (codes "source") unseen_on heap.old)) }
    ensures counts { KeepsCounts heap.old heap.new }
    ensures kept { PeriodsKept heap.old → FeedsNone heap.old c.birth → PeriodsKept heap.new }
{
    unlink(heap, c, PropertyName::Source, steps);
    set_number(heap, c, PropertyName::Period, 0, steps);
    keep_afresh(heap, c, steps);
}
