//! What is read of a device (include/hw/qdev-core.h: realization; the clock of a device).

ghost use Rattle.std.specs.Prelude.{◌≡◌, ◌+◌, IfSome};
ghost use Rattle.qo_values.specs.Kinds.{type_name};
ghost use Rattle.qo_model.specs.Board.{Board};
ghost use Rattle.qo_model.specs.Devices.{bus_of, clock_of, is_realized, is_true, bus_slot_of};
ghost use Rattle.qo_model.specs.Paths.{is_of};
ghost use Rattle.qo_object.specs.BoardObject.{birth_of};
ghost use Rattle.qo_heap.specs.Rows.{IsLive};
ghost use Rattle.qo_heap.specs.Board.{Shows};

use crate::slots::{child_in, number_at, plain_at, strong_at};
use qo_heap::{Heap, Oid, Steps};
use qo_model::PropertyName;
use qo_types::TypeTable;
use qo_values::{TypeId, Val};
use std::sync::ledger::Ledger;

/// Whether an object is of a type, or of one that derives from it.
pub fn is_of<L: Ledger>(heap: &Heap, o: Oid, wanted: TypeId, steps: &mut Steps<L>) -> bool
    requires { IsLive heap.now.rows o }
    ensures kind { (b : Board) → Shows b heap.now → result ≡ is_of b (type_name wanted) o.birth }
    ensures cost { steps.new ≡ steps.old + 1 }
{
    TypeTable::board().derives_from(heap.kind(o, steps), wanted)
}

/// The truth value that a value is; false of any other value.
fn is_true(val: &Val) -> bool
    ensures { result ≡ is_true val.now }
{
    match val {
        Val::Bool(truth) => *truth,
        _ => false,
    }
}

/// Whether a device is realized; an object that is no device is not.
pub fn is_realized<L: Ledger>(heap: &Heap, o: Oid, steps: &mut Steps<L>) -> bool
    requires { IsLive heap.now.rows o }
    ensures { (b : Board) → Shows b heap.now → result ≡ is_realized b o.birth }
{
    match plain_at(heap, o, PropertyName::Realized, steps) {
        Some(val) => is_true(val),
        None => false,
    }
}

/// The bus that a device is on; `None` exactly where it is on none.
pub fn bus_of<L: Ledger>(heap: &Heap, dev: Oid, steps: &mut Steps<L>) -> Option<Oid>
    requires { IsLive heap.now.rows dev }
    ensures bus { (b : Board) → Shows b heap.now → birth_of result ≡ bus_of b dev.birth }
    ensures live { IfSome result (IsLive heap.now.rows) }
{
    strong_at(heap, dev, PropertyName::ParentBus, steps)
}

/// The slot of its bus that a device is in.
pub fn bus_slot_of<L: Ledger>(heap: &Heap, dev: Oid, steps: &mut Steps<L>) -> Option<u64>
    requires { IsLive heap.now.rows dev }
    ensures { (b : Board) → Shows b heap.now → result ≡ bus_slot_of b dev.birth }
{
    number_at(heap, dev, PropertyName::Slot, steps)
}

/// The clock of a device; `None` exactly where it has none.
pub fn clock_of<L: Ledger>(heap: &Heap, dev: Oid, steps: &mut Steps<L>) -> Option<Oid>
    requires { IsLive heap.now.rows dev }
    ensures clock { (b : Board) → Shows b heap.now → birth_of result ≡ clock_of b dev.birth }
    ensures live { IfSome result (IsLive heap.now.rows) }
{
    heap.reveal_invariant();
    let slot = heap.property(dev, PropertyName::Clk, steps)?;
    child_in(slot.what)
}
