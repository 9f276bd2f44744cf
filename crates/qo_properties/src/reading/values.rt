//! Reading the properties of objects (docs/devel/qom.rst, "The QEMU Object Model": properties, child
//! and link; QEMU's QAPI, `qom-get`).

ghost use Rattle.std.specs.Prelude.{◌≡◌, true, IfOk, is_some, option_map};
ghost use Rattle.qo_model.specs.Board.{Board as Tree, slot_named};
ghost use Rattle.qo_model.specs.Clocks.{derived_period, source_of};
ghost use Rattle.qo_clocks.specs.Kept.{Clocked};
ghost use Rattle.qo_model.specs.Properties.{own_value, plain_value, value_of};
ghost use Rattle.qo_model.specs.Access.{read};
ghost use Rattle.qo_object.specs.BoardObject.{shown_slot};
ghost use Rattle.qo_heap.specs.Rows.{IsLive};
ghost use Rattle.qo_heap.specs.Board.{Shows};
ghost use Rattle.qo_properties.specs.Reads.{Answers, is_derived, reads_derived, reads_derived_at};

use crate::reading::lookup::object_of;
use crate::reading::naming::{object_at, path_text, target_text};
use crate::refusals::Refusal;
use qo_clocks::{period, source_of};
use qo_heap::{Heap, Oid, Slot, Steps};
use qo_values::{Code, Text, Val};
use std::alloc::{AllocError, Global};
use std::sync::ledger::Ledger;

/// A value once more.
pub fn copy_of(val: &Val, alloc: Global) -> Result<Val, AllocError>
    ensures { IfOk result (λ copy. copy ≡ val.now) }
{
    Ok(match val {
        Val::Bool(truth) => Val::Bool(*truth),
        Val::Int(number) => Val::Int(*number),
        Val::Uint(number) => Val::Uint(*number),
        Val::Text(text) => Val::Text(Text::from_string(String::from_str(alloc, text.as_str())?)),
        Val::Nothing => Val::Nothing,
    })
}

/// The period of a clock that goes by another, in units of 2^-32 ns; `None` exactly where it goes by
/// none.
fn derived_period<L: Ledger>(heap: &Heap, o: Oid, steps: &mut Steps<L>) -> Option<u64>
    requires { IsLive heap.now.rows o }
    ensures { (b : Tree) → Shows b heap.now → (is_some (source_of b o.birth) ≡ true → Clocked b heap.now) → result ≡ derived_period b o.birth }
{
    source_of(heap, o, steps)?;
    Some(period(heap, o, steps))
}

/// What is read of a value of an object, under a name: the period of a clock that goes by another is
/// the one that it has by that.
fn plain_value<L: Ledger>(
    heap: &Heap,
    o: Oid,
    name: &str,
    val: &Val,
    alloc: Global,
    steps: &mut Steps<L>,
) -> Result<Val, AllocError>
    requires { IsLive heap.now.rows o }
    ensures { (b : Tree) → Shows b heap.now → (is_derived b o.birth name.now ≡ true → Clocked b heap.now) → IfOk result (λ read. read ≡ plain_value b o.birth name.now val.now) }
{
    if name != "period" {
        return copy_of(val, alloc);
    }
    match derived_period(heap, o, steps) {
        Some(period) => Ok(Val::Uint(period)),
        None => copy_of(val, alloc),
    }
}

/// The value that is read of a slot of an object, under a name, that is no alias.
fn own_value<L: Ledger>(
    heap: &Heap,
    o: Oid,
    name: &str,
    what: &Slot,
    alloc: Global,
    steps: &mut Steps<L>,
) -> Result<Val, AllocError>
    requires { IsLive heap.now.rows o }
    ensures { (b : Tree) → Shows b heap.now → (is_derived b o.birth name.now ≡ true → Clocked b heap.now) → IfOk result (λ val. val ≡ own_value b o.birth name.now (shown_slot what.now)) }
{
    match what {
        Slot::Plain(val) => plain_value(heap, o, name, val, alloc, steps),
        Slot::Child(child) => {
            let text = path_text(heap, *child, alloc, steps)?;
            Ok(Val::Text(Text::from_string(text)))
        }
        Slot::Link { target, .. } => {
            let text = target_text(heap, *target, alloc, steps)?;
            Ok(Val::Text(Text::from_string(text)))
        }
        Slot::Alias(_, _) => Ok(Val::Nothing),
    }
}

/// The value of the property of a name of the object of a birth, which an alias reads as.
fn passed_on<L: Ledger>(
    heap: &Heap,
    birth: u64,
    of: &str,
    alloc: Global,
    steps: &mut Steps<L>,
) -> Result<Option<Val>, AllocError>
    ensures { (b : Tree) → Shows b heap.now → (is_derived b birth of.now ≡ true → Clocked b heap.now) → IfOk result (λ val. val ≡ option_map (own_value b birth of.now) (slot_named b birth of.now)) }
{
    let Some(o) = object_of(heap, birth) else {
        return Ok(None);
    };
    let Some(slot) = heap.slot(o, of, steps) else {
        return Ok(None);
    };
    Ok(Some(own_value(heap, o, of, slot.what, alloc, steps)?))
}

/// The value of the property of a name of an object; `None` exactly where it has no such property.
fn value_of<L: Ledger>(
    heap: &Heap,
    o: Oid,
    name: &str,
    alloc: Global,
    steps: &mut Steps<L>,
) -> Result<Option<Val>, AllocError>
    requires { IsLive heap.now.rows o }
    ensures { (b : Tree) → Shows b heap.now → (reads_derived b o.birth name.now ≡ true → Clocked b heap.now) → IfOk result (λ val. val ≡ value_of b o.birth name.now) }
{
    let Some(slot) = heap.slot(o, name, steps) else {
        return Ok(None);
    };
    if let Slot::Alias(target, of) = slot.what {
        return passed_on(heap, target.birth, of.as_str(), alloc, steps);
    }
    Ok(Some(own_value(heap, o, name, slot.what, alloc, steps)?))
}

/// The value of the property of a name of the object at a path (QEMU's QAPI, `qom-get`). A child and
/// a link read as the text that names the object: its canonical path, or `detached:` and its birth; a
/// link without a target as the empty text; the period of a clock that goes by another as the one that
/// it has by that; an alias as the property that it passes on to. Refused with E15 where the path leads
/// to no object, E16 where to several, and E17 where the object has no such property.
pub fn get<L: Ledger>(
    heap: &Heap,
    path: &str,
    name: &str,
    alloc: Global,
    steps: &mut Steps<L>,
) -> Result<Val, Refusal>
    ensures { (b : Tree) → Shows b heap.now → (reads_derived_at b path.now name.now ≡ true → Clocked b heap.now) → Answers (λ val. val) result (read b path.now name.now) }
{
    let o = object_at(heap, path, steps)?;
    match value_of(heap, o, name, alloc, steps)? {
        Some(val) => Ok(val),
        None => Err(Refusal::Refused(Code::E17)),
    }
}
