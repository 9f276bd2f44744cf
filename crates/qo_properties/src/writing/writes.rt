//! Writing the properties of objects (docs/devel/qom.rst, "The QEMU Object Model": properties and
//! link; QEMU's QAPI, `qom-set`).

ghost use Rattle.std.specs.Prelude.{◌≡◌, true, false, Some, IfOk, IfSome, OnErr, option_map, option_and_then};
ghost use Rattle.qo_slots.specs.declared.keys.Key.{Key};
ghost use Rattle.qo_model.specs.Board.{Board as Tree, slot_at};
ghost use Rattle.qo_model.specs.Properties.{link_target, pointed_at, relinked, write, written, written_by};
ghost use Rattle.qo_model.specs.Access.{write_at};
ghost use Rattle.qo_model.specs.ClockProperties.{set_property};
ghost use Rattle.qo_clocks.specs.Kept.{Clocked};
ghost use Rattle.qo_object.specs.Content.{empty_link_at};
ghost use Rattle.qo_object.specs.BoardObject.{birth_of};
ghost use Rattle.qo_object.specs.Slots.{referent, slot_in};
ghost use Rattle.qo_heap.specs.Rows.{IsLive};
ghost use Rattle.qo_heap.specs.Board.{Shows, pins_in};
ghost use Rattle.qo_heap.specs.Objects.{content_of, slots_of};
ghost use Rattle.qo_heap.specs.Moments.{Timely};
ghost use Rattle.qo_properties.specs.Claims.{KeepsBook};
ghost use Rattle.qo_properties.specs.KeptClaims.{ClaimsBefore, CountsBefore, KeptBefore};
ghost use Rattle.qo_properties.specs.KeptPeriods.{KeepsClocks};
ghost use Rattle.qo_properties.specs.Writes.{Writes, is_link_at, is_of_clock, is_of_clock_at, is_plain_at, link_type_at, no_target, target_told, to_link, to_plain};

use crate::reading::lookup::place_named;
use crate::reading::naming::object_at;
use crate::reading::values::copy_of;
use crate::refusals::Refusal;
use crate::writing::clocks::{led_to, set_row, write_property};
use qo_heap::{Heap, Oid, Slot, Steps};
use qo_life::drop_hold;
use qo_model::{Access, Property, PropertyRole};
use qo_paths::{PathError, resolve};
use qo_types::TypeTable;
use qo_values::{Code, Misfit, PropType, TypeId, Val};
use std::alloc::Global;
use std::sync::ledger::Ledger;

/// Why a text that leads to no object of a link's type is refused.
fn no_target<L: Ledger>(heap: &Heap, path: &str, steps: &mut Steps<L>) -> Code
    ensures { (b : Tree) → Shows b heap.now → result ≡ no_target b path.now }
{
    match resolve(heap, path, "object", steps) {
        Err(PathError::NotFound) => Code::E15,
        _ => Code::E31,
    }
}

/// What a text names as the target of a link to objects of a type: no target where it is empty.
pub fn link_target<L: Ledger>(
    heap: &Heap,
    ty: TypeId,
    path: &str,
    steps: &mut Steps<L>,
) -> Result<Option<Oid>, Code>
    ensures target { (b : Tree) → Shows b heap.now → target_told result ≡ link_target b ty path.now }
    ensures live { IfOk result (λ target. IfSome target (IsLive heap.now.rows)) }
{
    if path.is_empty() {
        return Ok(None);
    }
    match resolve(heap, path, ty.name(), steps) {
        Ok(o) => Ok(Some(o)),
        Err(PathError::Ambiguous) => Err(Code::E16),
        Err(PathError::NotFound) => Err(no_target(heap, path, steps)),
    }
}

/// The object that the slot of an object at a place holds.
fn held_at<L: Ledger>(heap: &Heap, o: Oid, at: usize, steps: &mut Steps<L>) -> Option<Oid>
    requires { IsLive heap.now.rows o }
    ensures { result ≡ option_and_then referent (slot_in (slots_of heap.now o.birth) at) }
{
    let slot = heap.slot_at(o, at, steps)?;
    slot.what.referent()
}

/// The type to whose objects the slot of an object at a place is a link; `None` where it is no link.
fn link_type<L: Ledger>(heap: &Heap, o: Oid, at: usize, steps: &mut Steps<L>) -> Option<TypeId>
    requires { IsLive heap.now.rows o }
    ensures { result ≡ link_type_at heap.now o.birth at }
{
    let slot = heap.slot_at(o, at, steps)?;
    match slot.what {
        Slot::Link { ty, .. } => Some(*ty),
        _ => None,
    }
}

/// Points the link of an object at a place, which has no target, at one, if there is one.
fn point_at<L: Ledger>(
    heap: &mut Heap,
    o: Oid,
    at: usize,
    target: Option<Oid>,
    steps: &mut Steps<L>,
)
    requires live { IsLive heap.old.rows o }
    requires target { IfSome target (IsLive heap.old.rows) }
    requires link { option_map (λ c. empty_link_at c at) (content_of heap.old o.birth) ≡ Some true }
    ensures shown { (b : Tree) → Shows b heap.old → Shows (pointed_at (birth_of target) o.birth at b) heap.new }
    ensures names { (key : Key) → IsLive heap.old.rows key → IsLive heap.new.rows key }
    ensures pins { pins_in heap.new.rows ≡ pins_in heap.old.rows }
    ensures book { KeepsBook heap.old heap.new }
    ensures kept { KeptBefore heap.old heap.new }
{
    if let Some(to) = target {
        heap.point(o, at, to, steps);
    }
}

/// Points the link of an object at a place at a target, or at none, and finalizes what it held where
/// nothing refers to that any more.
fn relink<L: Ledger>(heap: &mut Heap, o: Oid, at: usize, target: Option<Oid>, steps: &mut Steps<L>)
    requires live { IsLive heap.old.rows o }
    requires target { IfSome target (IsLive heap.old.rows) }
    requires link { is_link_at heap.old o.birth at ≡ true }
    ensures shown { (b : Tree) → Shows b heap.old → Shows (relinked b o.birth at (birth_of target)) heap.new }
    ensures pins { pins_in heap.new.rows ≡ pins_in heap.old.rows }
    ensures book { KeepsBook heap.old heap.new }
    ensures kept { KeptBefore heap.old heap.new }
{
    heap.reveal_invariant();
    let held = held_at(heap, o, at, steps);
    heap.empty(o, at, steps);
    point_at(heap, o, at, target, steps);
    drop_hold(heap, held, steps);
}

/// Whether the slot of an object at a place is plain; not past the last.
fn is_plain<L: Ledger>(heap: &Heap, o: Oid, at: usize, steps: &mut Steps<L>) -> bool
    requires { IsLive heap.now.rows o }
    ensures { result ≡ is_plain_at heap.now o.birth at }
{
    let Some(slot) = heap.slot_at(o, at, steps) else {
        return false;
    };
    matches!(slot.what, Slot::Plain(_))
}

/// Gives the slot of an object at a place a value; refused with E18 where the slot is not plain, and
/// E19 where the value is not of the type. An error leaves the heap as it was.
fn write_plain<L: Ledger>(
    heap: &mut Heap,
    o: Oid,
    at: usize,
    ty: PropType,
    val: &Val,
    alloc: Global,
    steps: &mut Steps<L>,
) -> Result<(), Refusal>
    requires live { IsLive heap.old.rows o }
    ensures written { (b : Tree) → Shows b heap.old → Writes heap.new result (to_plain b o.birth at ty (slot_at b o.birth at) val.now) }
    ensures err { OnErr result (heap.new ≡ heap.old) }
    ensures pins { pins_in heap.new.rows ≡ pins_in heap.old.rows }
    ensures book { KeepsBook heap.old heap.new }
    ensures kept { KeptBefore heap.old heap.new }
{
    if !is_plain(heap, o, at, steps) {
        return Err(Refusal::Refused(Code::E18));
    }
    if let Err(Misfit) = ty.admit(val) {
        return Err(Refusal::Refused(Code::E19));
    }
    let copy = copy_of(val, alloc)?;
    heap.set(o, at, copy, steps);
    Ok(())
}

/// Points the link of an object at a place at what a text names; refused with E18 where the slot is
/// no link, and E19 where the value is no text. An error leaves the heap as it was.
fn write_link<L: Ledger>(
    heap: &mut Heap,
    o: Oid,
    at: usize,
    val: &Val,
    steps: &mut Steps<L>,
) -> Result<(), Refusal>
    requires live { IsLive heap.old.rows o }
    ensures written { (b : Tree) → Shows b heap.old → Writes heap.new result (to_link b o.birth at (slot_at b o.birth at) val.now) }
    ensures err { OnErr result (heap.new ≡ heap.old) }
    ensures pins { pins_in heap.new.rows ≡ pins_in heap.old.rows }
    ensures book { KeepsBook heap.old heap.new }
    ensures kept { KeptBefore heap.old heap.new }
{
    let Some(ty) = link_type(heap, o, at, steps) else {
        return Err(Refusal::Refused(Code::E18));
    };
    let Val::Text(path) = val else {
        return Err(Refusal::Refused(Code::E19));
    };
    let target = link_target(heap, ty, path.as_str(), steps)?;
    relink(heap, o, at, target, steps);
    Ok(())
}

/// Writes the slot of an object at a place, whose property has this row.
fn write_role<L: Ledger>(
    heap: &mut Heap,
    o: Oid,
    at: usize,
    role: PropertyRole,
    val: &Val,
    alloc: Global,
    steps: &mut Steps<L>,
) -> Result<(), Refusal>
    requires live { IsLive heap.old.rows o }
    ensures written { (b : Tree) → Shows b heap.old → Writes heap.new result (written b o.birth at role (slot_at b o.birth at) val.now) }
    ensures err { OnErr result (heap.new ≡ heap.old) }
    ensures pins { pins_in heap.new.rows ≡ pins_in heap.old.rows }
    ensures book { KeepsBook heap.old heap.new }
    ensures kept { KeptBefore heap.old heap.new }
{
    match role {
        PropertyRole::Plain(ty, _) => write_plain(heap, o, at, ty, val, alloc, steps),
        PropertyRole::Link { .. } => write_link(heap, o, at, val, steps),
        PropertyRole::Child(_) => Err(Refusal::Refused(Code::E18)),
        PropertyRole::Alias { .. } => Err(Refusal::Refused(Code::E18)),
    }
}

/// Writes the slot of an object at a place, whose property has this row; refused with E18 where the
/// command that adds an object and `qom-set` do not both write such a property.
fn write_row<L: Ledger>(
    heap: &mut Heap,
    o: Oid,
    at: usize,
    row: Property,
    val: &Val,
    alloc: Global,
    steps: &mut Steps<L>,
) -> Result<(), Refusal>
    requires live { IsLive heap.old.rows o }
    ensures written { (b : Tree) → Shows b heap.old → Writes heap.new result (written_by b o.birth at (Some row) val.now) }
    ensures err { OnErr result (heap.new ≡ heap.old) }
    ensures pins { pins_in heap.new.rows ≡ pins_in heap.old.rows }
    ensures book { KeepsBook heap.old heap.new }
    ensures kept { KeptBefore heap.old heap.new }
{
    match row.access {
        Access::Both => write_role(heap, o, at, row.role, val, alloc, steps),
        _ => Err(Refusal::Refused(Code::E18)),
    }
}

/// Writes the property of a name of an object, where the command that adds an object and `qom-set` both
/// write it. An error leaves the heap as it was.
fn write<L: Ledger>(
    heap: &mut Heap,
    o: Oid,
    name: &str,
    val: &Val,
    alloc: Global,
    steps: &mut Steps<L>,
) -> Result<(), Refusal>
    requires live { IsLive heap.old.rows o }
    ensures written { (b : Tree) → Shows b heap.old → Writes heap.new result (write b o.birth name.now val.now) }
    ensures err { OnErr result (heap.new ≡ heap.old) }
    ensures pins { pins_in heap.new.rows ≡ pins_in heap.old.rows }
    ensures book { KeepsBook heap.old heap.new }
    ensures kept { KeptBefore heap.old heap.new }
{
    let Some(at) = place_named(heap, o, name, steps) else {
        return Err(Refusal::Refused(Code::E17));
    };
    let kind = heap.kind(o, steps);
    let Some(row) = TypeTable::board().property(kind, name) else {
        return Err(Refusal::Refused(Code::E18));
    };
    write_row(heap, o, at, row, val, alloc, steps)
}

/// Writes the property of a name of an object, as `qom-set` does. An error leaves the heap as it was.
fn set_property<L: Ledger>(
    heap: &mut Heap,
    o: Oid,
    name: &str,
    val: &Val,
    alloc: Global,
    steps: &mut Steps<L>,
) -> Result<(), Refusal>
    requires live { IsLive heap.old.rows o }
    requires timely { Timely heap.old }
    ensures written { (b : Tree) → Shows b heap.old → (is_of_clock b o.birth name.now ≡ true → Clocked b heap.old) → Writes heap.new result (set_property b o.birth name.now val.now) }
    ensures err { OnErr result (heap.new ≡ heap.old) }
    ensures pins { pins_in heap.new.rows ≡ pins_in heap.old.rows }
    ensures book { KeepsBook heap.old heap.new }
    ensures claims { ClaimsBefore heap.old heap.new }
    ensures counts { CountsBefore heap.old heap.new }
    ensures kept { (b : Tree) → Shows b heap.old → is_of_clock b o.birth name.now ≡ false → KeptBefore heap.old heap.new }
    ensures clocks { (b : Tree) → Shows b heap.old → is_of_clock b o.birth name.now ≡ true → KeepsClocks heap.old heap.new }
{
    if set_row(heap, o, name, steps).is_none() {
        return write(heap, o, name, val, alloc, steps);
    }
    let (clock, row) = led_to(heap, o, name, steps)?;
    write_property(heap, clock, row, val, steps)
}

/// Writes the property of a name of the object at a path (QEMU's QAPI, `qom-set`). A link takes the
/// path of its target, or the empty text for none; what it held is finalized where nothing refers to
/// it any more. A clock takes a number for its period, its mul and its div, the first also by the
/// device's alias for it; the devices of the clocks below are called back (`qo_clocks::set`). Refused
/// with E15 where a path leads to no object and E16 where to several, E17 where the object has no such
/// property, E18 where `qom-set` does not write it, E19 where the value does not fit, E31 where the
/// target is not of the link's type, and then E45 where the clock has a source, E46 where it would
/// divide by 0, and E47 where a period would not fit in 64 bits. The other error is want of memory,
/// which comes only where a value is copied. An error leaves the heap as it was.
///
/// What is called back may be a timer, which reads the time, so no timer may have had a moment after
/// the heap's time.
pub fn set<L: Ledger>(
    heap: &mut Heap,
    path: &str,
    name: &str,
    val: &Val,
    alloc: Global,
    steps: &mut Steps<L>,
) -> Result<(), Refusal>
    requires timely { Timely heap.old }
    ensures written { (b : Tree) → Shows b heap.old → (is_of_clock_at b path.now name.now ≡ true → Clocked b heap.old) → Writes heap.new result (write_at b path.now name.now val.now) }
    ensures err { OnErr result (heap.new ≡ heap.old) }
    ensures pins { pins_in heap.new.rows ≡ pins_in heap.old.rows }
    ensures book { KeepsBook heap.old heap.new }
    ensures claims { ClaimsBefore heap.old heap.new }
    ensures counts { CountsBefore heap.old heap.new }
    ensures kept { (b : Tree) → Shows b heap.old → is_of_clock_at b path.now name.now ≡ false → KeptBefore heap.old heap.new }
    ensures clocks { (b : Tree) → Shows b heap.old → is_of_clock_at b path.now name.now ≡ true → KeepsClocks heap.old heap.new }
{
    let o = object_at(heap, path, steps)?;
    set_property(heap, o, name, val, alloc, steps)
}
