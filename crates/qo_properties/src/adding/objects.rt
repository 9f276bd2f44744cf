//! Making users' objects.

ghost use Rattle.std.specs.Prelude.{◌≡◌, ◌≤◌, ◌^◌, None, Some, filter_map, length, option_map, IfOk, IfSome, OnOk, OnErr, List};
ghost use Rattle.std.specs.List.{AllByRecursion, AllZip, IsDistinct};
ghost use Rattle.std.specs.Str.{bytes_eq};
ghost use Rattle.qo_values.specs.declared.births.TheConstants.{OBJECTS_BIRTH};
ghost use Rattle.qo_heap.specs.Rows.{IsLive};
ghost use Rattle.qo_model.specs.Board.{Board};
ghost use Rattle.qo_model.specs.Objects.{Given, with_object};
ghost use Rattle.qo_object.specs.Content.{reference_count, without_pin};
ghost use Rattle.qo_object.specs.Slots.{child_of, names_of, target_of};
ghost use Rattle.qo_heap.specs.Board.{Shows, pins_in};
ghost use Rattle.qo_heap.specs.Objects.{content_of, ended, pins_of, refs_of, with_edit};
ghost use Rattle.qo_properties.specs.Additions.{Adds, IsChild, IsTried};
ghost use Rattle.qo_properties.specs.Claims.{KeepsBook};
ghost use Rattle.qo_properties.specs.KeptClaims.{KeptOrNew};
ghost use Rattle.qo_properties.specs.Filling.{Fits, IsGiven, target_in};
ghost use Rattle.qo_properties.specs.NewSlots.{new_slots};

use crate::adding::checks::{Admitted, check_object};
use crate::adding::failed_add::failed_add;
use crate::adding::filling::InitialValue;
use crate::adding::fresh::planned_slots;
use crate::adding::planning::plan;
use crate::refusals::Refusal;
use qo_heap::{Heap, NewSlots, Oid, SlotName, Steps};
use qo_life::create;
use qo_values::{PropList, TypeId};
use std::alloc::{AllocError, Global};
use std::sync::ledger::Ledger;

/// Ends an object that holds nothing, and that nothing holds but its one pin.
pub(crate) fn give_up<L: Ledger>(heap: &mut Heap, o: Oid, steps: &mut Steps<L>)
    requires live { IsLive heap.old.rows o }
    requires pinned { pins_of heap.old o.birth ≡ 1 }
    requires alone { refs_of heap.old o.birth ≡ 1 }
    requires bare { option_map reference_count (content_of heap.old o.birth) ≡ Some 0 }
    ensures { option_map (λ c. ended o.birth c (with_edit o.birth without_pin heap.old)) (content_of heap.old o.birth) ≡ Some heap.new }
{
    heap.unpin(o, steps);
    heap.finish(o, steps);
}

/// Makes an object of a type with these slots, whose names differ and of which none is a child slot,
/// as a child of another. It gets them
/// once it is a child, which takes no memory, so that where memory wants, it holds nothing: the heap is
/// as it was, or the object was made and ended.
#[inline(always)]
fn make_with<L: Ledger>(
    heap: &mut Heap,
    parent: Oid,
    name: SlotName,
    kind: TypeId,
    slots: NewSlots,
    alloc: Global,
    steps: &mut Steps<L>,
) -> Result<Oid, AllocError>
    requires parent { IsLive heap.old.rows parent }
    requires targets { AllByRecursion (IsLive heap.old.rows) (filter_map (λ s. target_of s.1) slots) }
    requires differ { IsDistinct bytes_eq (names_of slots) }
    requires few { length slots ≤ 2 ^ 32 }
    requires childless { AllByRecursion (λ s. child_of s.1 ≡ None) slots }
    ensures made { IfOk result (λ o. IsChild heap.old heap.new o parent name kind slots) }
    ensures err { OnErr result (IsTried kind heap.old heap.new) }
{
    heap.reveal_invariant();
    let o = create(heap, alloc, kind, steps)?;
    match heap.add_child(parent, name, o, steps) {
        Ok(()) => {
            heap.set_slots(o, slots, steps);
            Ok(o)
        }
        Err(_) => {
            give_up(heap, o, steps);
            Err(AllocError)
        }
    }
}

/// Makes an object of a type with its first slots, as a child of another. Where memory wants, the
/// heap is as it was, or the object was made and ended.
pub fn make_child<L: Ledger>(
    heap: &mut Heap,
    parent: Oid,
    name: SlotName,
    kind: TypeId,
    alloc: Global,
    steps: &mut Steps<L>,
) -> Result<Oid, AllocError>
    requires { IsLive heap.old.rows parent }
    ensures made { IfOk result (λ o. IsChild heap.old heap.new o parent name kind (new_slots kind)) }
    ensures err { OnErr result (IsTried kind heap.old heap.new) }
{
    let slots = planned_slots(kind, Vec::new(alloc), alloc)?;
    make_with(heap, parent, name, kind, slots, alloc, steps)
}

/// Makes an admitted object with its slots as they are planned, as a child of `/objects`, which alone
/// holds it then. Where memory wants, the heap is as it was, or the object was made and ended.
fn add_planned<L: Ledger>(
    heap: &mut Heap,
    admitted: Admitted,
    plan: Vec<InitialValue>,
    alloc: Global,
    steps: &mut Steps<L>,
) -> Result<(), AllocError>
    requires live { IsLive heap.old.rows admitted.objects }
    requires objects { admitted.objects.birth ≡ OBJECTS_BIRTH }
    requires targets { AllByRecursion (λ f. IfSome (target_in f) (IsLive heap.old.rows)) plan.items }
    requires fits { AllZip Fits plan.items (new_slots admitted.kind) }
    ensures ok { OnOk result ((b : Board) (props : List Given) → Shows b heap.old → AllZip (IsGiven b props) plan.items (new_slots admitted.kind) → Shows (with_object b admitted.kind admitted.name props) heap.new) }
    ensures err { OnErr result (IsTried admitted.kind heap.old heap.new) }
    ensures pins { pins_in heap.new.rows ≡ pins_in heap.old.rows }
    ensures book { KeepsBook heap.old heap.new }
    ensures kept { KeptOrNew heap.old heap.new }
{
    let Admitted {
        objects,
        name,
        kind,
    } = admitted;
    heap.reveal_invariant();
    let slots = planned_slots(kind, plan, alloc)?;
    let name = SlotName::own(name);
    let made = make_with(heap, objects, name, kind, slots, alloc, steps)?;
    heap.unpin(made, steps);
    Ok(())
}

/// Makes a user's object of a type's name under an id, with values for its properties, as a child of
/// `/objects` that nothing else holds (QEMU's QAPI, `object-add`).
/// Refused, in this order, with `E20` where no type has the name, `E21` where it is
/// abstract, `E22` where users may not make it, `E23` where the id is malformed, `E15` where
/// `/objects` is not there, `E24` where it has such a slot, and `E43` at `LIVE_OBJECTS_MAX` objects; the heap is
/// then as it was. A property that is refused, the first in the order given, is so with `E17`, `E18`,
/// `E19`, `E15`, `E16` or `E31` after an attempt that is given up: the object was made and ended.
/// Where memory wants, the heap is as it was, or an attempt was given up.
pub fn add_object<L: Ledger>(
    heap: &mut Heap,
    driver: &str,
    id: &str,
    props: &PropList,
    alloc: Global,
    steps: &mut Steps<L>,
) -> Result<(), Refusal>
    ensures change { (b : Board) → Shows b heap.old → Adds b driver.now id.now props.now result heap.new }
    ensures pins { pins_in heap.new.rows ≡ pins_in heap.old.rows }
    ensures book { KeepsBook heap.old heap.new }
    ensures kept { KeptOrNew heap.old heap.new }
{
    let admitted = check_object(heap, driver, id, alloc, steps)?;
    match plan(heap, admitted.kind, props, alloc, steps) {
        Ok(plan) => add_planned(heap, admitted, plan, alloc, steps)?,
        Err(Refusal::Refused(code)) => {
            failed_add(heap, admitted.kind, alloc, steps)?;
            return Err(Refusal::Refused(code));
        }
        Err(Refusal::Memory) => return Err(Refusal::Memory),
    }
    Ok(())
}
