//! Making the objects of the opening board, in the order of births.

ghost use Rattle.std.specs.Prelude.{◌≡◌, Some, IfOk, OnOk};
ghost use Rattle.qo_values.specs.Names.{IsName};
ghost use Rattle.qo_values.specs.declared.kinds.TypeId.TheVariants.{Clock};
ghost use Rattle.qo_model.specs.Board.{Board};
ghost use Rattle.qo_heap.specs.Rows.{IsLive};
ghost use Rattle.qo_object.specs.Content.{as_made};
ghost use Rattle.qo_heap.specs.Board.{Shows};
ghost use Rattle.qo_heap.specs.Objects.{content_of, with_edit};
ghost use Rattle.qo_properties.specs.Claims.{KeepsBook};
ghost use Rattle.qo_properties.specs.KeptClaims.{NoneKept};
ghost use Rattle.qo_properties.specs.KeptPeriods.{OwnKept};
ghost use Rattle.qo_properties.specs.NewSlots.{new_slots};
ghost use Rattle.qo_properties.specs.OpeningSteps.{IsMade, KeepsNames, with_new, with_new_child, with_clock, with_containers, with_buses, with_machine, with_all, ticking};

use crate::adding::fresh::{name_of, set_default_slots};
use crate::reading::lookup::place_named;
use qo_heap::{Heap, Oid, Side, SlotName, Steps};
use qo_values::{SYSTEM_PERIOD, TypeId, Val};
use std::alloc::{AllocError, Global};
use std::sync::ledger::Ledger;

/// Makes an object of a type with its plain properties and its links.
fn make_new<L: Ledger>(
    heap: &mut Heap,
    kind: TypeId,
    alloc: Global,
    steps: &mut Steps<L>,
) -> Result<Oid, AllocError>
    ensures made { IfOk result (λ o. IsMade heap.old heap.new kind 1 o) }
    ensures shown { OnOk result ((b : Board) → Shows b heap.old → Shows (with_new kind b) heap.new) }
{
    heap.reveal_invariant();
    let o = heap.make(alloc, kind, steps)?;
    set_default_slots(heap, o, kind, alloc, steps)?;
    Ok(o)
}

/// Makes an object of a type as a child of another, which alone holds it then.
fn make_child<L: Ledger>(
    heap: &mut Heap,
    parent: Oid,
    name: &str,
    kind: TypeId,
    alloc: Global,
    steps: &mut Steps<L>,
) -> Result<Oid, AllocError>
    requires live { IsLive heap.old.rows parent }
    requires name { IsName name.now }
    ensures made { IfOk result (λ o. IsMade heap.old heap.new kind 0 o) }
    ensures shown { OnOk result ((b : Board) → Shows b heap.old → Shows (with_new_child parent.birth name.now kind b) heap.new) }
{
    heap.reveal_invariant();
    let child = make_new(heap, kind, alloc, steps)?;
    let name = name_of(name, alloc)?;
    heap.add_child(parent, SlotName::own(name), child, steps)?;
    heap.reveal_invariant();
    heap.unpin(child, steps);
    Ok(child)
}

/// Sets the period of a new clock to the system's, which is kept of it then, and of those that go by it.
fn set_period<L: Ledger>(heap: &mut Heap, clock: Oid, steps: &mut Steps<L>)
    requires live { IsLive heap.old.rows clock }
    requires content { content_of heap.old clock.birth ≡ Some (as_made Clock (new_slots Clock) 0) }
    ensures { heap.new ≡ with_edit clock.birth ticking heap.old }
{
    let Some(at) = place_named(heap, clock, "period", steps) else {
        return;
    };
    heap.set(clock, at, Val::Uint(SYSTEM_PERIOD), steps);
    heap.reveal_invariant();
    let side = heap.side(clock, steps);
    heap.set_side(
        clock,
        Side {
            period: SYSTEM_PERIOD,
            child: SYSTEM_PERIOD,
            ..side
        },
        steps,
    );
}

/// Makes the system clock as a child of the machine.
fn make_clock<L: Ledger>(
    heap: &mut Heap,
    machine: Oid,
    alloc: Global,
    steps: &mut Steps<L>,
) -> Result<(), AllocError>
    requires live { IsLive heap.old.rows machine }
    ensures names { OnOk result (KeepsNames heap.old heap.new) }
    ensures book { OnOk result (KeepsBook heap.old heap.new) }
    ensures bare { OnOk result (NoneKept heap.old → NoneKept heap.new) }
    ensures periods { OnOk result (OwnKept heap.old → OwnKept heap.new) }
    ensures shown { OnOk result ((b : Board) → Shows b heap.old → Shows (with_clock machine.birth b) heap.new) }
{
    let clock = make_child(heap, machine, "sysclk", TypeId::Clock, alloc, steps)?;
    set_period(heap, clock, steps);
    Ok(())
}

/// Makes the containers of the machine's devices.
fn make_containers<L: Ledger>(
    heap: &mut Heap,
    machine: Oid,
    alloc: Global,
    steps: &mut Steps<L>,
) -> Result<(), AllocError>
    requires live { IsLive heap.old.rows machine }
    ensures names { OnOk result (KeepsNames heap.old heap.new) }
    ensures book { OnOk result (KeepsBook heap.old heap.new) }
    ensures bare { OnOk result (NoneKept heap.old → NoneKept heap.new) }
    ensures periods { OnOk result (OwnKept heap.old → OwnKept heap.new) }
    ensures shown { OnOk result ((b : Board) → Shows b heap.old → Shows (with_containers machine.birth b) heap.new) }
{
    make_child(heap, machine, "peripheral", TypeId::Container, alloc, steps)?;
    make_child(
        heap,
        machine,
        "peripheral-anon",
        TypeId::Container,
        alloc,
        steps,
    )?;
    Ok(())
}

/// Makes the buses of the machine.
fn make_buses<L: Ledger>(
    heap: &mut Heap,
    machine: Oid,
    alloc: Global,
    steps: &mut Steps<L>,
) -> Result<(), AllocError>
    requires live { IsLive heap.old.rows machine }
    ensures names { OnOk result (KeepsNames heap.old heap.new) }
    ensures book { OnOk result (KeepsBook heap.old heap.new) }
    ensures bare { OnOk result (NoneKept heap.old → NoneKept heap.new) }
    ensures periods { OnOk result (OwnKept heap.old → OwnKept heap.new) }
    ensures shown { OnOk result ((b : Board) → Shows b heap.old → Shows (with_buses machine.birth b) heap.new) }
{
    make_child(heap, machine, "root.0", TypeId::SlotBus, alloc, steps)?;
    make_child(heap, machine, "mem.0", TypeId::MemBus, alloc, steps)?;
    Ok(())
}

/// Makes the machine as a child of the root, with its own children.
fn make_machine<L: Ledger>(
    heap: &mut Heap,
    root: Oid,
    alloc: Global,
    steps: &mut Steps<L>,
) -> Result<(), AllocError>
    requires live { IsLive heap.old.rows root }
    ensures names { OnOk result (KeepsNames heap.old heap.new) }
    ensures book { OnOk result (KeepsBook heap.old heap.new) }
    ensures bare { OnOk result (NoneKept heap.old → NoneKept heap.new) }
    ensures periods { OnOk result (OwnKept heap.old → OwnKept heap.new) }
    ensures shown { OnOk result ((b : Board) → Shows b heap.old → Shows (with_machine root.birth b) heap.new) }
{
    let machine = make_child(heap, root, "machine", TypeId::Machine, alloc, steps)?;
    make_containers(heap, machine, alloc, steps)?;
    make_clock(heap, machine, alloc, steps)?;
    make_buses(heap, machine, alloc, steps)?;
    Ok(())
}

/// Makes the objects of the opening board.
pub fn make_all<L: Ledger>(
    heap: &mut Heap,
    alloc: Global,
    steps: &mut Steps<L>,
) -> Result<(), AllocError>
    ensures shown { OnOk result ((b : Board) → Shows b heap.old → Shows (with_all b) heap.new) }
    ensures book { OnOk result (KeepsBook heap.old heap.new) }
    ensures bare { OnOk result (NoneKept heap.old → NoneKept heap.new) }
    ensures periods { OnOk result (OwnKept heap.old → OwnKept heap.new) }
{
    let root = make_new(heap, TypeId::Container, alloc, steps)?;
    make_machine(heap, root, alloc, steps)?;
    make_child(heap, root, "objects", TypeId::Container, alloc, steps)?;
    Ok(())
}
