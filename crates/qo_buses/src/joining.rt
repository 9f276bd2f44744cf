//! How a device joins a bus (include/hw/qdev-core.h: the bus of a device, and its child links).

ghost use Rattle.std.specs.Prelude.{◌≡◌, true, false, Some, OnOk, OnErr, codes};
ghost use Rattle.qo_values.specs.declared.kinds.TypeId.TheVariants.{Device};
ghost use Rattle.qo_slots.specs.declared.keys.Key.{Key};
ghost use Rattle.qo_model.specs.Board.{Board, strong};
ghost use Rattle.qo_model.specs.Changes.{add};
ghost use Rattle.qo_model.specs.Plug.{link_named};
ghost use Rattle.qo_object.specs.Content.{with_slot};
ghost use Rattle.qo_object.specs.Slots.{has_name};
ghost use Rattle.qo_object.specs.declared.slots.Slot.TheVariants.{Link};
ghost use Rattle.qo_heap.specs.Rows.{IsLive};
ghost use Rattle.qo_heap.specs.Board.{Shows, pins_in};
ghost use Rattle.qo_heap.specs.Objects.{slots_of, with_edit};
ghost use Rattle.qo_life.specs.Life.{Goes};

use crate::writing::point_named;
use qo_heap::{Heap, Oid, SlotName, Steps};
use qo_model::PropertyName;
use qo_values::TypeId;
use std::alloc::AllocError;
use std::sync::ledger::Ledger;

/// Adds the strong link of a bus to a device that joins it, under a name (of `kid_name`), after its
/// slots. The error says that memory ran out, or that the bus has a slot of that name; it leaves the
/// heap as it was.
pub fn join_bus<L: Ledger>(
    heap: &mut Heap,
    bus: Oid,
    dev: Oid,
    name: SlotName,
    steps: &mut Steps<L>,
) -> Result<(), AllocError>
    requires live { IsLive heap.old.rows bus }
    requires target { IsLive heap.old.rows dev }
    ensures ok { OnOk result (heap.new ≡ with_edit bus.birth (with_slot name (Link Device true (Some dev))) heap.old) }
    ensures shown { OnOk result ((b : Board) → Shows b heap.old → Shows (add bus.birth name (strong Device (Some dev.birth)) b) heap.new) }
    ensures absent { OnOk result (has_name name (slots_of heap.old bus.birth) ≡ false) }
    ensures err { OnErr result (heap.new ≡ heap.old) }
{
    heap.add_link(bus, name, TypeId::Device, true, Some(dev), steps)?;
    Ok(())
}

/// Points the `parent_bus` of a device at the bus that it joins, where the link has no target and the
/// bus is of its type; anything else stays. It takes no memory.
pub fn point_bus<L: Ledger>(heap: &mut Heap, dev: Oid, bus: Oid, steps: &mut Steps<L>)
    requires live { IsLive heap.old.rows dev }
    requires target { IsLive heap.old.rows bus }
    ensures shown { (b : Board) → Shows b heap.old → Shows (link_named dev.birth (codes "parent_bus") bus.birth b) heap.new }
    ensures goes { Goes (link_named dev.birth (codes "parent_bus") bus.birth) heap.old heap.new }
    ensures names { (key : Key) → IsLive heap.old.rows key → IsLive heap.new.rows key }
    ensures pins { pins_in heap.new.rows ≡ pins_in heap.old.rows }
{
    point_named(heap, dev, PropertyName::ParentBus, bus, steps);
}
