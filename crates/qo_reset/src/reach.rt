//! What is below an object in a reset (docs/devel/reset.rst, "Handling reset in a resettable
//! object", `child_foreach`): below a bus the devices on it, below any other object its buses.

ghost use Rattle.std.specs.Prelude.{◌≡◌, ◌<◌, ◌^◌, option_map, slice_get, IfSome};
ghost use Rattle.qo_object.specs.Slots.{child_of};
ghost use Rattle.qo_heap.specs.Rows.{IsLive};
ghost use Rattle.qo_heap.specs.Objects.{slots_of};
ghost use Rattle.qo_reset.specs.Phases.{bus_child, is_bus, strong_target, turned_to};

use qo_heap::{Heap, Oid, Slot, Steps};
use qo_types::TypeTable;
use qo_values::TypeId;
use std::sync::ledger::Ledger;

/// Whether an object is a bus.
pub fn is_bus<L: Ledger>(heap: &Heap, o: Oid, steps: &mut Steps<L>) -> bool
    requires { IsLive heap.now.rows o }
    ensures { result ≡ is_bus heap.now o.birth }
{
    TypeTable::board().derives_from(heap.kind(o, steps), TypeId::Bus)
}

/// The device in a slot of a bus.
fn strong_target(slot: &Slot) -> Option<Oid>
    ensures { result ≡ strong_target slot.now }
{
    match slot {
        Slot::Link {
            strong: true,
            target,
            ..
        } => *target,
        _ => None,
    }
}

/// The bus in a slot of an object that is none; the slot of a device's clock has none.
fn bus_child<L: Ledger>(heap: &Heap, name: &str, slot: &Slot, steps: &mut Steps<L>) -> Option<Oid>
    requires { IfSome (child_of slot.now) (IsLive heap.now.rows) }
    ensures { result ≡ bus_child (is_bus heap.now) name.now slot.now }
{
    match slot {
        Slot::Child(child) => {
            if is_bus(heap, *child, steps) && name != "clk" {
                Some(*child)
            } else {
                None
            }
        }
        _ => None,
    }
}

/// What is below an object in the slot at a place, if anything is; `None` exactly past the last.
#[inline(always)]
pub fn below_at<L: Ledger>(
    heap: &Heap,
    o: Oid,
    bus: bool,
    at: usize,
    steps: &mut Steps<L>,
) -> Option<Option<Oid>>
    requires { IsLive heap.now.rows o }
    ensures below { result ≡ option_map (turned_to (is_bus heap.now) bus) (slice_get (slots_of heap.now o.birth) at) }
    ensures live { IfSome result (λ child. IfSome child (IsLive heap.now.rows)) }
    ensures few { IfSome result (λ child. at < 2 ^ 32) }
{
    heap.reveal_invariant();
    let slot = heap.slot_at(o, at, steps)?;
    if bus {
        Some(strong_target(slot.what))
    } else {
        Some(bus_child(heap, slot.name, slot.what, steps))
    }
}
