//! The device that a guest's address names (docs/PROFILE.md, guest lines).

ghost use Rattle.std.specs.Prelude.{◌≡◌, IfSome};
ghost use Rattle.qo_model.specs.Board.{Board};
ghost use Rattle.qo_model.specs.Devices.{found_at};
ghost use Rattle.qo_object.specs.BoardObject.{birth_of};
ghost use Rattle.qo_heap.specs.Rows.{IsLive};
ghost use Rattle.qo_heap.specs.Board.{Shows};
ghost use Rattle.qo_buses.specs.Addresses.{addressed};

use crate::buses::first_bus;
use crate::kids::kid_at;
use qo_guest::Addr;
use qo_heap::{Heap, Oid, Steps};
use qo_values::{MEMORY_BUS_BIRTH, ROOT_BUS_BIRTH};
use std::sync::ledger::Ledger;

/// The device that slots lead to from a bus, outermost first: each but the last to a device, whose
/// first bus the next is of.
fn found_at<L: Ledger>(heap: &Heap, from: Oid, slots: &[u8], steps: &mut Steps<L>) -> Option<Oid>
    requires { IsLive heap.now.rows from }
    ensures found { (b : Board) → Shows b heap.now → birth_of result ≡ found_at b from.birth slots.now }
    ensures live { IfSome result (IsLive heap.now.rows) }
{
    let mut bus = from;
    let mut left = slots;
    while let Some((slot, rest)) = left.split_first() {
        let dev = kid_at(heap, bus, *slot, steps)?;
        if rest.is_empty() {
            return Some(dev);
        }
        bus = first_bus(heap, dev, steps)?;
        left = rest;
    }
    None
}

/// The device at an address: that in the slots from the root bus down, or that in a slot of the memory
/// bus; `None` exactly where there is none.
pub fn by_address<L: Ledger>(heap: &Heap, address: &Addr, steps: &mut Steps<L>) -> Option<Oid>
    ensures found { (b : Board) → Shows b heap.now → birth_of result ≡ addressed b address.now }
    ensures live { IfSome result (IsLive heap.now.rows) }
{
    match address {
        Addr::Slots(slots) => {
            let root = heap.by_birth(ROOT_BUS_BIRTH)?;
            found_at(heap, root, slots.as_slice(), steps)
        }
        Addr::Mem(slot) => {
            let bus = heap.by_birth(MEMORY_BUS_BIRTH)?;
            kid_at(heap, bus, *slot, steps)
        }
    }
}
