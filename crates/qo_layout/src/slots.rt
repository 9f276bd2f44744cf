//! The lines of the slots of the root bus.

ghost use Rattle.std.specs.Prelude.{◌≡◌, ◌<◌, ◌≤◌, ℕ, IfErr, IfOk, IfSome, OnOk, Some};
ghost use Rattle.std.specs.List.{range_with_len, sum_by};
ghost use Rattle.qo_heap.specs.Board.{Shows};
ghost use Rattle.qo_heap.specs.Rows.{IsLive};
ghost use Rattle.qo_irq.specs.declared.errors.NetError.TheVariants.{Memory};
ghost use Rattle.qo_layout.specs.Lines.{slot_bit};
ghost use Rattle.qo_layout.specs.Rows.{AreSlots, AreThere, HasRow, IsSlotLine, kept_line, slot_level};
ghost use Rattle.qo_model.specs.Board.{Board};
ghost use Rattle.qo_model.specs.Devices.{kid_at};
ghost use Rattle.qo_values.specs.declared.births.TheConstants.{ROOT_BUS_BIRTH as root_bus};

use crate::rows::line_of;
use crate::wiring::Row;
use qo_buses::{first_kid, kid_at};
use qo_heap::{Heap, Oid, Steps};
use qo_irq::{Net, NetError};
use qo_values::{BUS_SLOTS, ROOT_BUS_BIRTH};
use std::sync::ledger::Ledger;

/// The line of the device in a slot of the root bus; `None` where none is there. `BadRef` where it has no
/// line.
fn slot_line<L: Ledger>(
    heap: &Heap,
    bus: Oid,
    slot: u8,
    rows: &[Row],
    steps: &mut Steps<L>,
) -> Result<Option<u32>, NetError>
    requires live { IsLive heap.now.rows bus }
    requires root { bus.birth ≡ root_bus }
    ensures line { (b : Board) → Shows b heap.now → IfOk result (λ line. IsSlotLine rows.now (kid_at b root_bus slot) line) }
    ensures there { IfOk result (λ line. IfSome line (λ l. (d : ℕ) × HasRow rows.now d l)) }
    ensures err { (b : Board) → Shows b heap.now → IfSome (kid_at b root_bus slot) (λ d. (l : ℕ) × HasRow rows.now d l) → IfErr result (λ e. e ≡ Memory) }
{
    let Some(kid) = kid_at(heap, bus, slot, steps) else {
        return Ok(None);
    };
    match line_of(rows, kid.birth) {
        Some(line) => Ok(Some(line)),
        None => Err(NetError::BadRef),
    }
}

/// Lists the line of the device in each slot of the root bus, in place of what was listed. A bus without devices
/// is not asked for each slot. `BadRef` where a device has no line.
pub(crate) fn list_slots<L: Ledger>(
    heap: &Heap,
    rows: &[Row],
    slots: &mut Vec<Option<u32>>,
    steps: &mut Steps<L>,
) -> Result<(), NetError>
    ensures slots { (b : Board) → Shows b heap.now → OnOk result (AreSlots b rows.now 8 slots.new.items) }
    ensures there { OnOk result ((n : ℕ) → IfSome (kept_line slots.new.items n) (λ l. (d : ℕ) × HasRow rows.now d l)) }
    ensures err { (b : Board) → Shows b heap.now → ((n : ℕ) → IfSome (kid_at b root_bus n) (λ d. (l : ℕ) × HasRow rows.now d l)) → IfErr result (λ e. e ≡ Memory) }
{
    heap.reveal_invariant();
    slots.clear();
    let Some(bus) = heap.by_birth(ROOT_BUS_BIRTH) else {
        return Ok(());
    };
    if first_kid(heap, bus, steps).is_none() {
        return Ok(());
    }
    for slot in 0..BUS_SLOTS {
        let line = slot_line(heap, bus, slot, rows, steps)?;
        if slots.push(line).is_err() {
            return Err(NetError::Memory);
        }
    }
    Ok(())
}

/// The line that is kept for a slot.
fn kept_line(slots: &[Option<u32>], slot: u8) -> Option<u32>
    ensures { result ≡ kept_line slots.now slot }
{
    match slots.get(usize::from(slot)) {
        Some(line) => *line,
        None => None,
    }
}

/// Whether the line of a slot is high.
fn slot_level(net: &Net, slots: &[Option<u32>], slot: u8) -> bool
    requires { AreThere slots.now net.now }
    ensures { result ≡ slot_level net.now slots.now slot }
{
    match kept_line(slots, slot) {
        Some(line) => net.level(line),
        None => false,
    }
}

/// The bit of a slot, where its line is high.
fn slot_bit(net: &Net, slots: &[Option<u32>], slot: u8) -> u32
    requires there { AreThere slots.now net.now }
    requires low { slot < 8 }
    ensures bit { result ≡ slot_bit (slot_level net.now slots.now) slot }
    ensures most { result ≤ 128 }
{
    if slot_level(net, slots, slot) {
        1 << slot
    } else {
        0
    }
}

/// The bits of all slots whose lines are high.
pub(crate) fn slot_bits(net: &Net, slots: &[Option<u32>]) -> u32
    requires { AreThere slots.now net.now }
    ensures { result ≡ sum_by (slot_bit (slot_level net.now slots.now)) (range_with_len 0 8) }
{
    let mut bits = 0;
    for slot in 0..BUS_SLOTS {
        bits += slot_bit(net, slots, slot);
    }
    bits
}
