//! The rows of a net: the lines of objects, each after those of all that is below it.

ghost use Rattle.std.specs.Prelude.{◌≡◌, ◌≢◌, ◌+◌, ◌≤◌, ◌<◌, ◌++◌, ◌∷◌, [], ℕ, All, IfErr, IfNone, IfOk, IfSome, OnOk, length};
ghost use Rattle.qo_heap.specs.Board.{Shows};
ghost use Rattle.qo_heap.specs.Rows.{IsLive};
ghost use Rattle.qo_irq.specs.declared.errors.NetError.TheVariants.{Memory};
ghost use Rattle.qo_layout.specs.Numbering.{below_at, births_of};
ghost use Rattle.qo_layout.specs.Growth.{ComeAfter, HasAll, HasMore, HasRoom};
ghost use Rattle.qo_layout.specs.Registers.{registers_at};
ghost use Rattle.qo_layout.specs.Rows.{AreLines, AreRows, AreWired, HasRow, objects_of, row_at, wiring as wiring_by};
ghost use Rattle.qo_model.specs.Board.{Board};
ghost use Rattle.qo_model.specs.Reset.{below};
ghost use Rattle.qo_sound_shapes.specs.SoundShape.{SoundShape};
ghost use Rattle.qo_values.specs.declared.limits.TheConstants.{LIVE_OBJECTS_MAX};

use crate::numbering::{below_in_slot, first_below, is_leaf};
use crate::registers::wiring;
use crate::wiring::{Row, Wiring, add_line};
use qo_buses::is_of;
use qo_heap::{Heap, Oid, Steps};
use qo_irq::{Net, NetError};
use qo_values::TypeId;
use std::alloc::Global;
use std::sync::ledger::Ledger;

/// The line of an object. It looks from the end on, since what is below an object comes right before it.
pub(crate) fn line_of(rows: &[Row], object: u64) -> Option<u32>
    ensures some { IfSome result (λ line. HasRow rows.now object line) }
    ensures none { IfNone result ((i : ℕ) → i < length rows.now → (row_at rows.now i).object ≢ object) }
{
    let mut at = rows.len();
    while at > 0 {
        at -= 1;
        let row = rows[at];
        if row.object == object {
            return Some(row.line);
        }
    }
    None
}

/// Adds the line of what is in a slot of an object, if something is. `BadRef` where it has none.
#[inline(always)]
fn push_line<L: Ledger>(
    heap: &Heap,
    o: Oid,
    bus: bool,
    at: usize,
    rows: &[Row],
    lines: &mut Vec<u32>,
    steps: &mut Steps<L>,
) -> Result<(), NetError>
    requires live { IsLive heap.now.rows o }
    ensures pushed { (b : Board) → Shows b heap.now → OnOk result (HasMore rows.now (below_at b bus o.birth at) lines.old.items lines.new.items) }
    ensures err { (b : Board) → Shows b heap.now → IfSome (below_at b bus o.birth at) (λ child. (line : ℕ) × HasRow rows.now child line) → IfErr result (λ e. e ≡ Memory) }
{
    let Some(child) = below_in_slot(heap, o, bus, at, steps) else {
        return Ok(());
    };
    let Some(line) = line_of(rows, child.birth) else {
        return Err(NetError::BadRef);
    };
    match lines.push(line) {
        Ok(()) => Ok(()),
        Err(_) => Err(NetError::Memory),
    }
}

/// The lines of all that is below an object whose line is driven so. Where nothing can be below it, no slot is
/// looked up. `BadRef` where one has none.
fn lines_below<L: Ledger>(
    alloc: Global,
    heap: &Heap,
    o: Oid,
    driven: Wiring,
    rows: &[Row],
    steps: &mut Steps<L>,
) -> Result<Vec<u32>, NetError>
    requires live { IsLive heap.now.rows o }
    ensures lines { (b : Board) → Shows b heap.now → SoundShape b → driven ≡ wiring_by (registers_at b o.birth) → IfOk result (λ lines. AreLines rows.now (below b o.birth) lines.items) }
    ensures err { (b : Board) → Shows b heap.now → HasAll rows.now (below b o.birth) → IfErr result (λ e. e ≡ Memory) }
{
    let mut lines = Vec::new(alloc);
    if is_leaf(driven) {
        return Ok(lines);
    }
    let count = heap.slot_count(o, steps);
    let first = first_below(driven, count);
    if first == count {
        return Ok(lines);
    }
    let bus = is_of(heap, o, TypeId::Bus, steps);
    for at in first..count {
        push_line(heap, o, bus, at, rows, &mut lines, steps)?;
    }
    Ok(lines)
}

/// Adds the line of an object after those of all that is below it.
pub(crate) fn add_object<L: Ledger>(
    alloc: Global,
    heap: &Heap,
    o: Oid,
    net: &mut Net,
    rows: &mut Vec<Row>,
    steps: &mut Steps<L>,
) -> Result<(), NetError>
    requires live { IsLive heap.now.rows o }
    requires rows { AreRows rows.old.items net.old }
    ensures rows { OnOk result (AreRows rows.new.items net.new) }
    ensures objects { OnOk result (objects_of rows.new.items ≡ objects_of rows.old.items ++ o.birth ∷ []) }
    ensures wired { (b : Board) → Shows b heap.now → SoundShape b → AreWired b rows.old.items net.old → OnOk result (AreWired b rows.new.items net.new) }
    ensures few { OnOk result (length net.new ≤ length net.old + 3) }
    ensures err { (b : Board) → Shows b heap.now → SoundShape b → HasAll rows.old.items (below b o.birth) → HasRoom net.old → IfErr result (λ e. e ≡ Memory) }
{
    let driven = wiring(heap, o, steps);
    let below = lines_below(alloc, heap, o, driven, rows, steps)?;
    let row = add_line(net, driven, o.birth, below)?;
    match rows.push(row) {
        Ok(()) => Ok(()),
        Err(_) => Err(NetError::Memory),
    }
}

/// Adds the lines of objects to a net, with a row for each, in place of what was there. Each object must come
/// after all that is below it, and there must be at most `LIVE_OBJECTS_MAX` of them, so that the one error is
/// want of memory.
pub(crate) fn add_objects<L: Ledger>(
    alloc: Global,
    heap: &Heap,
    objects: &[Oid],
    net: &mut Net,
    rows: &mut Vec<Row>,
    steps: &mut Steps<L>,
) -> Result<(), NetError>
    requires live { All (IsLive heap.now.rows) objects.now }
    ensures rows { OnOk result (AreRows rows.new.items net.new) }
    ensures objects { OnOk result (objects_of rows.new.items ≡ births_of objects.now) }
    ensures wired { (b : Board) → Shows b heap.now → SoundShape b → OnOk result (AreWired b rows.new.items net.new) }
    ensures err { (b : Board) → Shows b heap.now → SoundShape b → ComeAfter b (births_of objects.now) → length objects.now ≤ LIVE_OBJECTS_MAX → IfErr result (λ e. e ≡ Memory) }
{
    net.clear();
    rows.clear();
    for o in objects {
        add_object(alloc, heap, *o, net, rows, steps)?;
    }
    Ok(())
}
