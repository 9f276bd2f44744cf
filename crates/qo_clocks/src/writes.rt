//! The writes of a clock's numbers (docs/devel/clocks.rst, "Changing a clock period" and "Clock
//! multiplier and divider settings"). Each is refused or decided before anything is written, and no
//! call takes memory.

ghost use Rattle.std.specs.Prelude.{◌≡◌, List, OnOk, OnErr};
ghost use Rattle.qo_claims.specs.declared.claims.Claimed.{Claimed};
ghost use Rattle.qo_slots.specs.declared.keys.Key.{Key};
ghost use Rattle.qo_model.specs.Board.{Board};
ghost use Rattle.qo_model.specs.ClockChanges.{clock_scaled, clock_set};
ghost use Rattle.qo_model.specs.RowNames.{property_name};
ghost use Rattle.qo_heap.specs.Rows.{IsLive};
ghost use Rattle.qo_heap.specs.Acts.{Acts, KeepsCounts};
ghost use Rattle.qo_heap.specs.Board.{Shows};
ghost use Rattle.qo_heap.specs.Book.{IsBook};
ghost use Rattle.qo_heap.specs.Moments.{Timely};
ghost use Rattle.qo_clocks.specs.Kept.{Clocked};
ghost use Rattle.qo_clocks.specs.Writes.{Answers, all_fit, with_period, with_scale, written_on};

use crate::errors::ClockError;
use crate::feeding::overflows;
use crate::kept::keep;
use crate::links::set_number;
use crate::periods::{child_period, fitting};
use crate::reads::{slot_of, source_of};
use crate::spread::spread;
use qo_heap::{Heap, Oid, Slot, Steps};
use qo_model::PropertyName;
use std::sync::ledger::Ledger;

/// What the slot of a property of a clock will read once a number is written there: the number where the
/// slot is plain, else what is read where there is none.
fn written<L: Ledger>(
    heap: &Heap,
    c: Oid,
    name: PropertyName,
    number: u64,
    none: u64,
    steps: &mut Steps<L>,
) -> u64
    requires { IsLive heap.now.rows c }
    ensures { result ≡ written_on heap.now c.birth (property_name name) number none }
{
    match slot_of(heap, c, name, steps) {
        Some(Slot::Plain(_)) => number,
        _ => none,
    }
}

/// A period for the clocks that go by a clock, where it fits in 64 bits and those of all clocks below
/// fit with it.
fn all_fit<L: Ledger>(
    heap: &Heap,
    c: Oid,
    period: Option<u64>,
    levels: usize,
    steps: &mut Steps<L>,
) -> Option<u64>
    requires { IsLive heap.now.rows c }
    ensures { result ≡ all_fit heap.now levels c.birth period }
{
    let period = period?;
    if overflows(heap, c, period, levels, steps) {
        return None;
    }
    Some(period)
}

/// Gives a clock a period, in units of 2^-32 ns (docs/devel/clocks.rst, "Changing a clock period").
/// The clocks below are gone through, each before those that go by it, and those that go by one clock
/// in the order of births: where a clock's period changes, the object that is its parent is called
/// back, with the old period before the change and with the new one after it.
///
/// `HasSource` exactly where the clock goes by another; else `Overflow` exactly where the period for
/// the clocks that go by it, or by one below it, would be more than 2^64 - 1. An error leaves all as
/// it was. All this where the clocks are as they should be: every such period fits so far, no clock
/// divides by 0 or goes by itself, and the periods that are kept are right. This is then so after the
/// call too. It takes no memory.
///
/// What is called back may be a timer, which reads the time, so no timer may have had a moment after
/// the heap's time.
pub fn set<L: Ledger>(
    heap: &mut Heap,
    c: Oid,
    period: u64,
    steps: &mut Steps<L>,
) -> Result<(), ClockError>
    requires live { IsLive heap.old.rows c }
    requires timely { Timely heap.old }
    ensures answer { (b : Board) → Shows b heap.old → Clocked b heap.old → Answers heap.new result (clock_set b c.birth period) }
    ensures acts { OnOk result (Acts (with_period c.birth period heap.old) heap.new) }
    ensures counts { OnOk result (KeepsCounts (with_period c.birth period heap.old) heap.new) }
    ensures err { OnErr result (heap.new ≡ heap.old) }
    ensures names { (key : Key) → IsLive heap.old.rows key → IsLive heap.new.rows key }
    ensures book { (out : List Claimed) → IsBook out heap.old → IsBook out heap.new }
    ensures fits { (b : Board) → Shows b heap.old → Clocked b heap.old → (x : Board) → Shows x heap.new → Clocked x heap.new }
    ensures timely { Timely heap.new }
{
    if source_of(heap, c, steps).is_some() {
        return Err(ClockError::HasSource);
    }
    heap.reveal_invariant();
    let levels = heap.live() + 1;
    let side = heap.side(c, steps);
    let own = written(heap, c, PropertyName::Period, period, 0, steps);
    let child = child_period(heap, c, own, steps);
    let Some(after) = all_fit(heap, c, child, levels, steps) else {
        return Err(ClockError::Overflow);
    };
    set_number(heap, c, PropertyName::Period, period, steps);
    keep(heap, c, own, after, steps);
    spread(heap, c, side.child, after, levels, steps);
    Ok(())
}

/// Gives a clock a multiplier and a divider: the clocks that go by it have its period times the one by
/// the other, rounded down (docs/devel/clocks.rst, "Clock multiplier and divider settings"). The
/// clocks below are called back as by `set`; the clock's own period stays. Numbers of 64 bits are
/// taken; who writes them keeps them as wide as their properties.
///
/// `DividerZero` exactly where the divider is 0; else `Overflow` exactly where the period for the
/// clocks that go by it, or by one below it, would be more than 2^64 - 1. An error leaves all as it
/// was. As with `set`, the clocks are as they should be before and after the call, and no timer may
/// have had a moment after the heap's time. It takes no memory.
pub fn set_mul_div<L: Ledger>(
    heap: &mut Heap,
    c: Oid,
    mul: u64,
    div: u64,
    steps: &mut Steps<L>,
) -> Result<(), ClockError>
    requires live { IsLive heap.old.rows c }
    requires timely { Timely heap.old }
    ensures answer { (b : Board) → Shows b heap.old → Clocked b heap.old → Answers heap.new result (clock_scaled b c.birth mul div) }
    ensures acts { OnOk result (Acts (with_scale c.birth mul div heap.old) heap.new) }
    ensures counts { OnOk result (KeepsCounts (with_scale c.birth mul div heap.old) heap.new) }
    ensures err { OnErr result (heap.new ≡ heap.old) }
    ensures names { (key : Key) → IsLive heap.old.rows key → IsLive heap.new.rows key }
    ensures book { (out : List Claimed) → IsBook out heap.old → IsBook out heap.new }
    ensures fits { (b : Board) → Shows b heap.old → Clocked b heap.old → (x : Board) → Shows x heap.new → Clocked x heap.new }
    ensures timely { Timely heap.new }
{
    if div == 0 {
        return Err(ClockError::DividerZero);
    }
    heap.reveal_invariant();
    let levels = heap.live() + 1;
    let side = heap.side(c, steps);
    let mul_after = written(heap, c, PropertyName::Mul, mul, 1, steps);
    let child = fitting(
        mul_after,
        written(heap, c, PropertyName::Div, div, 1, steps),
        side.period,
    );
    let Some(after) = all_fit(heap, c, child, levels, steps) else {
        return Err(ClockError::Overflow);
    };
    set_number(heap, c, PropertyName::Mul, mul, steps);
    set_number(heap, c, PropertyName::Div, div, steps);
    keep(heap, c, side.period, after, steps);
    spread(heap, c, side.child, after, levels, steps);
    Ok(())
}
