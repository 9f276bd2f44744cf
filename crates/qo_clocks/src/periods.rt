//! The periods of clocks (docs/devel/clocks.rst, "The clock state" and "Clock multiplier and divider
//! settings").

ghost use Rattle.std.specs.Prelude.{◌≡◌, ◌≤◌, ◌+◌};
ghost use Rattle.qo_heap.specs.Rows.{IsLive};
ghost use Rattle.qo_model.specs.Board.{Board};
ghost use Rattle.qo_model.specs.Clocks.{device_period, of_hz, period, scaled_by};
ghost use Rattle.qo_heap.specs.Board.{Shows};
ghost use Rattle.qo_clocks.specs.Kept.{Clocked};
ghost use Rattle.qo_clocks.specs.Periods.{fitting, scaled_on, wide_on};

use crate::reads::{clock_of, div, mul};
use qo_heap::{Heap, Oid, Steps};
use qo_values::UNITS_PER_NS;
use std::sync::ledger::Ledger;

/// Nanoseconds in a second.
const NS_PER_SECOND: u64 = 1_000_000_000;

/// A period times `mul` by `div`, rounded down, and 0 by a `div` of 0; `None` exactly where it is more
/// than 64 bits hold.
pub fn fitting(mul: u64, div: u64, period: u64) -> Option<u64>
    ensures { result ≡ fitting (scaled_by mul div period) }
{
    if div == 0 {
        return Some(0);
    }
    let wide = u128::from(period) * u128::from(mul) / u128::from(div);
    if wide <= u128::from(u64::MAX) {
        Some(wide as u64)
    } else {
        None
    }
}

/// A period as the clocks that go by a clock have it; `None` exactly where it is more than 64 bits
/// hold.
#[inline(always)]
pub fn child_period<L: Ledger>(
    heap: &Heap,
    c: Oid,
    period: u64,
    steps: &mut Steps<L>,
) -> Option<u64>
    requires { IsLive heap.now.rows c }
    ensures { result ≡ fitting (wide_on heap.now c.birth period) }
{
    let mul = mul(heap, c, steps);
    fitting(mul, div(heap, c, steps), period)
}

/// A period as the clocks that go by a clock have it; more than 64 bits hold is told as the greatest
/// number that they hold.
#[inline(always)]
pub fn scaled<L: Ledger>(heap: &Heap, c: Oid, period: u64, steps: &mut Steps<L>) -> u64
    requires { IsLive heap.now.rows c }
    ensures { result ≡ scaled_on heap.now c.birth period }
{
    child_period(heap, c, period, steps).unwrap_or(u64::MAX)
}

/// The period of a clock, in units of 2^-32 ns: its own, or by its source's where it has one. It takes
/// one look, and no memory.
pub fn period<L: Ledger>(heap: &Heap, c: Oid, steps: &mut Steps<L>) -> u64
    requires { IsLive heap.now.rows c }
    ensures period { (b : Board) → Shows b heap.now → Clocked b heap.now → result ≡ period b c.birth }
    ensures cost { steps.new ≡ steps.old + 1 }
{
    heap.side(c, steps).period
}

/// The period of the clock of a device, in units of 2^-32 ns; 0 where it has none. It takes two looks
/// at most, and no memory.
pub fn device_period<L: Ledger>(heap: &Heap, dev: Oid, steps: &mut Steps<L>) -> u64
    requires { IsLive heap.now.rows dev }
    ensures period { (b : Board) → Shows b heap.now → Clocked b heap.now → result ≡ device_period b dev.birth }
    ensures cost { steps.new ≤ steps.old + 2 }
{
    match clock_of(heap, dev, steps) {
        Some(clock) => period(heap, clock, steps),
        None => 0,
    }
}

/// The period of a frequency in Hz, in units of 2^-32 ns, rounded down; 0 for 0 Hz (include/hw/clock.h,
/// `CLOCK_PERIOD_FROM_HZ`).
pub fn period_of_hz(hz: u64) -> u64
    ensures { result ≡ of_hz hz }
{
    if hz == 0 {
        0
    } else {
        UNITS_PER_NS * NS_PER_SECOND / hz
    }
}
