//! The periods that are kept beside a clock: its own, and that of the clocks that go by it. No call
//! takes memory.

ghost use Rattle.std.specs.Prelude.{◌≡◌};
ghost use Rattle.qo_heap.specs.Objects.{with_edit};
ghost use Rattle.qo_heap.specs.Rows.{IsLive};
ghost use Rattle.qo_clocks.specs.Kept.{kept_afresh, kept_turn, with_periods};

use crate::periods::scaled;
use crate::reads::{own_period, source_of};
use qo_heap::{Heap, Oid, Side, Steps};
use std::sync::ledger::Ledger;

/// A clock keeps a period, and a period for the clocks that go by it.
pub fn keep<L: Ledger>(heap: &mut Heap, c: Oid, period: u64, child: u64, steps: &mut Steps<L>)
    requires { IsLive heap.old.rows c }
    ensures { heap.new ≡ with_edit c.birth (with_periods period child) heap.old }
{
    heap.reveal_invariant();
    let side = heap.side(c, steps);
    heap.set_side(
        c,
        Side {
            period,
            child,
            ..side
        },
        steps,
    );
}

/// The period of a clock by what is kept: its own, or its source's for the clocks that go by it.
fn kept_turn<L: Ledger>(heap: &Heap, c: Oid, steps: &mut Steps<L>) -> u64
    requires { IsLive heap.now.rows c }
    ensures { result ≡ kept_turn heap.now c.birth }
{
    match source_of(heap, c, steps) {
        Some(source) => heap.side(source, steps).child,
        None => own_period(heap, c, steps),
    }
}

/// A clock keeps the periods that it has by what is kept of its source.
#[inline(always)]
pub fn keep_afresh<L: Ledger>(heap: &mut Heap, c: Oid, steps: &mut Steps<L>)
    requires { IsLive heap.old.rows c }
    ensures { heap.new ≡ kept_afresh c.birth heap.old }
{
    let period = kept_turn(heap, c, steps);
    let child = scaled(heap, c, period, steps);
    keep(heap, c, period, child, steps);
}
