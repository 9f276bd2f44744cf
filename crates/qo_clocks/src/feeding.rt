//! The clocks below a clock: those that go by it, and those that go by these (docs/devel/clocks.rst,
//! "Connecting two clocks together"). A clock goes by its source by a weak link, so they are found
//! among those that have a weak link to the clock. No call takes memory.

ghost use Rattle.std.specs.Prelude.{◌≡◌, ◌∷◌, [], IfSome, IfNone};
ghost use Rattle.qo_heap.specs.Rows.{IsLive};
ghost use Rattle.qo_clocks.specs.Overflows.{overflows_on};
ghost use Rattle.qo_clocks.specs.Subtree.{IsNextFed, fed_above, goes_by};

use crate::periods::child_period;
use crate::reads::source_of;
use qo_heap::{Heap, Oid, Steps};
use std::sync::ledger::Ledger;

/// Whether a clock goes by another.
fn goes_by<L: Ledger>(heap: &Heap, n: Oid, c: Oid, steps: &mut Steps<L>) -> bool
    requires { IsLive heap.now.rows n }
    ensures { result ≡ goes_by heap.now c.birth n.birth }
{
    match source_of(heap, n, steps) {
        Some(source) => source.birth == c.birth,
        None => false,
    }
}

/// The clock of the least birth above a number among those that go by a clock.
pub fn next_fed<L: Ledger>(heap: &Heap, c: Oid, above: u64, steps: &mut Steps<L>) -> Option<Oid>
    requires { IsLive heap.now.rows c }
    ensures some { IfSome result (λ n. IsNextFed heap.now c.birth above n) }
    ensures none { IfNone result (fed_above heap.now c.birth above ≡ []) }
{
    heap.reveal_invariant();
    let mut passed = above;
    while let Some(n) = heap.weak_owner(c, passed, steps) {
        if goes_by(heap, n, c, steps) {
            return Some(n);
        }
        passed = n.birth;
    }
    None
}

/// Whether the period for the clocks that go by a clock below another would not fit, to a depth,
/// where those that go by that other have a period. None below a clock is looked at whose period for
/// them stays.
pub fn overflows<L: Ledger>(
    heap: &Heap,
    c: Oid,
    period: u64,
    levels: usize,
    steps: &mut Steps<L>,
) -> bool
    requires { IsLive heap.now.rows c }
    ensures { result ≡ overflows_on heap.now levels c.birth period }
{
    if levels == 0 {
        return false;
    }
    if heap.side(c, steps).child == period {
        return false;
    }
    heap.reveal_invariant();
    let mut above = 0;
    while let Some(n) = next_fed(heap, c, above, steps) {
        let Some(child) = child_period(heap, n, period, steps) else {
            return true;
        };
        if overflows(heap, n, child, levels - 1, steps) {
            return true;
        }
        above = n.birth;
    }
    false
}
