//! A change of a period spreads: each clock below whose period changes keeps the new one, and its
//! device is called back (docs/devel/clocks.rst, "Clock callbacks" and "Changing a clock period"). No
//! call takes memory.

ghost use Rattle.std.specs.Prelude.{◌≡◌};
ghost use Rattle.qo_heap.specs.Moments.{Timely};
ghost use Rattle.qo_heap.specs.Rows.{IsLive};
ghost use Rattle.qo_clocks.specs.Spread.{called_on, spread_on};

use crate::feeding::next_fed;
use crate::kept::keep;
use crate::periods::scaled;
use qo_heap::{Heap, Oid, Steps};
use qo_values::Act;
use std::sync::ledger::Ledger;

/// The device of a clock is told that the clock's period changes, and then that it has changed.
/// Nobody is called back where the clock has no parent.
fn call_back<L: Ledger>(heap: &mut Heap, c: Oid, before: u64, after: u64, steps: &mut Steps<L>)
    requires { Timely heap.old }
    ensures { heap.new ≡ called_on c.birth before after heap.old }
{
    heap.reveal_invariant();
    let Some(device) = heap.parent(c, steps) else {
        return;
    };
    heap.act(device, Act::Pre, before, steps);
    heap.act(device, Act::Update, after, steps);
}

/// Those that go by a clock had a period before and have one after. They and the clocks below them
/// keep their new periods and their devices are called back, to a depth, in preorder and in the order
/// of births. Below a clock whose period stays for those that go by it all stays.
pub fn spread<L: Ledger>(
    heap: &mut Heap,
    c: Oid,
    before: u64,
    after: u64,
    levels: usize,
    steps: &mut Steps<L>,
)
    requires live { IsLive heap.old.rows c }
    requires timely { Timely heap.old }
    ensures { heap.new ≡ spread_on heap.old levels c.birth before after }
{
    if levels == 0 {
        return;
    }
    if before == after {
        return;
    }
    heap.reveal_invariant();
    let mut above = 0;
    while let Some(n) = next_fed(heap, c, above, steps) {
        let before_below = scaled(heap, n, before, steps);
        let after_below = scaled(heap, n, after, steps);
        keep(heap, n, after, after_below, steps);
        call_back(heap, n, before, after, steps);
        spread(heap, n, before_below, after_below, levels - 1, steps);
        above = n.birth;
    }
}
