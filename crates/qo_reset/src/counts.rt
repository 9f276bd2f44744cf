//! How many holds there are on an object and above it (docs/devel/reset.rst, "Triggering reset": an
//! object is in reset while a hold on it or above it stands): as it is kept of each object, and
//! counted afresh.

ghost use Rattle.std.specs.Prelude.{◌≡◌, ◌+◌};
ghost use Rattle.std.specs.List.{list_any};
ghost use Rattle.qo_model.specs.Depth.{among};
ghost use Rattle.qo_heap.specs.Rows.{IsLive};
ghost use Rattle.qo_reset.specs.Counts.{is_full, kept_count};
ghost use Rattle.qo_reset.specs.Phases.{below_on, births_of, count_on, is_under, post_by};

use crate::reach::{below_at, is_bus};
use qo_heap::{Heap, Oid, Steps};
use qo_values::HOLD_COUNT_MAX;
use std::sync::ledger::Ledger;

/// Whether the object of a birth is another one or below it, to a depth.
fn contains<L: Ledger>(
    heap: &Heap,
    from: Oid,
    birth: u64,
    levels: usize,
    steps: &mut Steps<L>,
) -> bool
    requires { IsLive heap.now.rows from }
    ensures { result ≡ among (post_by (below_on heap.now) levels from.birth) birth }
{
    if levels == 0 {
        return false;
    }
    let bus = is_bus(heap, from, steps);
    let mut at = 0;
    while let Some(child) = below_at(heap, from, bus, at, steps) {
        if let Some(child) = child {
            if contains(heap, child, birth, levels - 1, steps) {
                return true;
            }
        }
        at += 1;
    }
    birth == from.birth
}

/// Whether the object of a birth is one that was held, or below it; what is gone has nothing below
/// it.
fn is_under<L: Ledger>(heap: &Heap, hold: Oid, birth: u64, steps: &mut Steps<L>) -> bool
    ensures { result ≡ is_under heap.now birth hold.birth }
{
    heap.reveal_invariant();
    match heap.by_birth(hold.birth) {
        Some(from) => contains(heap, from, birth, heap.live() + 1, steps),
        None => birth == hold.birth,
    }
}

/// How many holds there are on an object and above it, counted afresh: it goes over all that is below
/// each.
pub fn recount<L: Ledger>(heap: &Heap, holds: &[Oid], o: Oid, steps: &mut Steps<L>) -> usize
    ensures { result ≡ count_on heap.now (births_of holds.now) o.birth }
{
    let mut count = 0usize;
    for hold in holds {
        if is_under(heap, *hold, o.birth, steps) {
            count += 1;
        }
    }
    count
}

/// How many holds there are on an object and above it, as it is kept.
pub fn kept_count<L: Ledger>(heap: &Heap, o: Oid, steps: &mut Steps<L>) -> u32
    requires { IsLive heap.now.rows o }
    ensures count { result ≡ kept_count heap.now o.birth }
    ensures cost { steps.new ≡ steps.old + 1 }
{
    heap.side(o, steps).count
}

/// Whether there are more holds on an object and above it than there may be before one more.
fn is_full<L: Ledger>(heap: &Heap, o: Oid, steps: &mut Steps<L>) -> bool
    requires { IsLive heap.now.rows o }
    ensures { result ≡ is_full heap.now o.birth }
{
    HOLD_COUNT_MAX < kept_count(heap, o, steps) as u64
}

/// Whether there are so on an object, or on one below it to a depth.
pub fn exceeds_depth_below<L: Ledger>(
    heap: &Heap,
    from: Oid,
    levels: usize,
    steps: &mut Steps<L>,
) -> bool
    requires { IsLive heap.now.rows from }
    ensures { result ≡ list_any (is_full heap.now) (post_by (below_on heap.now) levels from.birth) }
{
    if levels == 0 {
        return false;
    }
    let bus = is_bus(heap, from, steps);
    let mut at = 0;
    while let Some(child) = below_at(heap, from, bus, at, steps) {
        if let Some(child) = child {
            if exceeds_depth_below(heap, child, levels - 1, steps) {
                return true;
            }
        }
        at += 1;
    }
    is_full(heap, from, steps)
}
