//! Walks over an object and all below it: acts, and counts that are kept. No call here takes memory.

ghost use Rattle.std.specs.Prelude.{◌≡◌, ◌+◌, option_map, Some};
ghost use Rattle.std.specs.Option.{option_map_or};
ghost use Rattle.qo_heap.specs.Acts.{Acts, KeepsPeriods};
ghost use Rattle.qo_heap.specs.Moments.{Timely};
ghost use Rattle.qo_heap.specs.Objects.{content_of, with_edit};
ghost use Rattle.qo_heap.specs.Rows.{IsLive};
ghost use Rattle.qo_reset.specs.Counts.{kept_count};
ghost use Rattle.qo_reset.specs.Phases.{births_of};
ghost use Rattle.qo_reset.specs.Turns.{IsTimeless, counted, done, sided, tallied, visited, walk_on};

use crate::counts::{kept_count, recount};
use crate::reach::{below_at, is_bus};
use qo_heap::{Heap, Oid, Side, Steps};
use qo_values::Act;
use std::sync::ledger::Ledger;

/// How many holds there may be at once.
pub const HOLDS_MAX: u32 = u32::MAX;

/// What is done to the count that is kept of an object. Marks have it done once to an object that a
/// walk meets twice.
#[derive(Clone, Copy, Debug, PartialEq, Eq)]
pub enum Tally {
    /// A hold more, and a mark, where there is no mark.
    Raise,
    /// A hold less, and a mark, where there is no mark.
    Lower,
    /// No mark.
    Unmark,
}

/// What is done to each object of a walk.
#[derive(Clone, Copy, Debug, PartialEq, Eq)]
pub enum Turn {
    /// It acts.
    Run(Act),
    /// It acts, where no hold is on it or above it.
    RunOut(Act),
    /// Its count changes.
    Count(Tally),
    /// Its holds are counted afresh.
    Recount,
}

/// What is kept of an object, with its count changed.
fn tallied(tally: Tally, side: Side) -> Side
    ensures { result ≡ tallied tally side }
{
    match tally {
        Tally::Raise if side.marks == 0 => Side {
            count: side.count.saturating_add(1),
            marks: 1,
            ..side
        },
        Tally::Lower if side.marks == 0 => Side {
            count: side.count.saturating_sub(1),
            marks: 1,
            ..side
        },
        Tally::Raise | Tally::Lower => side,
        Tally::Unmark => Side { marks: 0, ..side },
    }
}

/// The count that is kept of an object changes.
fn tally_one<L: Ledger>(heap: &mut Heap, o: Oid, tally: Tally, steps: &mut Steps<L>)
    requires { IsLive heap.old.rows o }
    ensures { heap.new ≡ with_edit o.birth (sided (tallied tally)) heap.old }
{
    heap.reveal_invariant();
    let side = heap.side(o, steps);
    heap.set_side(o, tallied(tally, side), steps);
}

/// So many holds are on an object and above it, and it has no mark.
pub fn set_count<L: Ledger>(heap: &mut Heap, o: Oid, count: u32, steps: &mut Steps<L>)
    requires { IsLive heap.old.rows o }
    ensures now { heap.new ≡ with_edit o.birth (sided (counted count)) heap.old }
    ensures cost { steps.new ≡ steps.old + 2 }
{
    heap.reveal_invariant();
    let side = heap.side(o, steps);
    heap.set_side(
        o,
        Side {
            count,
            marks: 0,
            ..side
        },
        steps,
    );
}

/// The turn of one object.
fn turn_one<L: Ledger>(heap: &mut Heap, holds: &[Oid], o: Oid, turn: Turn, steps: &mut Steps<L>)
    requires live { IsLive heap.old.rows o }
    requires phase { IsTimeless turn }
    ensures { heap.new ≡ done turn (births_of holds.now) o.birth heap.old }
{
    match turn {
        Turn::Run(act) => heap.act(o, act, 0, steps),
        Turn::RunOut(act) => {
            if kept_count(heap, o, steps) == 0 {
                heap.act(o, act, 0, steps);
            }
        }
        Turn::Count(tally) => tally_one(heap, o, tally, steps),
        Turn::Recount => {
            let count = recount(heap, holds, o, steps).min(HOLDS_MAX as usize) as u32;
            set_count(heap, o, count, steps);
        }
    }
}

/// The turns of all below an object, and then of the object itself, to a depth.
fn visit<L: Ledger>(
    heap: &mut Heap,
    holds: &[Oid],
    o: Oid,
    turn: Turn,
    levels: usize,
    steps: &mut Steps<L>,
)
    requires live { IsLive heap.old.rows o }
    requires phase { IsTimeless turn }
    ensures { heap.new ≡ visited turn (births_of holds.now) levels o.birth heap.old }
{
    if levels == 0 {
        return;
    }
    let bus = is_bus(heap, o, steps);
    let mut at = 0;
    while let Some(child) = below_at(heap, o, bus, at, steps) {
        if let Some(child) = child {
            visit(heap, holds, child, turn, levels - 1, steps);
        }
        at += 1;
    }
    turn_one(heap, holds, o, turn, steps);
}

/// The turns of all below an object, and then of the object itself.
pub fn walk<L: Ledger>(heap: &mut Heap, holds: &[Oid], root: Oid, turn: Turn, steps: &mut Steps<L>)
    requires live { IsLive heap.old.rows root }
    requires phase { IsTimeless turn }
    ensures walk { heap.new ≡ walk_on turn (births_of holds.now) root.birth heap.old }
    ensures acts { Acts heap.old heap.new }
    ensures timely { Timely heap.old → Timely heap.new }
    ensures periods { KeepsPeriods heap.old heap.new }
    ensures live { IsLive heap.new.rows root }
{
    heap.reveal_invariant();
    let levels = heap.live() + 1;
    visit(heap, holds, root, turn, levels, steps);
}
