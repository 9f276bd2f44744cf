//! The phases: enter, hold and exit, each of all below an object before the object itself
//! (docs/devel/reset.rst, "Multi-phase mechanism"). No call here takes memory.

ghost use Rattle.std.specs.Prelude.{◌≡◌, false, if◌then◌else◌};
ghost use Rattle.qo_kinds.specs.Bodies.{reads_moment};
ghost use Rattle.qo_heap.specs.Acts.{Acts, KeepsCounts, KeepsPeriods};
ghost use Rattle.qo_heap.specs.Board.{Shows};
ghost use Rattle.qo_heap.specs.Moments.{Timely};
ghost use Rattle.qo_heap.specs.Rows.{IsLive};
ghost use Rattle.qo_model.specs.Board.{Board};
ghost use Rattle.qo_model.specs.Release.{without_first};
ghost use Rattle.qo_model.specs.Reset.{after_hold, plugged, released};
ghost use Rattle.qo_reset.specs.Counts.{CountedBelow, CountsKept};
ghost use Rattle.qo_reset.specs.Phases.{Holds, births_of, phase_on};
ghost use Rattle.qo_reset.specs.declared.turns.Turn.TheVariants.{Run, RunOut};

use crate::turns::{Turn, walk};
use qo_heap::{Heap, Oid, Steps};
use qo_values::{Act, ResetKind};
use std::sync::ledger::Ledger;

/// What is done to each object in a phase: it acts, or only where it is in no reset.
fn phase_turn(act: Act, only_out: bool) -> Turn
    ensures { result ≡ (if only_out then RunOut act else Run act) }
{
    if only_out {
        Turn::RunOut(act)
    } else {
        Turn::Run(act)
    }
}

/// A phase of all below an object, and then of the object itself; only of those in no reset, where
/// it is told so.
fn phase<L: Ledger>(
    heap: &mut Heap,
    holds: &[Oid],
    root: Oid,
    act: Act,
    only_out: bool,
    steps: &mut Steps<L>,
)
    requires live { IsLive heap.old.rows root }
    requires phase { reads_moment act ≡ false }
    requires counts { CountedBelow root.birth (births_of holds.now) heap.old }
    ensures phase { heap.new ≡ phase_on act only_out (births_of holds.now) root.birth heap.old }
    ensures acts { Acts heap.old heap.new }
    ensures timely { Timely heap.old → Timely heap.new }
    ensures still { KeepsCounts heap.old heap.new }
    ensures periods { KeepsPeriods heap.old heap.new }
    ensures live { IsLive heap.new.rows root }
{
    heap.reveal_invariant();
    walk(heap, holds, root, phase_turn(act, only_out), steps);
}

/// The phases of a hold, for a reset of a type, on those in no reset: all enter before one holds.
pub fn held_phases<L: Ledger>(
    heap: &mut Heap,
    holds: &[Oid],
    root: Oid,
    kind: ResetKind,
    steps: &mut Steps<L>,
)
    requires live { IsLive heap.old.rows root }
    requires counts { CountsKept (births_of holds.now) heap.old }
    ensures shown { (b : Board) → Holds b (births_of holds.now) heap.old → Shows (after_hold b root.birth kind) heap.new }
    ensures acts { Acts heap.old heap.new }
    ensures timely { Timely heap.old → Timely heap.new }
    ensures still { KeepsCounts heap.old heap.new }
    ensures counts { CountsKept (births_of holds.now) heap.new }
    ensures periods { KeepsPeriods heap.old heap.new }
    ensures live { IsLive heap.new.rows root }
{
    phase(heap, holds, root, kind.entering(), true, steps);
    phase(heap, holds, root, Act::Hold, true, steps);
}

/// The phase of those that exit once a hold is released; the holds are those that are left.
pub fn released_phases<L: Ledger>(heap: &mut Heap, holds: &[Oid], root: Oid, steps: &mut Steps<L>)
    requires live { IsLive heap.old.rows root }
    requires counts { CountsKept (births_of holds.now) heap.old }
    ensures shown { (b : Board) → Shows b heap.old → without_first root.birth b.holds ≡ births_of holds.now → Shows (released b root.birth) heap.new }
    ensures acts { Acts heap.old heap.new }
    ensures timely { Timely heap.old → Timely heap.new }
    ensures still { KeepsCounts heap.old heap.new }
    ensures counts { CountsKept (births_of holds.now) heap.new }
    ensures periods { KeepsPeriods heap.old heap.new }
{
    phase(heap, holds, root, Act::Exit, true, steps);
}

/// All phases of what is plugged; those below a hold do not exit.
pub fn plugged_phases<L: Ledger>(heap: &mut Heap, holds: &[Oid], dev: Oid, steps: &mut Steps<L>)
    requires live { IsLive heap.old.rows dev }
    requires counts { CountedBelow dev.birth (births_of holds.now) heap.old }
    ensures shown { (b : Board) → Holds b (births_of holds.now) heap.old → Shows (plugged b dev.birth) heap.new }
    ensures acts { Acts heap.old heap.new }
    ensures timely { Timely heap.old → Timely heap.new }
    ensures still { KeepsCounts heap.old heap.new }
    ensures periods { KeepsPeriods heap.old heap.new }
{
    phase(heap, holds, dev, Act::Enter, false, steps);
    phase(heap, holds, dev, Act::Hold, false, steps);
    phase(heap, holds, dev, Act::Exit, true, steps);
}
