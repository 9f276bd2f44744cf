//! The counts that are kept, where a hold comes or goes, or an object is plugged. No call here takes
//! memory.

ghost use Rattle.std.specs.Prelude.{◌≡◌, ◌≤◌, [], ◌∷◌, ◌++◌, ℕ, List, true, length};
ghost use Rattle.qo_heap.specs.Acts.{Acts, KeepsPeriods};
ghost use Rattle.qo_heap.specs.Board.{Shows};
ghost use Rattle.qo_heap.specs.Moments.{Timely};
ghost use Rattle.qo_heap.specs.Rows.{IsLive};
ghost use Rattle.qo_model.specs.Board.{Board};
ghost use Rattle.qo_model.specs.Depth.{among};
ghost use Rattle.qo_model.specs.Release.{without_first};
ghost use Rattle.qo_reset.specs.Counts.{CountedBelow, CountsKept, HasRoom, KeepsOthers};
ghost use Rattle.qo_reset.specs.Phases.{births_of};
ghost use Rattle.qo_reset.specs.Turns.{tallied_on, walk_on};
ghost use Rattle.qo_reset.specs.declared.turns.Tally.TheVariants.{Raise, Lower};
ghost use Rattle.qo_reset.specs.declared.turns.Turn.TheVariants.{Recount};
ghost use Rattle.qo_reset.specs.declared.turns.TheConstants.{HOLDS_MAX};

use crate::turns::{Tally, Turn, walk};
use qo_heap::{Heap, Oid, Steps};
use std::sync::ledger::Ledger;

/// The count changes of an object and of each below it, once.
fn tally_below<L: Ledger>(heap: &mut Heap, root: Oid, tally: Tally, steps: &mut Steps<L>)
    requires { IsLive heap.old.rows root }
    ensures now { heap.new ≡ tallied_on tally root.birth heap.old }
    ensures acts { Acts heap.old heap.new }
    ensures timely { Timely heap.old → Timely heap.new }
    ensures periods { KeepsPeriods heap.old heap.new }
    ensures live { IsLive heap.new.rows root }
{
    walk(heap, &[], root, Turn::Count(tally), steps);
    walk(heap, &[], root, Turn::Count(Tally::Unmark), steps);
}

/// A hold on an object comes: each object below it has one more.
pub fn raise<L: Ledger>(heap: &mut Heap, root: Oid, steps: &mut Steps<L>)
    requires { IsLive heap.old.rows root }
    ensures counts { (holds : List ℕ) → CountsKept holds heap.old → HasRoom root.birth holds heap.old → CountsKept (holds ++ root.birth ∷ []) heap.new }
    ensures shown { (b : Board) → Shows b heap.old → Shows b heap.new }
    ensures acts { Acts heap.old heap.new }
    ensures timely { Timely heap.old → Timely heap.new }
    ensures periods { KeepsPeriods heap.old heap.new }
{
    tally_below(heap, root, Tally::Raise, steps);
}

/// A hold on an object goes: each object below it has one less.
pub fn lower<L: Ledger>(heap: &mut Heap, root: Oid, steps: &mut Steps<L>)
    requires { IsLive heap.old.rows root }
    ensures counts { (holds : List ℕ) → CountsKept holds heap.old → among holds root.birth ≡ true → CountsKept (without_first root.birth holds) heap.new }
    ensures shown { (b : Board) → Shows b heap.old → Shows b heap.new }
    ensures acts { Acts heap.old heap.new }
    ensures timely { Timely heap.old → Timely heap.new }
    ensures periods { KeepsPeriods heap.old heap.new }
    ensures live { IsLive heap.new.rows root }
{
    tally_below(heap, root, Tally::Lower, steps);
}

/// The holds are counted afresh on a device that is plugged, and on all below it.
pub fn recount_below<L: Ledger>(heap: &mut Heap, holds: &[Oid], dev: Oid, steps: &mut Steps<L>)
    requires live { IsLive heap.old.rows dev }
    requires few { length holds.now ≤ HOLDS_MAX }
    ensures counted { CountedBelow dev.birth (births_of holds.now) heap.new }
    ensures others { KeepsOthers dev.birth heap.old heap.new }
    ensures shown { (b : Board) → Shows b heap.old → Shows b heap.new }
    ensures acts { Acts heap.old heap.new }
    ensures timely { Timely heap.old → Timely heap.new }
    ensures periods { KeepsPeriods heap.old heap.new }
    ensures live { IsLive heap.new.rows dev }
{
    walk(heap, holds, dev, Turn::Recount, steps);
}
