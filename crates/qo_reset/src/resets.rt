//! The holds that stand.

ghost use Rattle.std.specs.Prelude.{◌≡◌, nat_eq, position};

use crate::counts::{exceeds_depth_below, kept_count};
use crate::errors::HoldError;
use crate::phases::{held_phases, plugged_phases, released_phases};
use crate::tallies::{lower, raise, recount_below};
use crate::turns::{HOLDS_MAX, set_count};
use qo_heap::{Heap, Oid, Steps};
use qo_values::ResetKind;
use std::alloc::{AllocError, Global};
use std::marker::Model;
use std::sync::ledger::Ledger;

/// The holds that were taken and not yet released, each on an object; at most 2^32 - 1. How many of
/// them are on an object and above it is kept beside the object on a heap: the calls here that need
/// these counts to be right leave them so.
#[derive(Debug, Drop)]
pub struct Resets {
    /// The objects, in the order of taking.
    holds: Vec<Oid>,
}

impl Model for Resets {
    ghost use Rattle.std.specs.Prelude.{◌-◌, ◌≤◌, min};
    ghost use Rattle.std.specs.Vec.{vec_len, vec_capacity};
    ghost use Rattle.qo_reset.specs.HoldList.{HoldList};
    ghost use Rattle.qo_reset.specs.Phases.{births_of};
    ghost use Rattle.qo_reset.specs.declared.turns.TheConstants.{HOLDS_MAX};

    ghost Value = { HoldList };

    ghost view = { λ r. record { births = births_of r.holds.items; spare = min (vec_capacity r.holds) HOLDS_MAX - vec_len r.holds } };

    ghost invariant = { λ r. vec_len r.holds ≤ HOLDS_MAX };
}

/// The place of the first hold on the object of a birth.
fn hold_index(holds: &[Oid], birth: u64) -> Option<usize>
    ensures { result ≡ position (λ k. nat_eq k.birth birth) holds.now }
{
    holds.iter().position(|hold| hold.birth == birth)
}

impl Resets {
    ghost use Rattle.std.specs.Prelude.{◌+◌, ◌-◌, ◌≤◌, [], ◌∷◌, ◌++◌, if◌then◌else◌, false, Ok, Err, IsOk, OnOk, OnErr, length};
    ghost use Rattle.qo_heap.specs.Rows.{IsLive};
    ghost use Rattle.qo_model.specs.Board.{Board};
    ghost use Rattle.qo_model.specs.Depth.{among};
    ghost use Rattle.qo_model.specs.Release.{without_first};
    ghost use Rattle.qo_model.specs.Reset.{after_hold, count, exceeds_depth, plugged, pulse, released};
    ghost use Rattle.qo_model.specs.Unplug.{without_all};
    ghost use Rattle.qo_heap.specs.Acts.{Acts, KeepsCounts, KeepsPeriods};
    ghost use Rattle.qo_heap.specs.Moments.{Timely};
    ghost use Rattle.qo_heap.specs.Objects.{with_edit};
    ghost use Rattle.qo_reset.specs.Counts.{CountedBelow, CountsKept, CountsKeptBut, HasRoom, KeepsOthers};
    ghost use Rattle.qo_reset.specs.HoldList.{HoldList, no_holds, with_hold};
    ghost use Rattle.qo_reset.specs.Phases.{Holds};
    ghost use Rattle.qo_reset.specs.Turns.{counted, sided};
    ghost use Rattle.qo_reset.specs.declared.errors.HoldError.TheVariants.{Depth, NoHold};

    /// No holds, and room for none. It takes no memory.
    pub fn new(alloc: Global) -> Resets
        ensures { result ≡ no_holds }
    {
        Resets {
            holds: Vec::new(alloc),
        }
    }

    /// Makes room for one hold more. The error is want of memory, or that there are 2^32 - 1 holds,
    /// and leaves all as it was.
    pub fn reserve(&mut self) -> Result<(), AllocError>
        ensures room { OnOk result (1 ≤ self.new.spare) }
        ensures succeeds { 1 ≤ self.old.spare → IsOk result }
        ensures kept { self.new.births ≡ self.old.births }
        ensures grows { self.old.spare ≤ self.new.spare }
        ensures err { OnErr result (self.new ≡ self.old) }
    {
        if self.holds.len() >= HOLDS_MAX as usize {
            return Err(AllocError);
        }
        self.holds.reserve(1)
    }

    /// How many holds there are on an object and above it. It takes one look, and no memory.
    pub fn count<L: Ledger>(&self, heap: &Heap, o: Oid, steps: &mut Steps<L>) -> u32
        requires live { IsLive heap.now.rows o }
        requires counts { CountsKept self.now.births heap.now }
        ensures count { (b : Board) → Holds b self.now.births heap.now → result ≡ count b o.birth }
        ensures cost { steps.new ≡ steps.old + 1 }
    {
        kept_count(heap, o, steps)
    }

    /// Whether a hold on an object would be one too many for it or for one below it.
    fn exceeds_depth<L: Ledger>(&self, heap: &Heap, root: Oid, steps: &mut Steps<L>) -> bool
        requires live { IsLive heap.now.rows root }
        requires counts { CountsKept self.now.births heap.now }
        ensures exceeds { (b : Board) → Holds b self.now.births heap.now → result ≡ exceeds_depth b root.birth }
        ensures room { result ≡ false → HasRoom root.birth self.now.births heap.now }
    {
        heap.reveal_invariant();
        let levels = heap.live() + 1;
        exceeds_depth_below(heap, root, levels, steps)
    }

    /// Holds an object, for a reset of a type: those of it and below it that were in no reset enter, all of them before one holds
    /// (docs/devel/reset.rst, "Triggering reset", `resettable_assert_reset`). There must be room
    /// for the hold. Refused with `Depth` exactly where one of them has more holds on it and above
    /// it than `HOLD_COUNT_MAX`, which leaves all as it was. It takes no memory.
    pub fn hold<L: Ledger>(
        &mut self,
        heap: &mut Heap,
        root: Oid,
        kind: ResetKind,
        steps: &mut Steps<L>,
    ) -> Result<(), HoldError>
        requires live { IsLive heap.old.rows root }
        requires room { 1 ≤ self.old.spare }
        requires counts { CountsKept self.old.births heap.old }
        ensures answer { (b : Board) → Holds b self.old.births heap.old → result ≡ (if exceeds_depth b root.birth then Err Depth else Ok tt) }
        ensures shown { OnOk result ((b : Board) → Holds b self.old.births heap.old → Holds (after_hold b root.birth kind) self.new.births heap.new) }
        ensures holds { OnOk result (self.new ≡ with_hold root.birth self.old) }
        ensures err { OnErr result ((heap.new ≡ heap.old) × (self.new ≡ self.old)) }
        ensures acts { Acts heap.old heap.new }
        ensures timely { Timely heap.old → Timely heap.new }
        ensures counts { CountsKept self.new.births heap.new }
        ensures periods { KeepsPeriods heap.old heap.new }
    {
        if self.exceeds_depth(heap, root, steps) {
            return Err(HoldError::Depth);
        }
        held_phases(heap, &self.holds, root, kind, steps);
        raise(heap, root, steps);
        self.holds.push_reserved(root);
        Ok(())
    }

    /// Releases a hold on an object: those of it and below it on which and above which no hold is
    /// left exit (docs/devel/reset.rst, "Triggering reset", `resettable_release_reset`). Refused
    /// with `NoHold` exactly where there is none on it, which leaves all as it was. It takes no
    /// memory.
    pub fn release<L: Ledger>(
        &mut self,
        heap: &mut Heap,
        root: Oid,
        steps: &mut Steps<L>,
    ) -> Result<(), HoldError>
        requires live { IsLive heap.old.rows root }
        requires counts { CountsKept self.old.births heap.old }
        ensures answer { result ≡ (if among self.old.births root.birth then Ok tt else Err NoHold) }
        ensures shown { OnOk result ((b : Board) → Holds b self.old.births heap.old → Holds (released b root.birth) self.new.births heap.new) }
        ensures holds { OnOk result (self.new.births ≡ without_first root.birth self.old.births) }
        ensures room { OnOk result (self.new.spare ≡ self.old.spare + 1) }
        ensures err { OnErr result ((heap.new ≡ heap.old) × (self.new ≡ self.old)) }
        ensures acts { Acts heap.old heap.new }
        ensures timely { Timely heap.old → Timely heap.new }
        ensures counts { CountsKept self.new.births heap.new }
        ensures periods { KeepsPeriods heap.old heap.new }
    {
        let Some(at) = hold_index(&self.holds, root.birth) else {
            return Err(HoldError::NoHold);
        };
        self.holds.remove(at);
        lower(heap, root, steps);
        released_phases(heap, &self.holds, root, steps);
        Ok(())
    }

    /// Of the holds on an object the first is taken after the others, as one that was taken and
    /// released at once leaves them.
    fn put_last(&mut self, birth: u64)
        ensures holds { self.new.births ≡ without_first birth (self.old.births ++ birth ∷ []) }
        ensures room { self.new.spare ≡ self.old.spare }
    {
        if let Some(at) = hold_index(&self.holds, birth) {
            let hold = self.holds.remove(at);
            self.holds.push_reserved(hold);
        }
    }

    /// Holds an object and releases it at once (docs/devel/reset.rst, "Triggering reset",
    /// `resettable_reset`). No count moves. It needs no room, and takes no memory.
    pub fn pulse<L: Ledger>(
        &mut self,
        heap: &mut Heap,
        root: Oid,
        kind: ResetKind,
        steps: &mut Steps<L>,
    )
        requires live { IsLive heap.old.rows root }
        requires counts { CountsKept self.old.births heap.old }
        ensures shown { (b : Board) → Holds b self.old.births heap.old → Holds (pulse b root.birth kind) self.new.births heap.new }
        ensures holds { self.new.births ≡ without_first root.birth (self.old.births ++ root.birth ∷ []) }
        ensures room { self.new.spare ≡ self.old.spare }
        ensures acts { Acts heap.old heap.new }
        ensures timely { Timely heap.old → Timely heap.new }
        ensures still { KeepsCounts heap.old heap.new }
        ensures counts { CountsKept self.new.births heap.new }
        ensures periods { KeepsPeriods heap.old heap.new }
    {
        held_phases(heap, &self.holds, root, kind, steps);
        self.put_last(root.birth);
        released_phases(heap, &self.holds, root, steps);
    }

    /// What is plugged goes through the phases, and stays held where it is below a hold
    /// (docs/devel/reset.rst, "Handling reset in a resettable object", `resettable_change_parent`;
    /// which phases it goes through is this machine's own). Its holds, and those of all below it,
    /// are counted afresh, and need not be right before. It takes no memory.
    pub fn plugged<L: Ledger>(&self, heap: &mut Heap, dev: Oid, steps: &mut Steps<L>)
        requires { IsLive heap.old.rows dev }
        ensures shown { (b : Board) → Holds b self.now.births heap.old → Holds (plugged b dev.birth) self.now.births heap.new }
        ensures acts { Acts heap.old heap.new }
        ensures timely { Timely heap.old → Timely heap.new }
        ensures counted { CountedBelow dev.birth self.now.births heap.new }
        ensures others { KeepsOthers dev.birth heap.old heap.new }
        ensures counts { CountsKeptBut dev.birth self.now.births heap.old → CountsKept self.now.births heap.new }
        ensures periods { KeepsPeriods heap.old heap.new }
    {
        recount_below(heap, &self.holds, dev, steps);
        plugged_phases(heap, &self.holds, dev, steps);
    }

    /// Lets the holds on an object go that is on its way out, whose count is 0 from then on; no
    /// phase follows. It takes no memory.
    pub fn gone<L: Ledger>(&mut self, heap: &mut Heap, o: Oid, steps: &mut Steps<L>)
        requires { IsLive heap.old.rows o }
        ensures holds { self.new.births ≡ without_all o.birth self.old.births }
        ensures room { self.new.spare + length self.new.births ≡ self.old.spare + length self.old.births }
        ensures now { heap.new ≡ with_edit o.birth (sided (counted 0)) heap.old }
        ensures cost { steps.new ≡ steps.old + 2 }
    {
        self.holds.retain(|hold| hold.birth != o.birth);
        set_count(heap, o, 0, steps);
    }
}
