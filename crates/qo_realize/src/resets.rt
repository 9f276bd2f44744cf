//! Resets by command: holds on the objects at paths, and the reset of the whole board
//! (docs/devel/reset.rst, "Triggering reset"; QEMU's QAPI, `system_reset`).

ghost use Rattle.std.specs.Prelude.{◌≡◌, IfOk, IfSome, OnErr, length};
ghost use Rattle.qo_model.specs.Board.{Board as Tree};
ghost use Rattle.qo_model.specs.Hotplug.{all_completed, reset_whole, woken};
ghost use Rattle.qo_model.specs.Reset.{pulse};
ghost use Rattle.qo_values.specs.declared.births.TheConstants.{MACHINE_BIRTH};
ghost use Rattle.qo_object.specs.BoardObject.{birth_of};
ghost use Rattle.qo_heap.specs.Rows.{IsLive};
ghost use Rattle.qo_heap.specs.Acts.{Acts, KeepsPeriods};
ghost use Rattle.qo_heap.specs.Board.{Shows};
ghost use Rattle.qo_properties.specs.Reads.{birth_told};
ghost use Rattle.qo_reset.specs.Counts.{CountsKept};
ghost use Rattle.qo_reset.specs.Phases.{Holds};
ghost use Rattle.qo_realize.specs.Answers.{Changes, IsAnswered};
ghost use Rattle.qo_realize.specs.Removals.{first_device};
ghost use Rattle.qo_realize.specs.Resets.{Releases, Resets as Holding, held_at, released_at, resettable_at};
ghost use Rattle.qo_realize.specs.Representation.{Stands};

use crate::board::Board;
use qo_heap::{Heap, Oid, Steps};
use qo_paths::{PathError, is_attached, resolve};
use qo_properties::Refusal;
use qo_reset::Resets;
use qo_values::{Code, MACHINE_BIRTH, ResetKind};
use std::sync::ledger::Ledger;

/// The object at a path that may be held in reset. Refused with E15 where the path leads to none, and
/// E16 where to several.
fn resettable_at<L: Ledger>(heap: &Heap, path: &str, steps: &mut Steps<L>) -> Result<Oid, Code>
    ensures object { (b : Tree) → Shows b heap.now → birth_told result ≡ resettable_at b path.now }
    ensures live { IfOk result (IsLive heap.now.rows) }
{
    match resolve(heap, path, "resettable", steps) {
        Ok(o) => Ok(o),
        Err(PathError::NotFound) => Err(Code::E15),
        Err(PathError::Ambiguous) => Err(Code::E16),
    }
}

/// Holds the object at a path in a reset of a type. Refused with E15 where the path leads to none, E16 where to
/// several, E15 where it is detached, and E48 where the hold would be one too many. The other error is
/// want of memory. An error leaves all as it was.
fn hold<L: Ledger>(
    heap: &mut Heap,
    resets: &mut Resets,
    path: &str,
    kind: ResetKind,
    steps: &mut Steps<L>,
) -> Result<(), Refusal>
    requires { CountsKept resets.old.births heap.old }
    ensures held { (b : Tree) → Holds b resets.old.births heap.old → Holding b (held_at b path.now kind) result resets.new.births heap.new }
    ensures acts { Acts heap.old heap.new }
    ensures counts { CountsKept resets.new.births heap.new }
    ensures periods { KeepsPeriods heap.old heap.new }
    ensures err { OnErr result ((heap.new ≡ heap.old) × (resets.new.births ≡ resets.old.births)) }
{
    let o = resettable_at(heap, path, steps)?;
    if !is_attached(heap, o, steps) {
        return Err(Refusal::Refused(Code::E15));
    }
    resets.reserve()?;
    match resets.hold(heap, o, kind, steps) {
        Ok(()) => Ok(()),
        Err(_) => Err(Refusal::Refused(Code::E48)),
    }
}

/// Releases a hold on the object at a path. Refused with E15 where the path leads to none, E16 where to
/// several, and E49 where no hold is on it. An error leaves all as it was.
fn release<L: Ledger>(
    heap: &mut Heap,
    resets: &mut Resets,
    path: &str,
    steps: &mut Steps<L>,
) -> Result<(), Code>
    requires { CountsKept resets.old.births heap.old }
    ensures released { (b : Tree) → Holds b resets.old.births heap.old → Releases b (released_at b path.now) result resets.new.births heap.new }
    ensures acts { Acts heap.old heap.new }
    ensures counts { CountsKept resets.new.births heap.new }
    ensures periods { KeepsPeriods heap.old heap.new }
    ensures err { OnErr result ((heap.new ≡ heap.old) × (resets.new.births ≡ resets.old.births)) }
{
    let o = resettable_at(heap, path, steps)?;
    match resets.release(heap, o, steps) {
        Ok(()) => Ok(()),
        Err(_) => Err(Code::E49),
    }
}

impl Board {
    /// Holds the object at a path in a reset of a type, with all that is below it (docs/devel/reset.rst,
    /// "Triggering reset", `resettable_assert_reset`): what was in no reset enters one. The type is no
    /// matter to a hold once it stands. Refused with E15
    /// where the path leads to no object that is `resettable`, E16 where to several, E15 where the
    /// object is detached, and E48 where there are so many holds on it or on what is below it, and above
    /// these, that one more would be too many. The other error is want of memory. An error leaves the
    /// board as it was.
    pub fn hold<L: Ledger>(
        &mut self,
        path: &str,
        kind: ResetKind,
        steps: &mut Steps<L>,
    ) -> Result<(), Refusal>
        ensures held { (b : Tree) → Stands b self.old → Changes (held_at b path.now kind) b result self.new }
        ensures err { OnErr result (self.new ≡ self.old) }
    {
        hold(&mut self.heap, &mut self.resets, path, kind, steps)
    }

    /// Releases a hold on the object at a path (docs/devel/reset.rst, "Triggering reset",
    /// `resettable_release_reset`): of it and what is below it that leaves its reset on which, and above
    /// which, no hold is left. Refused with E15 where the path leads to no object that is
    /// `resettable`, E16 where to several, and E49 where no hold is on it. An error leaves the board as
    /// it was. It takes no memory.
    pub fn release<L: Ledger>(&mut self, path: &str, steps: &mut Steps<L>) -> Result<(), Code>
        ensures released { (b : Tree) → Stands b self.old → IsAnswered (released_at b path.now) result self.new }
        ensures err { OnErr result (self.new ≡ self.old) }
    {
        release(&mut self.heap, &mut self.resets, path, steps)
    }

    /// How many removals are pending.
    fn pending_count(&self) -> usize
        ensures { result ≡ length self.now.pending }
    {
        self.hotplug.pending().len()
    }

    /// The device whose removal has been pending longest; `None` exactly where none is.
    fn first_pending(&self) -> Option<Oid>
        ensures first { birth_of result ≡ first_device self.now.pending }
        ensures live { IfSome result (IsLive self.now.objects.rows) }
    {
        let first = self.hotplug.first_pending()?;
        self.heap.by_birth(first.birth)
    }

    /// The removals that are pending come to their end, in the order of the first asking. One may take with it
    /// others that are pending below it.
    #[tactic(auto, using(crate::proofs::ResetLemmas::first_listed))]
    fn complete_all<L: Ledger>(&mut self, steps: &mut Steps<L>)
        ensures { (b : Tree) → Stands b self.old → Stands (all_completed (length b.pending) b) self.new }
    {
        for _turn in 0..self.pending_count() {
            if let Some(dev) = self.first_pending() {
                self.complete(dev, steps);
            }
        }
    }

    /// The machine goes through the phases of a reset of a type, with all that is below it.
    fn pulse_machine<L: Ledger>(&mut self, kind: ResetKind, steps: &mut Steps<L>)
        ensures { (b : Tree) → Stands b self.old → Stands (pulse b MACHINE_BIRTH kind) self.new }
    {
        if let Some(machine) = self.heap.by_birth(MACHINE_BIRTH) {
            self.resets.pulse(&mut self.heap, machine, kind, steps);
        }
    }

    /// Resets the whole board (QEMU's QAPI, `system_reset`; include/hw/resettable.h): first the devices
    /// whose removal is pending are let go, in the order of the first asking, and then the machine goes through
    /// the phases, cold. It takes no memory, and always succeeds.
    pub fn system_reset<L: Ledger>(&mut self, steps: &mut Steps<L>)
        ensures { (b : Tree) → Stands b self.old → Stands (reset_whole b) self.new }
    {
        self.complete_all(steps);
        self.pulse_machine(ResetKind::Cold, steps);
    }

    /// Wakes the machine up: it goes through the phases of a wakeup, with all that is below it
    /// (docs/devel/reset.rst, "Reset types"; the profile's `x-wakeup`). No removal comes to its end by
    /// that. It takes no memory, and always succeeds.
    pub fn wakeup<L: Ledger>(&mut self, steps: &mut Steps<L>)
        ensures { (b : Tree) → Stands b self.old → Stands (woken b) self.new }
    {
        self.pulse_machine(ResetKind::Wakeup, steps);
    }
}
