//! What follows from the definitions: functions without effect, whose contracts are the laws.

ghost use Rattle.std.specs.Prelude.{ℕ, List, ⊤};
ghost use Rattle.qo_model.specs.Board.{Board};
ghost use Rattle.qo_model.specs.FinalNotesRuns.{FinalOnceLaw};
ghost use Rattle.qo_model.specs.Laws.{
  OpeningLaw,
  PathsLaw,
  FrameLaw,
  ReleaseLaw,
  LeavesLaw,
  FinalNotesLaw,
  CycleLaw,
  WeakLinksLaw,
  PeriodsLaw,
  StackLaw,
  SparesLaw,
};
ghost use Rattle.qo_model.specs.ReleaseBound.{BoundLaw};
ghost use Rattle.qo_model.specs.ReleaseInduction.{KeepsRelease, Keeps};

use std::marker::Brand;

/// The board that a machine begins with is sound.
#[tactic(auto, using(crate::proofs::OpeningLemmas::opening_sound))]
pub fn law_opening()
    ensures { OpeningLaw }
{}

/// On the opening board the eight objects have their canonical paths, and each leads back to its
/// object. An object has a canonical path exactly where it is attached. On a sound board it is
/// attached where its parent is, and its path is its parent's with its name after.
#[tactic(auto, using(crate::proofs::TreeLemmas::paths_lem))]
pub fn law_paths()
    ensures { PathsLaw }
{}

/// Two boards that agree in all that a group of soundness speaks of agree in that group.
#[tactic(auto, using(crate::proofs::TreeLemmas::frame_lem))]
pub fn law_frame()
    ensures { FrameLaw }
{}

/// A release is one finalization by its own rule, on every board and to any depth. The rules of
/// release, as steps from board to board, lead to what `finalize` gives and to nothing else.
#[tactic(auto, using(crate::proofs::ReleaseRulesLemmas::release_lem))]
pub fn law_release()
    ensures { ReleaseLaw }
{}

/// A fact of the work that a release still has to do, and of the board. The work is a list: each
/// object that is being finalized, and the place from which its slots are still to be let go.
pub trait Kept {
    ghost kept: { List (ℕ × ℕ) → Board → Type 0 };
}

/// Nothing in particular; the proof of a call at `Brand` picks its own fact.
impl Kept for Brand {
    ghost kept = { λ work b. ⊤ };
}

/// What each turn of the work of a release keeps, a release keeps.
pub fn law_release_keeps<K: Kept>()
    requires { KeepsRelease K.kept }
    ensures { Keeps K.kept }
{}

/// A release done as work on a list, whose first object lets the slot at its place go, or ends: each
/// turn comes to the same, on a board whose births differ and whose slots name what is there, and
/// with work on different objects that are there and to which nothing refers; and all this is so
/// again of the board and of the work after it.
#[tactic(auto, using(crate::proofs::ReleaseWorkLemmas::stack_lem))]
pub fn law_stack()
    ensures { StackLaw }
{}

/// A release leaves the objects that are still there with their slots, but for the weak links to
/// those that went.
#[tactic(auto, using(crate::proofs::SparesLemmas::spares_lem))]
pub fn law_release_spares()
    ensures { SparesLaw }
{}

/// How much a release does: what each turn leaves to do, and what it took away in all.
#[tactic(auto, using(crate::proofs::BoundLemmas::bound_lem))]
pub fn law_release_bound()
    ensures { BoundLaw }
{}

/// A release leaves all but records, notes and events. It makes no object, and of an object that
/// is still there it changes slots alone; notes and events come after those of before.
#[tactic(auto, using(crate::proofs::ReleaseScopeLemmas::leaves_lem))]
pub fn law_release_leaves()
    ensures { LeavesLaw }
{}

/// Where each weak link that is not empty sees an object that is there, so it is after a release.
#[tactic(auto, using(crate::proofs::WeakLinkLemmas::weak_links_lem))]
pub fn law_weak_links()
    ensures { WeakLinksLaw }
{}

/// A release notes the ends of objects and nothing else: on an object that is still there no new
/// note, on one that is not its final notes, derived first, after what was noted of it before.
#[tactic(auto, using(crate::proofs::ReleaseNotesLemmas::final_notes_lem))]
pub fn law_final_notes()
    ensures { FinalNotesLaw }
{}

/// After any commands on objects, from the opening board on, each birth has its final notes at most
/// once, derived first, and no note after them; they are those of the type of its init notes.
#[tactic(auto, using(crate::proofs::FinalNotesRunsLemmas::final_once_lem))]
pub fn law_final_once()
    ensures { FinalOnceLaw }
{}

/// On a sound board an object that is there and not attached is held, by child slots and strong
/// links, from an object on a cycle of these, or from an attached object.
pub fn law_cycle()
    ensures { CycleLaw }
{}

/// The period of a clock without a source is its own, and of any other that of its source, as the
/// source's multiplier and divider make it (docs/devel/clocks.rst, "Clock multiplier and divider
/// settings"), on every board, also where sources lead round.
#[tactic(auto, using(crate::proofs::PeriodLemmas::periods_lem))]
pub fn law_periods()
    ensures { PeriodsLaw }
{}
