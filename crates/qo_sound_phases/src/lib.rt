//! The phases of resets on a board: that those of each object are in turn, enter, hold, exit, and so
//! on. Functions without effect, whose contracts say what keeps them so. The definitions stand in
//! `specs/`.
#![tactic(auto)]

ghost use Rattle.qo_sound_phases.specs.PhaseRuns.{PhaseRunsLaw};
ghost use Rattle.qo_sound_phases.specs.PhasesKept.{PhasesKeptLaw};
ghost use Rattle.qo_sound_phases.specs.PhaseFacts.{PhasesSayLaw};

/// On the opening board no object went through a phase. Where devices are sound, and the phases of
/// each birth are in turn, and what a reset reaches is held by its notes where a hold is on it or
/// above it, and nowhere else, so it is after each command on objects, a device that is added,
/// refused at any stage or cut, a removal that is asked for or refused, a device that is detached,
/// an act that is no phase, a hold, a hold less, both, the reset of the whole board, and a write of
/// a clock's numbers that is not refused. So it is too, on every board, after other registers of an
/// object, which leave each device in its place.
#[tactic(auto, using(crate::proofs::LawLemmas::phases_kept_lem))]
pub fn law_phases_kept()
    ensures { PhasesKeptLaw }
{}

/// On such a board the phases noted of each birth are the beginning of enter, hold, exit, repeated;
/// a phase goes to no object twice; and a machine, a bus or a device that is in the tree is held by
/// its notes where a hold is on it or above it, and nowhere else. Who is found by slots from a bus
/// of the machine down is a device that stands in its place, and the first bus of a device that
/// stands may be held in reset.
#[tactic(auto, using(crate::proofs::LawLemmas::phases_say_lem))]
pub fn law_phases_say()
    ensures { PhasesSayLaw }
{}

/// Over every run from the opening board, by steps that the machine makes, the phases noted of each
/// birth are the beginning of enter, hold, exit, repeated.
#[tactic(auto, using(crate::proofs::RunLemmas::phase_runs_lem))]
pub fn law_phase_runs()
    ensures { PhaseRunsLaw }
{}
