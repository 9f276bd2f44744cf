//! The soundness of a board's clocks and moments: what clocks go by leads nowhere round, and periods
//! fit in 64 bits; no timer is ahead of the virtual time. Functions without effect, whose contracts
//! say what keeps it so. The definitions stand in `specs/`.
#![tactic(auto)]

ghost use Rattle.qo_sound_clocks.specs.ClockRuns.{ClockRunsLaw};
ghost use Rattle.qo_sound_clocks.specs.ClocksKept.{ClocksKeptLaw};
ghost use Rattle.qo_sound_clocks.specs.ClockFacts.{ClocksSayLaw};
ghost use Rattle.qo_sound_clocks.specs.NumbersKept.{NumbersKeptLaw};
ghost use Rattle.qo_sound_clocks.specs.RegisterWrites.{RegistersKeptLaw};
ghost use Rattle.qo_sound_clocks.specs.TimesKept.{TimesKeptLaw};
ghost use Rattle.qo_sound_clocks.specs.ClockWrites.{WritesKeepLaw};

/// The clocks of a board are sound on the opening board. They are so after what changes no object,
/// after acts and holds, and after a write of a clock's period, or of its mul and div, that is not
/// refused. Where the tree is sound too, they are so after each command on objects, after a device
/// that is added or refused at any stage, after one that is detached, and after the reset of the
/// whole board.
#[tactic(auto, using(crate::proofs::LawLemmas::clocks_kept_lem))]
pub fn law_clocks_kept()
    ensures { ClocksKeptLaw }
{}

/// On a board whose clocks are sound no clock goes by itself, in however many steps; and the periods
/// of those that go by a clock fit in 64 bits.
#[tactic(auto, using(crate::proofs::FactLemmas::clocks_say_lem))]
pub fn law_clocks_say()
    ensures { ClocksSayLaw }
{}

/// A clock's own period is of 64 bits, and its mul and div of 32, on the opening board and after each
/// of these changes, where what is written is so.
#[tactic(auto, using(crate::proofs::NumbersLemmas::numbers_kept_lem))]
pub fn law_numbers_kept()
    ensures { NumbersKeptLaw }
{}

/// A write of a clock that is not refused keeps the tree sound, the places of devices and the lists
/// that name them, and the notes in order.
#[tactic(auto, using(crate::proofs::WriteLawLemmas::writes_keep_lem))]
pub fn law_writes_keep()
    ensures { WritesKeepLaw }
{}

/// Other registers of an object leave the tree sound, the places of devices and the lists that name
/// them, the clocks with their numbers, and the notes in order; and the moments of timers, where no
/// moment in them is ahead of the time.
#[tactic(auto, using(crate::proofs::RegisterLemmas::registers_kept_lem))]
pub fn law_registers_kept()
    ensures { RegistersKeptLaw }
{}

/// No timer is ahead of the virtual time, on the opening board, and after each of these changes and
/// time that goes on. A guest's write to a timer's register leaves the timer so.
#[tactic(auto, using(crate::proofs::TimesLemmas::times_kept_lem))]
pub fn law_times_kept()
    ensures { TimesKeptLaw }
{}

/// Devices, clocks with their numbers, and moments are sound together after any steps of the opening
/// board: what comes and goes, clocks that are written, refused or not, and time that goes on. Each
/// step keeps them so.
#[tactic(auto, using(crate::proofs::RunLemmas::clock_runs_lem))]
pub fn law_clock_runs()
    ensures { ClockRunsLaw }
{}
