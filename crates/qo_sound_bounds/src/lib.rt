//! The rest of what a sound board is: that it stays within the profile's limits, that its clocks go
//! by the clocks that they are connected to, that nothing on it is held in reset too often, and that
//! its timers count in the segments for which they are enabled. Functions without effect, whose
//! contracts say what keeps it so. The definitions stand in `specs/`.
#![tactic(auto)]

ghost use Rattle.qo_sound_bounds.specs.BoundsKept.{BoundsKeptLaw};
ghost use Rattle.qo_sound_bounds.specs.HoldsKept.{HoldsKeptLaw};
ghost use Rattle.qo_sound_bounds.specs.SegmentsKept.{SegmentsKeptLaw};
ghost use Rattle.qo_sound_bounds.specs.SourcesKept.{SourcesKeptLaw};

/// There are no more objects than the profile allows, and the virtual time is no later, on the opening
/// board, and after each command on objects, a device that is added, refused at any stage or cut, a
/// removal that is asked for or refused, a device that is detached, acts and holds, the reset of the
/// whole board, a write of a clock's numbers that is not refused, other registers of an object, and
/// what changes no object and sets a time that is no later.
#[tactic(auto, using(crate::proofs::BoundsLemmas::bounds_kept_lem))]
pub fn law_bounds_kept()
    ensures { BoundsKeptLaw }
{}

/// The clock of each realized device goes by that of the bridge whose bus the device is on, or by the
/// system's, and no other clock goes by one, on the opening board, after what changes no object, and,
/// where the board is sound as far as devices go, after each command on objects, a device that is
/// added or refused at any stage, one that stands in its place and is detached, acts and holds, the
/// reset of the whole board, a write of a clock's numbers that is not refused, and other registers of
/// an object.
#[tactic(auto, using(crate::proofs::SourcesLawLemmas::sources_kept_lem))]
pub fn law_sources_kept()
    ensures { SourcesKeptLaw }
{}

/// No object that a reset reaches has more holds on it and above it than one more than the profile
/// allows before a hold, on the opening board, and after what changes no object and no hold, an act,
/// a hold that is not one too many, a hold less, both, and other registers of an object; where the
/// board is sound as far as devices go, after each command on objects, a device that stands in its
/// place and is detached, the reset of the whole board, and a write of a clock's numbers that is not
/// refused; and where its phases are sound too, after a device that is added or refused at any stage.
#[tactic(auto, using(crate::proofs::HoldsLemmas::holds_kept_lem))]
pub fn law_holds_kept()
    ensures { HoldsKeptLaw }
{}

/// Each timer that is enabled has a segment open, and no other has; it began when one last began or
/// ended, and the ended ones have no more ticks than the time until then allows. So it is on the
/// opening board, and after what changes no object, whatever the time, and other registers of an
/// object that are so; where no timer is ahead of the virtual time, after acts (Pre with its Update)
/// and holds, a write of a clock's numbers that is not refused, each command on objects, a device that
/// is added, refused at any stage or detached, and the reset of the whole board. A guest's write to a
/// register of a timer that is not ahead of the time leaves it so.
#[tactic(auto, using(crate::proofs::SegmentsLawLemmas::segments_kept_lem))]
pub fn law_segments_kept()
    ensures { SegmentsKeptLaw }
{}
