//! Definitions in plain words, each equal on a sound board to what stands in `qo_model`. Functions
//! without effect, whose contracts say so. The definitions stand in `specs/`.
#![tactic(auto)]

ghost use Rattle.qo_plain.specs.Detached.{DetachedLaw};
ghost use Rattle.qo_plain.specs.Detaching.{DetachLaw};
ghost use Rattle.qo_plain.specs.Gone.{GoneLaw};
ghost use Rattle.qo_plain.specs.Places.{PlacesLaw};
ghost use Rattle.qo_plain.specs.Plugged.{PluggedLaw};
ghost use Rattle.qo_plain.specs.Taken.{TakenLaw};
ghost use Rattle.qo_plain.specs.Unrolled.{UnrolledLaw};

/// What goes over objects below or above one another, to a depth that the number of objects allows, is
/// on a sound board what its step says of itself, and no depth is felt: what a reset goes over, the
/// clocks below a clock, how many bridges stand above a bus, whether a removal is pending above it, and
/// how a device is unrealized with all that is below it.
#[tactic(auto, using(crate::proofs::UnrolledLemmas::unrolled_lem))]
pub fn law_unrolled()
    ensures { UnrolledLaw }
{}

/// A device without buses that stands in a container is detached in these steps, while it is held: it is
/// unrealized, leaves its bus, and its parent lets go the child slot that names it.
#[tactic(auto, using(crate::proofs::DetachedLemmas::detached_lem))]
pub fn law_detached()
    ensures { DetachedLaw }
{}

/// A device that stands in a container is detached as these sentences say, and no bound is felt: it is
/// unrealized with all that is below it; as long as it has a bus, the kids of the first one are taken out,
/// each in the same way, and the bus is let go; then the device leaves its bus, and its parent lets go the
/// child slot that names it. On any board nothing else can come of these sentences.
#[tactic(auto, using(crate::proofs::DetachingLemmas::detach_lem))]
pub fn law_detach()
    ensures { DetachLaw }
{}

/// With a device that is detached all that is below it is gone. Whoever else stood in a container stands
/// there, on the bus and in the slot that it had; and nobody comes.
#[tactic(auto, using(crate::proofs::GoneLemmas::gone_lem))]
pub fn law_gone()
    ensures { GoneLaw }
{}

/// The board with a device that nothing refuses is one record, from which the device starts. Of what was
/// there the container has the device as a child, the bus has it in its slot, and all else stays. After
/// these stands the device, with the values that were given, on its bus, in its slot, realized, a DIMM at
/// its address; and then its further objects, of which a clock goes by the clock for the bus.
#[tactic(auto, using(crate::proofs::PluggedLemmas::plugged_lem))]
pub fn law_plugged()
    ensures { PluggedLaw }
{}

/// A device that stands in a container is detached in these steps, where all kids and buses are those of
/// the board before: it is unrealized with all that is below it; bus after bus, each kid is taken out, and
/// the bus is let go; then the device leaves its bus and its container. A kid is taken out in the same way,
/// and is held meanwhile. No bound is felt, and no other way of taking out goes by these steps.
#[tactic(auto, using(crate::proofs::TakenLemmas::taken_lem))]
pub fn law_taken()
    ensures { TakenLaw }
{}

/// Where devices are, in the words of the tree: the soundness of places says this on a board whose tree is
/// sound, and it says no more, where objects are shaped as their types say and the owners are sound.
#[tactic(auto, using(crate::proofs::PlacesLemmas::places_lem))]
pub fn law_places()
    ensures { PlacesLaw }
{}
