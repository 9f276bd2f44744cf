//! What is told of a board's notes, and what it says of the board. Functions without effect, whose
//! contracts say so. The definitions stand in `specs/`.
#![tactic(auto)]

ghost use Rattle.qo_told.specs.FewNotes.{FewNotesLaw};
ghost use Rattle.qo_told.specs.MirrorSays.{MirrorLaw};

/// On a board whose notes are in order, whose owners are sound, and which has no object of an abstract
/// type, a mirror of the notes tells exactly the objects that are there, of those that were made after
/// the machine began: each has an init note, and no final note.
#[tactic(auto, using(crate::proofs::MirrorLemmas::mirror_lem))]
pub fn law_mirror()
    ensures { MirrorLaw }
{}

/// Each change of a board that is sound as far as devices and clocks go notes at most four things for
/// each object that was there before it, and 22 more: each command on objects, a device that is added,
/// refused at any stage or cut, a removal that is asked for or refused, a device that is detached, holds
/// and resets, the reset of the whole board with all the removals that come to their end in it, and a
/// write of a clock's numbers. So where there are not too many objects it notes no more than is kept.
#[tactic(auto, using(crate::proofs::FewNotesLemmas::few_notes_lem))]
pub fn law_few()
    ensures { FewNotesLaw }
{}
