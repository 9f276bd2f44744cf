//! Laws over every change of a board.

ghost use Rattle.qo_steps.specs.Changes.{RunsLaw};
ghost use Rattle.qo_steps.specs.Gains.{GainsLaw};

/// Each change of a board is a run of elementary steps, on every board: an object is made, ends, acts or
/// is called back; a slot of one is added, filled, emptied or removed; or one of the lists beside the
/// objects changes. Each step is taken where what is said of it holds. There is room for an object that
/// is made, and it is of a type that the change makes; nothing refers to one that ends; a slot that
/// changes is there; a link is pointed at what is of its type; an attempt leaves notes of births that
/// come next alone. On a board that is sound as far as devices go, whoever acts or is held is there.
#[tactic(auto, using(crate::proofs::StepsLawLemmas::runs_lem))]
pub fn law_runs()
    ensures { RunsLaw }
{}

/// Through each change of a board, births and accepted adds without an id are not fewer, what was noted
/// stays, and what is noted comes after it. The same is so of the events. No birth is given twice: who is
/// there after it and was born before was there before, as an object of the same type. The time, the
/// rings, and whether the machine runs are as before.
#[tactic(auto, using(crate::proofs::GainsLemmas::gains_lem))]
pub fn law_gains()
    ensures { GainsLaw }
{}
