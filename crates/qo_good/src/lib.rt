//! Which descriptions are good: those of which a board is rebuilt without a refusal. A function without
//! effect, whose contract says whose descriptions are so. The definitions stand in `specs/`.
#![tactic(auto)]

ghost use Rattle.qo_good.specs.GoodBoards.{GoodLaw};

/// The description of a sound board in order, where it has one, is good.
#[tactic(auto, using(crate::proofs::GoodLemmas::good_lem))]
pub fn law_good()
    ensures { GoodLaw }
{}
