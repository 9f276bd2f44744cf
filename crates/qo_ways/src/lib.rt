//! Where the canonical paths of a board lead. A function without effect, whose contract says so. The
//! definitions stand in `specs/`.
#![tactic(auto)]

ghost use Rattle.qo_ways.specs.Ways.{WaysLaw};

/// On a board whose tree is sound, and on which the name of each child is one step of a path, the steps
/// down to an object lead to it. On a sound board in order the name of each child is one step, and so the
/// canonical path of an object resolves to it, and to nothing else.
#[tactic(auto, using(crate::proofs::WaysLawLemmas::ways_lem))]
pub fn law_leads_back()
    ensures { WaysLaw }
{}
