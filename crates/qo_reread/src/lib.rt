//! That the description of a board is read back from its text. A function without effect, whose contract
//! says so. The definitions stand in `specs/`.
#![tactic(auto)]

ghost use Rattle.qo_reread.specs.Reread.{RereadLaw};

/// On a sound board in order, whose values are told as they are, the description of the board is read
/// back from its text.
#[tactic(auto, using(crate::proofs::RereadLemmas::reread_lem))]
pub fn law_reread()
    ensures { RereadLaw }
{}
