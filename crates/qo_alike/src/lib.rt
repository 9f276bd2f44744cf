//! What shows of a board, from its description alone. A function without effect, whose contract says so.
//! The definitions stand in `specs/`.
#![tactic(auto)]

ghost use Rattle.qo_alike.specs.AlikeBoards.{AlikeLaw};

/// What shows of the tree of a sound board in order, whose objects tell the names of their types, is what
/// its description says, where it has one. So two such boards of one description are alike.
#[tactic(auto, using(crate::proofs::AlikeLemmas::alike_lem))]
pub fn law_alike()
    ensures { AlikeLaw }
{}
