//! The soundness of a board's backends: its rings of characters, and what its realized devices claim
//! of rings, of memory and of addresses. Functions without effect, whose contracts say what keeps it
//! so. The definitions stand in `specs/`.
#![tactic(auto)]

ghost use Rattle.qo_sound_claims.specs.ClaimsKept.{ClaimsKeptLaw};
ghost use Rattle.qo_sound_claims.specs.ClaimsStay.{ClaimsStayLaw};

/// Each realized UART names a ring that is there, or none, and no two name the same. Each realized DIMM
/// stands on a range of the window, at its address and as long as its memory backend; no two stand on
/// one backend, and no two ranges overlap. The ids of rings differ, each has a size that the profile
/// allows, and holds no more bytes. So it is on the opening board, after what changes neither objects
/// nor rings, and after a ring that is added under a new id, that is removed while no realized UART
/// names it, or that gets other bytes. Where devices, the tree and the lists are sound too, it is so
/// after a guest's write to a register, acts and holds, a write of a clock, each command on objects, a
/// device that is added or refused at any stage, one that is detached, and the reset of the whole board.
#[tactic(auto, using(crate::proofs::LawLemmas::claims_kept_lem))]
pub fn law_claims_kept()
    ensures { ClaimsKeptLaw }
{}

/// Whoever is realized after one of these changes was realized before it, and claims what it claimed by
/// its slots and its registers: its slot on its bus, the ring that it names, of a DIMM its memory
/// backend, and its range. Where nothing is detached, who was realized stays so. A device that is added
/// claims what it was given.
#[tactic(auto, using(crate::proofs::StayLawLemmas::claims_stay_lem))]
pub fn law_claims_stay()
    ensures { ClaimsStayLaw }
{}
