//! What the groups of facts by which a board is sound speak of, and that they speak of nothing else.
//! A function without effect, whose contract says so. The definitions stand in `specs/`.
#![tactic(auto)]

ghost use Rattle.qo_sound_frames.specs.Frames.{FramesLaw};

/// Two boards that agree in what a group of facts speaks of agree in the group: where devices stand and
/// what clocks go by in the objects but for their registers, the moments of timers in the registers and
/// the time, what devices claim in the objects and the ids of rings, and so on for each group.
#[tactic(auto, using(crate::proofs::FrameLemmas::frames_lem))]
pub fn law_frame()
    ensures { FramesLaw }
{}
