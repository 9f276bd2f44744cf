//! What an object of each kind has for its body: its device, whose registers acts change and a guest
//! reads and writes (docs/PROFILE.md, device registers), and the claims that it keeps. No call takes
//! memory.
#![tactic(auto)]

mod bodies;
mod bridge;
mod effects;
mod kept_set;

pub use bodies::{Body, Device};
pub use bridge::Bridge;
pub use effects::Effect;
pub use kept_set::{KeptSet, no_claim};
