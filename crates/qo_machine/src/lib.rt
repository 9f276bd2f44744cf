//! The machine: what one input does, and runs of inputs from a hub.
#![tactic(auto)]

pub mod laws;
mod machines;
mod outs;
mod replying;
mod running;
mod serving;
mod telling;

pub use machines::Machine;
pub use outs::Outs;
pub use running::{Ending, run, run_told};
