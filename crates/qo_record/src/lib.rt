//! Recorded streams: how their entries are spelled and read, and the hub over a source and a sink.
#![tactic(auto)]

mod demos;
mod entries;
pub mod laws;
mod lines;
mod names;
mod readers;
mod reading;
mod replay_hub;
mod versions;
mod waiting;
mod windows;

pub use demos::demo_record;
pub use reading::with_digit;
pub use replay_hub::{ReplayHub, Unmade};
pub use windows::AHEAD_BYTES;
