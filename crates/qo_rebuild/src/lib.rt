//! A board is rebuilt of its description, by the calls of the board (docs/PROFILE.md, descriptions).
#![tactic(auto)]

mod clocks;
mod devices;
mod errors;
mod links;
mod objects;
mod props;
mod rebuilding;
mod rings;

pub use errors::SaveError;
pub use rebuilding::{rebuild, rebuild_text};
