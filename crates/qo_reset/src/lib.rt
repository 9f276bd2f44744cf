//! Three-phase reset over the objects of a heap: holds on objects, and the phases that all below an
//! object go through (docs/devel/reset.rst, "Triggering reset" and "Multi-phase mechanism").
//!
//! How many holds there are on an object and above it is kept beside the object on the heap: a call
//! that changes what is held puts it right, and one that asks for it takes one look.
#![tactic(auto)]

mod counts;
mod errors;
mod phases;
mod reach;
mod resets;
mod tallies;
mod turns;

pub use errors::HoldError;
pub use resets::Resets;
