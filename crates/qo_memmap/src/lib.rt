//! Memory regions with priorities and aliases, and the flat view of one: which leaf stands at each of
//! its addresses.
#![tactic(auto)]

mod errors;
mod flat;
mod join;
pub mod laws;
mod map;
mod merge;
mod region;
mod span;
mod window;

pub use errors::MapError;
pub use map::{MAX_RANK, MAX_REGIONS, Map};
pub use region::{ADDRESS_LIMIT, Kind, Place, Region};
pub use span::{Span, find};
