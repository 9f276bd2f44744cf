//! `compose`: a virtual board, driven by recorded streams.
#![tactic(auto)]

mod calls;
mod complaints;
mod counts;
mod demos;
mod memory_sink;
mod no_hub;
mod rebuilds;
mod replays;
mod serves;
mod statuses;
mod type_lines;
mod watches;
mod whole_sources;

pub use calls::compose;
pub use complaints::{no_order, out_of_memory};
pub use no_hub::NoHub;
pub use statuses::{Ran, Status};
pub use whole_sources::DESCRIPTION_MAX;
