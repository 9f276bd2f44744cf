//! Interrupt lines: inputs that are set from outside, and gates over lower lines, with the level of
//! each line kept.
#![tactic(auto)]

mod connect;
mod dependants;
mod errors;
mod gate;
pub mod laws;
mod net;
mod spread;

pub use errors::NetError;
pub use gate::Gate;
pub use net::{MAX_LINES, Net};
