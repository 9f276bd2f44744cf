//! Listeners, which are told every note of a run.
#![tactic(auto)]

mod listener;
mod listeners;
mod mirror;
mod tape;

pub use listener::Listener;
pub use listeners::Listeners;
pub use mirror::Mirror;
pub use tape::Tape;
