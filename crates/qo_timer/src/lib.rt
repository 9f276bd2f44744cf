//! The body of a timer: its registers as a guest reads and writes them, its reset phases, and what its
//! clock's callbacks do to it.
#![tactic(auto)]

pub mod laws;
mod timer;

pub use timer::Timer;
