//! How listeners are told the new notes of a board.
#![tactic(auto)]

mod telling;

pub use telling::tell_new;
