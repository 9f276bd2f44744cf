//! The lines that a guest sends, read into acts, and the texts that answer them.
#![tactic(auto)]

mod addresses;
mod answers;
pub mod laws;
mod lines;
mod words;

pub use addresses::{Addr, SlotPath};
pub use answers::{GuestAnswer, answer_text};
pub use lines::{GuestAct, GuestBad, read_line};
