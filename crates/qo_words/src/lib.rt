//! The words after the program's name: which order they are. A reader of this crate's own decides that exactly, and
//! `clap` reads the values.
#![tactic(auto)]

mod values;
mod words;

pub use words::{Order, order_in};
