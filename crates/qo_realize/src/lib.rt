//! The board, whose devices are realized and unrealized here: the objects of the machine, from the
//! opening board on (docs/devel/qom.rst, "The QEMU Object Model"; the opening board is the profile's).
#![tactic(auto)]

mod board;
mod chardevs;
mod guests;
pub mod laws;
mod registers;
mod removals;
mod resets;
mod stages;
mod users;

pub use board::Board;
pub use stages::{Draft, NotAdded, Plugged};
