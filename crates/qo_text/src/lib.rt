//! The text monitor (QEMU's hmp-commands.hx, hmp-commands-info.hx): the commands that its lines stand
//! for, and what it tells of the tree of objects and of the buses. No call changes the heap.
#![tactic(auto)]

mod buses;
pub mod laws;
mod lines;
mod numbers;
mod options;
mod rows;
mod trees;

pub use buses::bus_tree;
pub use lines::{Line, line_request};
pub use trees::qom_tree;
