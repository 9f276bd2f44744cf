//! The slots of an arena, and not those of objects: values under keys that are never reused, and the
//! counter of the looks into it.
//!
//! Whoever holds a key reaches its value in one step, and each such step is counted.
#![tactic(auto)]

mod counting;
mod keys;
mod stored;
mod table;
mod walk;

pub use counting::Steps;
pub use keys::Key;
pub use table::Arena;
pub use walk::Rest;
