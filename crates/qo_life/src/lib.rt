//! The life of the objects of the tree, from birth to release: how they are made, with their
//! initializers base first, and how they are released, with what nothing refers to any more
//! (docs/devel/qom.rst, "The QEMU Object Model").
#![tactic(auto)]

mod birth;
mod release;

pub use birth::create;
pub use release::{drop_hold, drop_pin, let_go};
