//! Paths through the tree (docs/devel/qom.rst, "The QEMU Object Model"): the canonical path of an
//! object, whether parents lead from it to `/`, and the object that an absolute or a partial path
//! leads to. No call changes the heap.
//!
//! The heap keeps the parent of each object, so a step of the way up is one look, and so is a step of
//! the way down.
#![tactic(auto)]

mod errors;
mod parts;
mod places;
mod resolving;
mod walks;
mod writing;

pub use errors::PathError;
pub use parts::is_absolute;
pub use places::is_attached;
pub use resolving::resolve;
pub use writing::canonical;
