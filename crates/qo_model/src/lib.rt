//! The definitions of the object tree: types, the board, references, paths, and when a board is
//! sound. `specs/` has the definitions; the module `laws` states what follows from them.
#![tactic(auto)]

mod detached;
pub mod laws;
mod notes;
mod properties;

pub use detached::Detached;
pub use notes::{Deed, Note};
pub use properties::{Access, First, Interface, Property, PropertyName, PropertyRole};
