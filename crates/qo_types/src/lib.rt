//! The type hierarchy of the object model: which types there are, what each is, and the properties
//! that its objects have (docs/devel/qom.rst, "The QEMU Object Model"; the types and their
//! properties are the profile's).
#![tactic(auto)]

mod slots;
mod table;
mod types;

pub use table::TypeTable;
