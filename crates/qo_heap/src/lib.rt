//! The objects of the tree, each under a name that is never given twice, with the log of notes: how
//! objects are made, read, changed and ended (docs/devel/qom.rst, "The QEMU Object Model"). Nothing
//! is finalized here: `qo_life` does this over these calls.
#![tactic(auto)]

mod bodies;
mod devices;
mod ends;
mod entries;
mod errors;
mod heap;
pub mod laws;
mod links;
mod new_slots;
mod notes;
mod reads;
mod room;
mod slots;
mod table;
#[cfg(test)]
mod tests;
mod tree;
mod weak_ends;
mod weak_links;
mod weak_lists;
mod weak_owners;
mod weak_slots;

pub use ends::free_kept;
pub use errors::{MakeError, SlotError};
pub use heap::Heap;
pub use new_slots::NewSlots;
pub use qo_object::{Oid, Side, Slot, SlotName, SlotView, Work};
pub use qo_slots::{Key, Steps};
pub use reads::Summary;
