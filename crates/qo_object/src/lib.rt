//! One object of the tree, by itself: its type, its slots by name in the order of adding, and how
//! often it is pinned. What stands in the slots of other objects, and whether an object that is
//! named is there, is the table's to know, which keeps these objects.
#![tactic(auto)]

mod devices;
mod errors;
mod index;
mod names;
mod objects;
mod room;
mod slot_map;
mod slots;

pub use devices::DeviceId;
pub use errors::AddError;
pub use names::SlotName;
pub use objects::{FinalizedParts, Object};
pub use qo_slots::Key as Oid;
pub use room::{Side, Work};
pub use slots::{Slot, SlotView};
