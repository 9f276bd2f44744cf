//! Descriptions of boards, and how they are read of their texts (docs/PROFILE.md, descriptions). No call
//! knows of a board.
#![tactic(auto)]

mod clocks;
mod devices;
mod errors;
mod items;
mod links;
mod lists;
mod members;
mod objects;
mod props;
mod reading;
mod rings;

pub use errors::ShapeError;
pub use items::{ClockItem, ClockNumbers, Description, DeviceItem, LinkItem, ObjectItem, RingItem};
pub use reading::{description_in, read_description};
