//! The memory map of a board (docs/devel/memory.rst; the addresses are the profile's): which regions the
//! buses and devices of a board have, and where they stand in one another. `memory_map` makes it from the
//! board's heap.
//!
//! The interrupt lines of a board (hw/core/irq.c; which device asks for attention is the profile's): a net
//! with a line for each object that has a region. `Lines` makes it from the board's heap.
//!
//! The definitions stand in `specs/`, and what is so of them in `laws`.
#![tactic(auto)]

mod addresses;
mod inputs;
mod kept;
pub mod laws;
mod lines;
mod maps;
mod numbering;
mod places;
mod regions;
mod registers;
mod rows;
mod slots;
mod views;
mod wiring;

pub use addresses::{
    BOOT_LEAF, BOOT_SIZE, DEVICE_REGISTERS, DEVICE_SIZE, LOW_SIZE, MEMORY_AT, MEMORY_SIZE,
    ROOT_SIZE, SLOTS_AT,
};
pub use kept::KeptView;
pub use lines::Lines;
pub use maps::{BoardMap, memory_map};
pub use views::{REGISTER_SIZE, RegisterPlace, flat_view};
pub use wiring::{Row, Wiring};
