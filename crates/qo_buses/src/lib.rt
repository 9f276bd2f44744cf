//! Devices on their buses (include/hw/qdev-core.h): what is read of them, and how a device joins a
//! bus and leaves it. Of their back ends: the ring of a UART, and the memory of a DIMM, its size and
//! the range of addresses where it goes beside those that are held (docs/PROFILE.md). No call takes
//! memory but those that make names, and `join_bus`.
#![tactic(auto)]

mod addresses;
mod buses;
mod devices;
mod dimms;
mod joining;
mod kids;
mod leaving;
mod names;
mod placing;
mod rings;
mod slots;
mod writing;

pub use addresses::by_address;
pub use buses::{bridge_of, bus_above, bus_in_slot, depth, first_bus, is_going};
pub use devices::{bus_of, bus_slot_of, clock_of, is_of, is_realized};
pub use dimms::{range_for, size_of};
pub use joining::{join_bus, point_bus};
pub use kids::{first_kid, kid_at, kid_in_slot};
pub use leaving::{leave, leave_parent, let_go_bus};
pub use names::{anonymous_name, kid_name};
pub use rings::claimed_ring;
pub use slots::{child_at, number_at, plain_at, strong_at, text_at};
pub use writing::{point_named, set_named};
