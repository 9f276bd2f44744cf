//! Objects of the heap by path and by birth, their properties, and users' objects
//! (docs/devel/qom.rst, "The QEMU Object Model"; QEMU's QAPI, `qom-list`, `qom-get`, `qom-set`,
//! `object-add`, `object-del`).
#![tactic(auto)]

mod adding;
mod reading;
mod refusals;
mod writing;

pub use adding::checks::{Admitted, check_object};
pub use adding::failed_add::{failed_add, objects_in};
pub use adding::filling::{InitialValue, is_stored, take_value};
pub use adding::fresh::{add_value, name_of, set_default_slots};
pub use adding::objects::{add_object, make_child};
pub use adding::planned::planned_for;
pub use adding::planning::plan;
pub use adding::start::make_all;
pub use reading::detached::detached_list;
pub use reading::listing::property_at;
pub use reading::lookup::{child_place, object_of, place_named};
pub use reading::naming::{object_at, path_text, target_text};
pub use reading::values::{copy_of, get};
pub use refusals::Refusal;
pub use writing::removing::remove;
pub use writing::severing::sever;
pub use writing::writes::{link_target, set};
