//! Events on devices that wait to be told, with places for those that have to come: a device whose
//! path is kept has a place promised, so that its end takes no memory.
#![tactic(auto)]

mod device;
mod events;

pub use device::DeviceEvent;
pub use events::Events;
