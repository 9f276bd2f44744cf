//! Adding a device: its objects are made, it is plugged into its bus, realized and reset, or the
//! attempt is given up with nothing left but its births and notes (include/hw/qdev-core.h,
//! "Realization"; include/hw/hotplug.h). How it takes its place in a container and on a bus: what it
//! claims, how it joins them, and what it has there (include/hw/mem/memory-device.h).
#![tactic(auto)]

mod adding;
mod beginning;
mod checks;
mod claiming;
mod drafting;
mod failed_add;
mod failed_plug;
mod finishing;
mod options;
mod placing;
mod planning;
mod pre_plug;
mod refusals;
mod resources;
mod standing;
mod starting;
mod targets;

pub use adding::{Added, add};
pub use beginning::{NewDevice, abandon, begin};
pub use checks::{device_kind, open_bus, room, vacant};
pub use drafting::{give_up, make_device};
pub use finishing::finish;
pub use options::DeviceOptions;
pub use placing::{AttachedDevice, Plugging, place};
pub use planning::Planned;
pub use refusals::{AddRefusal, Barred};
pub use resources::{Memory, Resources};
pub use standing::{Attachment, DevicePath, stand};
pub use starting::start;
pub use targets::{ContainerSlot, Target, check_options};
