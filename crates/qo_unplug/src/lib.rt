//! How a device is unplugged: it is unrealized, with all that is below it, and let go
//! (include/hw/qdev-core.h, "Realization" and `unparent`; include/hw/hotplug.h; the order is the
//! profile's, docs/PROFILE.md). No call takes memory, and none fails.
#![tactic(auto)]

mod claims;
mod detaching;
mod ending;
mod unparenting;
mod unrealizing;

pub use detaching::detach;
