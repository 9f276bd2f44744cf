//! What the guest is told of devices, and the removals that are asked for.
#![tactic(auto)]

mod errors;
mod hotplug;
mod notices;
mod removals;

pub use errors::{AskError, NotPending, NoticesFull};
pub use hotplug::Hotplug;
pub use notices::Notice;
pub use removals::Removal;
