//! The bytes of what a session is sent: JSON in ASCII, replies, events, the greeting.
#![tactic(auto)]

mod ascii;
mod events;
mod members;
mod properties;
mod quoted;
mod replies;
mod written;

pub use events::{Event, device_event_text, event_text};
pub use members::{number_member, text_member};
pub use properties::PropertyList;
pub use replies::{error_text, greeting, return_text, return_written, version};
pub use written::json_text;
