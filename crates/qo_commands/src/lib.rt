//! What sessions and the guest do to the board. Commands: what each returns, what it changes, and the
//! code that refuses it. The lines of the guest: where each ends, what it does, and what it is answered
//! (docs/PROFILE.md, commands and guest lines; include/hw/hotplug.h, what a guest does of hotplug).
#![tactic(auto)]

mod answers;
mod changes;
mod commands;
mod descriptions;
mod detached;
mod hearing;
mod integer_json;
mod interrupts;
mod kept_views;
pub mod laws;
mod lines;
mod listings;
mod memmap;
mod memory;
mod monitor;
mod notes;
mod query_commands;
mod rings;
mod touched;
mod types;
mod values;

pub use answers::{answer_written, time_written};
pub use changes::change;
pub use commands::{Done, ReplyBody, ask};
pub use descriptions::board_value;
pub use hearing::{Heard, hear};
pub use integer_json::IntegerJson;
pub use interrupts::{interrupt_lines, refresh_lines, settle_lines};
pub use kept_views::no_view;
pub use lines::{cut_lines, without_return};
pub use listings::listing_text;
pub use monitor::{refusal_line, tell_buses, tell_tree, tell_unreadable};
pub use touched::Touched;
