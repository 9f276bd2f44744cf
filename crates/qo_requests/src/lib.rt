//! The messages of a session, read into requests (QMP specification, 2.3 "Issuing Commands"; which
//! commands there are and what they take is the profile's).
#![tactic(auto)]

mod argument_values;
mod arguments;
mod building;
mod calls;
mod commands;
mod fields;
mod members;
mod messages;
mod requests;
mod values;

pub use calls::{Addition, Alteration, Call, Change, Query};
pub use commands::Command;
pub use fields::Field;
pub use messages::read;
pub use requests::{Parsed, ReadError, Request};
