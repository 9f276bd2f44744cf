//! The outside of the machine, with the causes of its faults: where bytes come from, where they go, and
//! the hub that gives inputs and takes messages. A fault comes only where a count rose.
#![tactic(auto)]

mod byte_sink;
mod byte_source;
mod edge;
mod faults;
mod hubs;
mod inputs;
pub mod laws;
mod script_hub;
mod shelves;
mod sinks;
mod sources;
mod void_sink;

pub use byte_sink::ByteSink;
pub use byte_source::ByteSource;
pub use edge::{StdSink, StdSource};
pub use faults::Failed;
pub use hubs::{Hub, Lane, NextError, SendError};
pub use inputs::{Chunk, Input, Moment, What};
pub use script_hub::ScriptHub;
pub use sinks::{Sink, put_all};
pub use sources::Source;
pub use void_sink::VoidSink;
