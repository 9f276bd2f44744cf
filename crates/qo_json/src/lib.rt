//! JSON values whose texts stand in the text that they were read from (RFC 8259).
#![tactic(auto)]

mod borrowing;
mod errors;
mod members;
mod numbers;
mod reading;
mod values;

pub use errors::JsonError;
pub use members::NAMES_MAX;
pub use values::Json;
