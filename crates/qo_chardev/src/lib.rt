//! Rings of bytes, which keep the last bytes added, and the rings of a board by their ids: the back
//! ends of its UARTs.
#![tactic(auto)]

mod errors;
pub mod laws;
mod named_ring;
mod parts;
mod ring;
mod rings;
mod texts;

pub use errors::{RingAddError, RingTakeError};
pub use ring::{AddError, Ring, RingError, TakeError};
pub use rings::{RING_SIZE_DEFAULT, Rings};
