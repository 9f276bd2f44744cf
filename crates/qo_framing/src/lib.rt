//! Framing: the items of a byte stream, in whatever pieces it comes.
//!
//! A session sends objects; what else comes between them is junk. A framer cuts the stream into
//! items, and keeps what is unfinished until more comes.
#![tactic(auto)]

mod bytes;
mod framer;
mod items;
pub mod laws;
mod parts;
mod scanner;

pub use framer::Framer;
pub use items::{Item, ObjectBytes};
