//! What changes the objects that are there.

pub mod clocks;
pub mod removing;
pub mod severing;
pub mod writes;
