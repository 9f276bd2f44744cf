//! What is read of the objects of a heap.

pub mod detached;
pub mod listing;
pub mod lookup;
pub mod naming;
pub mod values;
