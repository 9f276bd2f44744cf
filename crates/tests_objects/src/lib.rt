//! Tests of the crates from the slots of the table up to the objects of the heap, with their paths, properties,
//! clocks and resets. They say what no clause says: that each call succeeds with ample memory, and numbers and texts
//! that were written by hand. They stand in a crate of their own since a crate with tests is proved twice, with them
//! and without.
#![tactic(auto)]

#[cfg(test)]
mod clocks;
#[cfg(test)]
mod heap;
#[cfg(test)]
mod life;
#[cfg(test)]
mod model;
#[cfg(test)]
mod names;
#[cfg(test)]
mod notes;
#[cfg(test)]
mod object;
#[cfg(test)]
mod paths;
#[cfg(test)]
mod properties;
#[cfg(test)]
mod reset;
#[cfg(test)]
mod slots;
#[cfg(test)]
mod types;
