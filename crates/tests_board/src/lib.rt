//! Tests of the calls of the board: on objects, on devices that are added in stages, of its memory map and
//! its interrupt lines, and of what the text monitor tells of it. They say what no clause says:
//! that each of these succeeds with ample memory. They stand in a crate of their own since a crate with tests is proved
//! twice, with them and without.
#![tactic(auto)]

#[cfg(test)]
mod layout;
#[cfg(test)]
mod lines;
#[cfg(test)]
mod monitor;
#[cfg(test)]
mod realize;
#[cfg(test)]
mod stages;
