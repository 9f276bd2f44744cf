//! Tests of values, and of the parts of a board that stand by themselves: rings, claims, events, notices, registers. They
//! say what no clause of those crates says: values that were written by hand, and that each call succeeds with ample
//! memory. They stand in a crate of their own since a crate with tests is proved twice, with them and without.
#![tactic(auto)]

#[cfg(test)]
mod chardev;
#[cfg(test)]
mod claims;
#[cfg(test)]
mod dimm;
#[cfg(test)]
mod events;
#[cfg(test)]
mod hotplug;
#[cfg(test)]
mod rings;
#[cfg(test)]
mod timer;
#[cfg(test)]
mod uart;
#[cfg(test)]
mod values;
