//! Tests of steps of the machine and of runs over a hub. They say what no clause says: that inputs are answered with ample
//! memory, and not by E99, and what is sent, in texts that were written by hand. They stand in a crate of their own since
//! a crate with tests is proved twice, with them and without.
#![tactic(auto)]

#[cfg(test)]
mod machine;
