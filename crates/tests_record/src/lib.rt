//! Tests of recorded streams. They say what no clause says: streams that were written by hand, with where their
//! reading stops. They stand in a crate of their own since a crate with tests is proved twice, with them and without.
#![tactic(auto)]

#[cfg(test)]
mod record;
