//! Tests of the top call on what goes wrong outside, row by row: takes and puts that fail, a sink that takes one byte at
//! a time, records that are cut short, streams without an end, and a session that is lost. Expected texts are written
//! out by hand. They stand in a crate of their own since a crate with tests is proved twice, with them and without.
#![tactic(auto)]

#[cfg(test)]
mod cuts;
#[cfg(test)]
mod faults;
#[cfg(test)]
mod life;
#[cfg(test)]
mod losses;
#[cfg(test)]
mod replaying;
#[cfg(test)]
mod slow_sink;
#[cfg(test)]
mod streams;
