//! Worked sessions over whole recorded streams, byte for byte through the top call. Expected texts are written out by
//! hand. They stand in a crate of their own since a crate with tests is proved twice, with them and without.
#![tactic(auto)]

#[cfg(test)]
mod guests;
#[cfg(test)]
mod objects;
#[cfg(test)]
mod replaying;
#[cfg(test)]
mod streams;
#[cfg(test)]
mod watches;
