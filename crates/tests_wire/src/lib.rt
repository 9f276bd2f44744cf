//! Tests of what comes and goes: bytes, items, requests, the lines of the guest, clients on a socket.
//! They say what no clause of those crates says: texts that were written by hand, that each call succeeds with ample
//! memory, and what the system does. They stand in a crate of their own since a crate with tests is proved twice, with
//! them and without.
#![tactic(auto)]

#[cfg(test)]
mod causes;
#[cfg(test)]
mod framing;
#[cfg(test)]
mod guest;
#[cfg(test)]
mod json_values;
#[cfg(test)]
mod requests;
#[cfg(test)]
mod unix;
