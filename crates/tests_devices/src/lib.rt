//! Tests of devices: on their buses, added, started and detached. They say what no clause says: that each
//! of these succeeds with ample memory. They stand in a crate of their own since a
//! crate with tests is proved twice, with them and without.
#![tactic(auto)]

#[cfg(test)]
mod backends;
#[cfg(test)]
mod buses;
#[cfg(test)]
mod plug;
#[cfg(test)]
mod plug_stood;
#[cfg(test)]
mod unplug;
