//! A hub over a Unix socket: the clients that connect, one after the other, are session 0.
#![tactic(auto)]

mod socket_file;
mod unix_hub;

pub use unix_hub::UnixHub;
