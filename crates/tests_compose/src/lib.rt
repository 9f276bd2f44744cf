//! Tests of the top call. They say what no clause says: which words it takes, its statuses and lines of complaint, each
//! failing take, put, next and send in turn, in texts that were written by hand. They stand in a crate of their own since
//! a crate with tests is proved twice, with them and without.
#![tactic(auto)]

#[cfg(test)]
mod calling;
#[cfg(test)]
mod calls;
#[cfg(test)]
mod readme;
#[cfg(test)]
mod rebuilds;
#[cfg(test)]
mod words;
