//! The description of a board, as JSON (docs/PROFILE.md, descriptions): told of its objects, its rings,
//! and whether a removal is pending. No call changes the heap. The error of each call is want of memory.
#![tactic(auto)]

mod clocks;
mod describing;
mod devices;
mod entries;
mod given;
mod links;
mod objects;
mod parts;
mod rings;

pub use describing::describe;
