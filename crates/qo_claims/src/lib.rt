//! Claims: what a device holds for itself alone (its id, its slot, its ring, its memory backend, its
//! range of addresses), and the place of a range that names no address.
//!
//! A claim that was taken can't be lost: it is spent by giving it back, or kept and freed later.
#![tactic(auto)]

mod births;
mod claims;
mod errors;
mod ids;
pub mod laws;
mod placing;
mod ranges;
mod slots;

pub use claims::{Claim, Claims, Kept, keep};
pub use errors::ClaimError;
pub use qo_values::Range;
pub use ranges::{end, overlap};
