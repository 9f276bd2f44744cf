//! Sessions: their modes, the items of their bytes, and what each item comes to.
#![tactic(auto)]

mod acts;
mod modes;
mod sessions;

pub use acts::SessionAct;
pub use modes::Mode;
pub use sessions::Session;
