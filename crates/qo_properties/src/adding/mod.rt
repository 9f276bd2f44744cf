//! What makes objects.

pub mod checks;
pub mod failed_add;
pub mod filling;
pub mod fresh;
pub mod objects;
pub mod planned;
pub mod planning;
pub mod start;
