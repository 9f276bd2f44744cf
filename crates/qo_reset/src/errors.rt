//! The error of this crate's calls.

use thiserror::Error;

/// Why an object was not held, or not let go.
#[derive(Clone, Copy, Debug, PartialEq, Eq, Error)]
pub enum HoldError {
    /// The object, or one below it, has more holds on it and above it than `HOLD_COUNT_MAX`.
    #[error("too many holds")]
    Depth,
    /// There is no hold on the object.
    #[error("not held")]
    NoHold,
}
