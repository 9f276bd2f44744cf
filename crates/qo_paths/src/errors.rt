//! The error of this crate's calls.

use thiserror::Error;

/// Why a path leads to no object.
#[derive(Clone, Copy, Debug, PartialEq, Eq, Error)]
pub enum PathError {
    /// It leads to no object of the wanted type.
    #[error("path not found")]
    NotFound,
    /// It is partial, and leads to such an object from more than one attached object.
    #[error("path ambiguous")]
    Ambiguous,
}
