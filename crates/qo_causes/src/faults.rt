//! What a call at the outside answers when it can't do its work.
use thiserror::Error;

/// A call of the outside failed. It comes only where the count of faults rose.
#[derive(Clone, Copy, Debug, PartialEq, Eq, Error)]
#[error("a call of the outside failed")]
pub struct Failed;
