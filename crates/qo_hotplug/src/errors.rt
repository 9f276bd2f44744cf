//! Why the guest is not told.

use thiserror::Error;

/// As many notices wait for the guest as may (`NOTICES_MAX`).
#[derive(Clone, Copy, Debug, PartialEq, Eq, Error)]
#[error("notices full")]
pub struct NoticesFull;

/// Why a removal is not asked for.
#[derive(Clone, Copy, Debug, PartialEq, Eq, Error)]
pub enum AskError {
    /// It is pending, and was asked for a short while ago.
    #[error("removal pending")]
    Pending,
    /// As many notices wait for the guest as may.
    #[error("notices full")]
    NoticesFull,
}

/// No removal of the device is pending.
#[derive(Clone, Copy, Debug, PartialEq, Eq, Error)]
#[error("no removal pending")]
pub struct NotPending;
