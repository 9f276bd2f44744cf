//! The error of this crate's calls.

use thiserror::Error;

/// Why a clock was not written.
#[derive(Clone, Copy, Debug, PartialEq, Eq, Error)]
pub enum ClockError {
    /// The clock goes by another, so its period is not its own (docs/devel/clocks.rst, "Changing a
    /// clock period").
    #[error("the clock has a source")]
    HasSource,
    /// A clock cannot divide by 0 (docs/devel/clocks.rst, "Clock multiplier and divider settings").
    #[error("the divider is 0")]
    DividerZero,
    /// The period for the clocks that go by this one, or by one below it, would be more than 2^64 - 1
    /// units of 2^-32 ns (docs/devel/clocks.rst, "The clock state": a period is a number of 64 bits).
    #[error("a period does not fit in 64 bits")]
    Overflow,
}
