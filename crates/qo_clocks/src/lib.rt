//! The clock tree over the objects of a heap: the period of a clock, which clock it goes by, how a
//! frequency is told as a period, and how a clock is written (docs/devel/clocks.rst, "The clock
//! state", "Connecting two clocks together", "Clock multiplier and divider settings" and "Changing a
//! clock period"). A period is in units of 2^-32 ns; a clock of period 0 stands still. No call takes
//! memory.
//!
//! Beside each clock its period is kept, and that of the clocks that go by it: a read is one look, and
//! a write goes over the clocks below whose period changes, and over no other object.
#![tactic(auto)]

mod errors;
mod feeding;
mod kept;
mod links;
mod periods;
mod reads;
mod spread;
mod writes;

pub use errors::ClockError;
pub use links::{connect, disconnect};
pub use periods::{device_period, period, period_of_hz};
pub use reads::{div, mul, source_of};
pub use writes::{set, set_mul_div};
