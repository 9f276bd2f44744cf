//! What of a board a command or a line of the guest touches that interrupt lines hang on.

/// What a command or a line of the guest touched that interrupt lines hang on.
#[derive(Clone, Copy, Debug, PartialEq, Eq)]
pub enum Touched {
    /// No object, and not the time.
    Nothing,
    /// Registers, the time, or objects that are no devices: the same devices stand below the buses.
    Registers,
    /// Devices, which may have come or gone.
    Devices,
}
