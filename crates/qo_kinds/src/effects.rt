//! What a write to a register does beside it.

/// What a write does beside the registers.
#[derive(Clone, Copy, Debug, PartialEq, Eq)]
pub enum Effect {
    /// Nothing.
    Nothing,
    /// A byte goes to the ring.
    Byte(u8),
    /// The bus of the bridge is pulsed.
    Pulse,
}
