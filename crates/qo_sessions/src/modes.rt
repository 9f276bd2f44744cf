//! The modes of a session.

/// What a session may ask for (QMP specification, 4 "Capabilities Negotiation").
#[derive(Clone, Copy, Debug, PartialEq, Eq)]
pub enum Mode {
    /// It was greeted, and has to negotiate before anything else.
    Negotiating,
    /// It has negotiated, and gives commands.
    Commanding,
    /// It is not open.
    Closed,
}
