//! The forms in which the bytes of a ring are told.

/// How bytes stand in a text.
#[derive(Clone, Copy, Debug, PartialEq, Eq)]
pub enum Form {
    /// As they are; told so, each is below 128.
    Utf8,
    /// In the standard Base64 with padding (RFC 4648, section 4).
    Base64,
}
