//! Versions of recorded streams.

ghost use Rattle.std.specs.Prelude.{◌≡◌};
ghost use Rattle.qo_record.specs.Names.{header_of};

/// The version of a recorded stream, which its header tells.
#[derive(Clone, Copy, Debug, PartialEq, Eq)]
pub(crate) enum Version {
    /// An entry names its session by the number.
    One,
    /// An entry names its session by a name, with which it opens.
    Two,
}

/// How many bytes a header has.
pub(crate) const HEADER_SIZE: usize = 7;

/// The first line of a stream.
pub(crate) fn header_of(version: Version) -> &'static [u8]
    ensures { result.now ≡ header_of version }
{
    match version {
        Version::One => b"qrec 1\n",
        Version::Two => b"qrec 2\n",
    }
}
