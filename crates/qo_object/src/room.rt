//! Room in an object for what others keep of it, which is no part of the tree.

ghost use Rattle.std.specs.Prelude.{◌≡◌};
ghost use Rattle.qo_object.specs.Room.{no_side, no_work};

use qo_slots::Key;

/// What is kept of an object beside the tree, by those who reset and who clock it.
#[derive(Clone, Copy, Debug, PartialEq, Eq)]
pub struct Side {
    /// How many holds are on it or above it.
    pub count: u32,
    /// Marks for the phases of a reset that are to come.
    pub marks: u32,
    /// Of a clock, its period.
    pub period: u64,
    /// Of a clock, the period of those that go by it.
    pub child: u64,
}

/// The place of an object in the work of a release.
#[derive(Clone, Copy, Debug, PartialEq, Eq)]
pub struct Work {
    /// The object whose release goes on after this one's.
    pub next: Option<Key>,
    /// The place from which its slots are still to be let go.
    pub at: usize,
}

/// Nothing is kept.
pub(crate) fn side_at_first() -> Side
    ensures { result ≡ no_side }
{
    Side {
        count: 0,
        marks: 0,
        period: 0,
        child: 0,
    }
}

/// No work.
pub(crate) fn work_at_first() -> Work
    ensures { result ≡ no_work }
{
    Work { next: None, at: 0 }
}
