//! The bytes that were taken from a source and are not read yet.

ghost use Rattle.std.specs.Prelude.{◌≡◌, ◌≤◌, ◌<◌, ◌+◌, [], true, false, length, drop, take, IfOk, OnOk};
ghost use Rattle.qo_causes.specs.Cause.{HasCause};
ghost use Rattle.qo_record.specs.Replays.{ahead_of};
ghost use Rattle.qo_record.specs.declared.windows.TheConstants.{ROOM};
ghost use Rattle.qo_record.specs.Windows.{Filled, TakesAfter, between};

use qo_causes::{Failed, Source};
use std::alloc::{AllocError, Global};
use std::marker::Model;

/// A hub over a source holds fewer bytes than these of what is ahead: an entry that ends so many bytes or more before
/// the last that was taken has been given. No entry has so many.
pub const AHEAD_BYTES: usize = 65_700;

/// The bytes that a window has room for.
pub(crate) const ROOM: usize = 65_699;

/// Bytes taken from a source, in a buffer of fixed length. Contracts see those that are held.
#[derive(Drop)]
pub(crate) struct Window {
    buffer: Vec<u8>,
    // The held bytes are those from `at` to `end`.
    at: usize,
    end: usize,
}

impl Model for Window {
    ghost use Rattle.std.specs.Prelude.{ℕ, List, ◌≡◌, ◌≤◌, length};
    ghost use Rattle.qo_record.specs.Windows.{between};
    ghost use Rattle.qo_record.specs.declared.windows.TheConstants.{ROOM};

    ghost Value = { List ℕ };

    ghost view = { λ w. between w.buffer.items w.at w.end };

    ghost invariant = { λ w. (w.at ≤ w.end) × (w.end ≤ ROOM) × (length w.buffer.items ≡ ROOM) };
}

/// Moves the held bytes to the front where nothing is free after them, and gives their places.
fn make_room(buffer: &mut Vec<u8>, at: usize, end: usize) -> (usize, usize)
    requires order { at ≤ end }
    requires within { end ≤ ROOM }
    requires size { length buffer.old.items ≡ ROOM }
    ensures size { length buffer.new.items ≡ ROOM }
    ensures same { between buffer.new.items result.0 result.1 ≡ between buffer.old.items at end }
    ensures order { result.0 ≤ result.1 }
    ensures within { result.1 ≤ ROOM }
    ensures room { length (between buffer.old.items at end) < ROOM → result.1 < ROOM }
{
    if end < ROOM {
        return (at, end);
    }
    buffer.copy_within(at..end, 0);
    (0, end - at)
}

/// Takes bytes from a source, once, into the places of a buffer from one on, and answers how many these were.
fn take_after<S: Source>(buffer: &mut [u8], end: usize, source: &mut S) -> Result<usize, Failed>
    requires { end ≤ length buffer.old }
    ensures size { length buffer.new ≡ length buffer.old }
    ensures front { take end buffer.new ≡ take end buffer.old }
    ensures bound { IfOk result (λ n. end + n ≤ length buffer.new) }
    ensures bytes { TakesAfter (S.left source.old) (S.left source.new) result buffer.new end }
    ensures cause { HasCause (S.faults source.old) (S.faults source.new) result }
    ensures quiet { OnOk result (S.faults source.new ≡ S.faults source.old) }
{
    source.take(&mut buffer[end..])
}

impl Window {
    /// A window that holds nothing. All memory that it takes is taken here.
    pub(crate) fn new(alloc: Global) -> Result<Window, AllocError>
        ensures { IfOk result (λ window. window ≡ []) }
    {
        Ok(Window {
            buffer: vec![in alloc; 0u8; ROOM]?,
            at: 0,
            end: 0,
        })
    }

    /// The bytes that are buffered.
    pub(crate) fn buffered(&self) -> &[u8]
        ensures value { result.now ≡ self.now }
        ensures few { length self.now ≤ ROOM }
    {
        &self.buffer[self.at..self.end]
    }

    /// Whether there is no room for a further byte.
    pub(crate) fn is_full(&self) -> bool
        ensures yes { result ≡ true → length self.now ≡ ROOM }
        ensures no { result ≡ false → length self.now < ROOM }
    {
        self.end - self.at == ROOM
    }

    /// Lets go of bytes at the front.
    pub(crate) fn let_go(&mut self, count: usize)
        requires { count ≤ length self.old }
        ensures { self.new ≡ drop count self.old }
    {
        self.at += count;
    }

    /// Takes bytes from a source, once, as many as there is room for, and answers how many these were. Where
    /// nothing is free after the held bytes, these are moved to the front before.
    pub(crate) fn fill<S: Source>(&mut self, source: &mut S) -> Result<usize, Failed>
        requires { length self.old < ROOM }
        ensures ahead { ahead_of self.new (S.left source.new) ≡ ahead_of self.old (S.left source.old) }
        ensures few { length self.new ≤ ROOM }
        ensures filled { Filled self.old self.new (S.left source.new) result }
        ensures cause { HasCause (S.faults source.old) (S.faults source.new) result }
        ensures quiet { OnOk result (S.faults source.new ≡ S.faults source.old) }
    {
        let (at, end) = make_room(&mut self.buffer, self.at, self.end);
        self.at = at;
        self.end = end;
        let count = take_after(&mut self.buffer, end, source)?;
        self.end += count;
        Ok(count)
    }
}
