//! The notes on objects: how many there were, and the last `NOTES_KEPT` of them, in a ring whose memory
//! is taken at the start. A note's number is how many there were before it.

ghost use Rattle.std.specs.Prelude.{◌≡◌, ◌++◌, take, drop, IfOk};

use crate::heap::Heap;
use circular_buffer::HeapCircularBuffer;
use qo_model::Note;
use qo_values::{NOTES_KEPT, NOTES_PER_REPLY};
use std::alloc::{AllocError, Global};

/// The notes of a buffer past the first `skip`, in two slices.
#[tactic(auto, using(crate::proofs::Parts::past_lem))]
fn past(buffer: &HeapCircularBuffer<Note>, skip: usize) -> (&[Note], &[Note])
    ensures { result.0.now ++ result.1.now ≡ drop skip buffer.now.items }
{
    let (front, back) = buffer.as_slices();
    let of_front = skip.min(front.len());
    let of_back = (skip - of_front).min(back.len());
    (&front[of_front..], &back[of_back..])
}

/// The first notes of two slices, at most `most`.
#[tactic(auto, using(crate::proofs::Parts::first_lem))]
fn first(alloc: Global, front: &[Note], back: &[Note], most: usize) -> Result<Vec<Note>, AllocError>
    ensures { IfOk result (λ notes. notes.items ≡ take most (front.now ++ back.now)) }
{
    let of_front = most.min(front.len());
    let of_back = (most - of_front).min(back.len());
    let mut notes = Vec::with_capacity(alloc, of_front + of_back)?;
    notes.extend_from_slice(&front[..of_front])?;
    notes.extend_from_slice(&back[..of_back])?;
    Ok(notes)
}

impl Heap {
    ghost use Rattle.qo_heap.specs.Log.{first_from, given_from};
    ghost use Rattle.qo_heap.specs.Objects.{with_note};

    /// Adds a note; where `NOTES_KEPT` are kept, the oldest goes. It takes no memory.
    #[inline(always)]
    pub(crate) fn note(&mut self, note: Note)
        ensures { self.new ≡ with_note note self.old }
    {
        self.notes.push_back(note);
        self.total = self.total.saturating_add(1);
    }

    /// How many notes there were; it stays at 2^64 - 1 once there.
    #[inline(always)]
    pub fn notes_total(&self) -> u64
        ensures { result ≡ self.now.log.total }
    {
        self.total
    }

    /// The number of the first note that a reading from a number gives.
    pub fn notes_first(&self, from: u64) -> u64
        ensures { result ≡ first_from from self.now.log }
    {
        from.max(self.total.saturating_sub(NOTES_KEPT))
            .min(self.total)
    }

    /// The notes that a reading from a number gives, at most `NOTES_PER_REPLY`. The error is want of memory.
    pub fn notes(&self, from: u64, alloc: Global) -> Result<Vec<Note>, AllocError>
        ensures { IfOk result (λ notes. notes.items ≡ given_from from self.now.log) }
    {
        let first_kept = self.total - self.notes.len() as u64;
        let skip = (self.notes_first(from) - first_kept) as usize;
        let (front, back) = past(&self.notes, skip);
        first(alloc, front, back, NOTES_PER_REPLY as usize)
    }
}
