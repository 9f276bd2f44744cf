//! The ring: a queue of bytes that overwrites its oldest when it is full.

use crate::parts::{PART_BYTES, first_part, is_base64};
use crate::texts::{oldest, tell};
use circular_buffer::HeapCircularBuffer;
use qo_values::{Form, RING_SIZE_MAX, Text};
use std::alloc::{AllocError, Global};
use std::marker::Model;
use thiserror::Error;

/// The last bytes added, as many as its size, less those taken.
#[derive(Debug, Drop)]
pub struct Ring {
    buffer: HeapCircularBuffer<u8>,
}

impl Model for Ring {
    ghost use Rattle.qo_values.specs.Rings.{RingBytes};

    ghost Value = { RingBytes };

    ghost view = { λ r. record { size = r.buffer.capacity; bytes = r.buffer.items } };
}

/// Why no ring was made.
#[derive(Debug, Drop, Error)]
pub enum RingError {
    /// The size is no power of two from 1 to `RING_SIZE_MAX`.
    #[error("ring size not a power of two")]
    BadSize,
    /// Memory ran out.
    #[error("out of memory")]
    Memory,
}

/// Why no bytes were taken.
#[derive(Debug, Drop, Error)]
pub enum TakeError {
    /// A byte to be told as it is is 128 or more.
    #[error("bytes not ASCII")]
    NotAscii,
    /// Memory ran out.
    #[error("out of memory")]
    Memory,
}

/// Why no bytes were added.
#[derive(Debug, Drop, Error)]
pub enum AddError {
    /// The text is not the standard Base64 of any bytes.
    #[error("text not Base64")]
    BadText,
}

impl From<AllocError> for TakeError {
    ghost use Rattle.std.specs.Prelude.{◌≡◌};
    ghost use Rattle.qo_chardev.specs.declared.ring.TakeError.TheVariants as failure;

    ghost from_gives = { λ _ e. e ≡ failure.Memory };

    fn from(_error: AllocError) -> TakeError {
        TakeError::Memory
    }
}

impl Ring {
    ghost use Rattle.std.specs.Prelude.{◌≡◌, ◌≤◌, length, true, false, None, Some, is_some, IfOk, OnOk, OnErr};
    ghost use Rattle.qo_values.specs.Rings.{is_ring_size, empty_ring, ring_add, ring_push, ring_oldest, ring_drop};
    ghost use Rattle.qo_chardev.specs.Texts.{encoded, bytes_of, Adds};

    /// A ring of a size, without bytes; `BadSize` exactly where the size is no power of two from 1
    /// to `RING_SIZE_MAX`.
    pub fn new(alloc: Global, size: u64) -> Result<Ring, RingError>
        ensures ring { IfOk result (λ ring. (ring ≡ empty_ring size) × (is_ring_size size ≡ true)) }
        ensures bad_size { is_ring_size size ≡ false → result ≡ Err RingError.BadSize }
        ensures only_bad_size { result ≡ Err RingError.BadSize → is_ring_size size ≡ false }
    {
        if !size.is_power_of_two() || size > RING_SIZE_MAX {
            return Err(RingError::BadSize);
        }
        match HeapCircularBuffer::with_capacity(alloc, size as usize) {
            Ok(buffer) => Ok(Ring { buffer }),
            Err(AllocError) => Err(RingError::Memory),
        }
    }

    /// How many bytes it keeps. It takes no memory.
    pub fn size(&self) -> u64
        ensures { result ≡ self.now.size }
    {
        self.buffer.capacity() as u64
    }

    /// Adds a byte; of a full ring the oldest goes. It takes no memory.
    pub fn push(&mut self, byte: u8)
        ensures { self.new ≡ ring_push self.old byte }
    {
        self.buffer.push_back(byte);
    }

    /// Adds bytes; where they do not fit, the oldest go. It takes no memory.
    pub fn add(&mut self, bytes: &[u8])
        ensures { self.new ≡ ring_add self.old bytes.now }
    {
        self.buffer.extend_from_slice(bytes);
    }

    /// Takes the oldest bytes, at most `most`, and tells them in a form; `NotAscii` exactly where
    /// the form cannot tell them. An error takes nothing.
    pub fn take(&mut self, most: usize, form: Form) -> Result<Text, TakeError>
        ensures text { IfOk result (λ text. encoded form (ring_oldest self.old most) ≡ Some text) }
        ensures taken { OnOk result (self.new ≡ ring_drop self.old most) }
        ensures not_ascii { encoded form (ring_oldest self.old most) ≡ None
            → result ≡ Err TakeError.NotAscii }
        ensures only_not_ascii { result ≡ Err TakeError.NotAscii
            → encoded form (ring_oldest self.old most) ≡ None }
        ensures err { OnErr result (self.new ≡ self.old) }
    {
        let len = self.buffer.len();
        let count = most.min(len);
        let (front, back) = oldest(&self.buffer, count);
        let text = tell(*self.buffer.allocator(), front, back, form)?;
        self.buffer.truncate_front(len - count);
        Ok(text)
    }

    /// What is so of every ring: it has at most as many bytes as its size.
    fn reveal_invariant(&self)
        ensures { length self.now.bytes ≤ self.now.size }
    {
        let _size = self.buffer.capacity();
    }

    /// Adds the bytes of a text that is Base64, part by part.
    fn add_parts(&mut self, text: &[u8])
        requires { is_some (bytes_of text.now) ≡ true }
        ensures { Adds text.now self.old self.new }
    {
        self.reveal_invariant();
        let mut buffer = [0; PART_BYTES];
        let mut rest = text;
        while !rest.is_empty() {
            let Some((bytes, after)) = first_part(rest, &mut buffer) else {
                unreachable!();
            };
            self.add(bytes);
            rest = after;
        }
    }

    /// Adds the bytes whose standard Base64 a text is; `BadText` exactly where there are none. It
    /// takes no memory. An error adds nothing.
    pub fn add_base64(&mut self, text: &str) -> Result<(), AddError>
        ensures added { OnOk result (Adds text.now self.old self.new) }
        ensures bad_text { bytes_of text.now ≡ None → result ≡ Err AddError.BadText }
        ensures only_bad_text { result ≡ Err AddError.BadText → bytes_of text.now ≡ None }
        ensures err { OnErr result (self.new ≡ self.old) }
    {
        let text = text.as_bytes();
        if !is_base64(text) {
            return Err(AddError::BadText);
        }
        self.add_parts(text);
        Ok(())
    }
}
