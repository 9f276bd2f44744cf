//! Rings by command (QEMU's QAPI, `chardev-add`, `chardev-remove`, `ringbuf-read` and `ringbuf-write`;
//! the refusals and their order are the profile's).

ghost use Rattle.std.specs.Prelude.{◌≡◌, IfOk, OnErr, map};
ghost use Rattle.qo_buses.specs.Recount.{IsRecounted};
ghost use Rattle.qo_model.specs.Board.{Board as Tree};
ghost use Rattle.qo_realize.specs.Answers.{Changes, IsAnswered};
ghost use Rattle.qo_realize.specs.Chardevs.{AnswersRings, ChangesRings, ReadsRing, TakesRing, chardev_added, chardev_removed, ring_added, ring_read, ring_written, ringbuf_read, ringbuf_written};
ghost use Rattle.qo_realize.specs.Representation.{Stands};

use crate::board::Board;
use qo_chardev::{RING_SIZE_DEFAULT, RingAddError, RingError, RingTakeError, Rings};
use qo_heap::Heap;
use qo_properties::Refusal;
use qo_values::{Code, Form, Id, IdError, Text};
use std::alloc::{AllocError, Global};

/// Adds a ring of a type's name and a size under an id. Refused, in this order, with `E20` where the type
/// is no ring, `E23` where the id is malformed, `E24` where a ring has it, and `E51` where the size is that
/// of no ring. The other error is want of memory. An error adds nothing.
fn add(rings: &mut Rings, id: &str, kind: &str, size: u64, alloc: Global) -> Result<(), Refusal>
    ensures change { (b : Tree) → b.rings ≡ rings.old → ChangesRings b (ring_added b id.now kind.now size) result rings.new }
    ensures err { OnErr result (rings.new ≡ rings.old) }
{
    if kind != "ringbuf" {
        return Err(Refusal::Refused(Code::E20));
    }
    let id = match Id::parse(alloc, id) {
        Ok(id) => id,
        Err(IdError::Malformed) => return Err(Refusal::Refused(Code::E23)),
        Err(IdError::Memory) => return Err(Refusal::Memory),
    };
    if rings.has(id.as_str()) {
        return Err(Refusal::Refused(Code::E24));
    }
    match rings.add(id, size, alloc) {
        Ok(()) => Ok(()),
        Err(RingError::BadSize) => Err(Refusal::Refused(Code::E51)),
        Err(RingError::Memory) => Err(Refusal::Memory),
    }
}

/// Removes the ring of an id. Refused with `E36` where there is none, and `E37` where a UART has claimed
/// it. It takes no memory. An error leaves all as it was.
fn remove(heap: &Heap, rings: &mut Rings, id: &str) -> Result<(), Code>
    ensures change { (b : Tree) → IsRecounted b heap.now.claims → b.rings ≡ rings.old → AnswersRings b (chardev_removed b id.now) result rings.new }
    ensures err { OnErr result (rings.new ≡ rings.old) }
{
    let Some(kept) = rings.id(id) else {
        return Err(Code::E36);
    };
    if heap.book().is_ring_taken(kept.as_str()) {
        return Err(Code::E37);
    }
    rings.remove(id);
    Ok(())
}

/// Takes the oldest bytes of the ring of an id, at most `size`, and tells them in a form. Refused with `E36`
/// where there is no such ring, and `E52` where the form cannot tell them. The other error is want of
/// memory. An error takes nothing.
fn take(rings: &mut Rings, id: &str, size: u64, form: Form) -> Result<Text, Refusal>
    ensures read { (b : Tree) → b.rings ≡ rings.old → TakesRing b (ring_read b id.now size form) result rings.new }
    ensures err { OnErr result (rings.new ≡ rings.old) }
{
    match rings.take(id, size as usize, form) {
        Ok(text) => Ok(text),
        Err(RingTakeError::NotFound) => Err(Refusal::Refused(Code::E36)),
        Err(RingTakeError::NotAscii) => Err(Refusal::Refused(Code::E52)),
        Err(RingTakeError::Memory) => Err(Refusal::Memory),
    }
}

/// Adds the bytes that a text gives to the ring of an id. Refused with `E36` where there is no such ring,
/// and else `E19` where the text gives none. It takes no memory. An error adds nothing.
fn write(rings: &mut Rings, id: &str, text: &str, form: Form) -> Result<(), Code>
    ensures change { (b : Tree) → b.rings ≡ rings.old → AnswersRings b (ring_written b id.now text.now form) result rings.new }
    ensures err { OnErr result (rings.new ≡ rings.old) }
{
    match rings.add_bytes(id, text, form) {
        Ok(()) => Ok(()),
        Err(RingAddError::NotFound) => Err(Code::E36),
        Err(RingAddError::BadText) => Err(Code::E19),
    }
}

impl Board {
    /// The rings, each its id and its size, in the order of adding. The error is want of memory.
    pub fn ring_rows(&self, alloc: Global) -> Result<Vec<(Text, u64)>, AllocError>
        ensures { (b : Tree) → Stands b self.now → IfOk result (λ rows. map (λ r. (r.id, r.size)) b.rings ≡ rows.items) }
    {
        self.rings.rows(alloc)
    }

    /// Adds a ring of a size, or of `RING_SIZE_DEFAULT` bytes, under an id (QEMU's QAPI, `chardev-add`).
    /// Refused, in this order, with `E20` where the type's name is not `ringbuf`, `E23` where the id is
    /// malformed, `E24` where a ring has it, and `E51` where the size is no power of two from 1 to
    /// `RING_SIZE_MAX`. The other error is want of memory. An error leaves the board as it was.
    pub fn chardev_add(
        &mut self,
        id: &str,
        kind: &str,
        size: Option<u64>,
        alloc: Global,
    ) -> Result<(), Refusal>
        ensures change { (b : Tree) → Stands b self.old → Changes (chardev_added b id.now kind.now size) b result self.new }
        ensures err { OnErr result (self.new ≡ self.old) }
    {
        let size = size.unwrap_or(RING_SIZE_DEFAULT);
        add(&mut self.rings, id, kind, size, alloc)
    }

    /// Removes the ring of an id (QEMU's QAPI, `chardev-remove`). Refused with `E36` exactly where there
    /// is none, and else `E37` exactly where a UART has claimed it. It takes no memory. An error leaves
    /// the board as it was.
    pub fn chardev_remove(&mut self, id: &str) -> Result<(), Code>
        ensures change { (b : Tree) → Stands b self.old → IsAnswered (chardev_removed b id.now) result self.new }
        ensures err { OnErr result (self.new ≡ self.old) }
    {
        remove(&self.heap, &mut self.rings, id)
    }

    /// Takes the oldest bytes of a ring, at most `size`, and tells them in a form, or in UTF-8 (QEMU's
    /// QAPI, `ringbuf-read`). Refused with `E36` where there is no such ring, and else `E52` where a byte
    /// to be told as it is is 128 or more. The other error is want of memory. An error leaves the board
    /// as it was.
    pub fn ringbuf_read(
        &mut self,
        device: &str,
        size: u64,
        format: Option<Form>,
    ) -> Result<Text, Refusal>
        ensures read { (b : Tree) → Stands b self.old → ReadsRing (ringbuf_read b device.now size format) result self.new }
        ensures err { OnErr result (self.new ≡ self.old) }
    {
        let form = format.unwrap_or(Form::Utf8);
        take(&mut self.rings, device, size, form)
    }

    /// Adds the bytes that a text gives, in a form, or its own, to a ring; where they do not fit, the
    /// oldest go (QEMU's QAPI, `ringbuf-write`). Refused with `E36` exactly where there is no such ring,
    /// and else `E19` exactly where the text is not the Base64 of any bytes. It takes no memory. An error
    /// leaves the board as it was.
    pub fn ringbuf_write(
        &mut self,
        device: &str,
        text: &str,
        format: Option<Form>,
    ) -> Result<(), Code>
        ensures change { (b : Tree) → Stands b self.old → IsAnswered (ringbuf_written b device.now text.now format) result self.new }
        ensures err { OnErr result (self.new ≡ self.old) }
    {
        let form = format.unwrap_or(Form::Utf8);
        write(&mut self.rings, device, text, form)
    }
}
