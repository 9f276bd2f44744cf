//! The parts of a stream: what comes first, and the rest.

ghost use Rattle.std.specs.Prelude.{◌≡◌, ◌+◌, ◌<◌, ◌≤◌, [], ◌∷◌, ◌++◌, IfOk, OnOk, length, option_copied, option_to_list};
ghost use Rattle.qo_values.specs.declared.limits.TheConstants.{MESSAGE_MAX};
ghost use Rattle.qo_framing.specs.Cut.{after_skipping, between_part, cut, first_part, followed, item_of, left_after, object_part, skipping_part, framing_after};
ghost use Rattle.qo_framing.specs.Fronts.{end_after};
ghost use Rattle.qo_framing.specs.Parts.{cut_to, part_view, state_of, ScansPart, ScansStop};

use crate::bytes::{ends_skipping, trimmed};
use crate::items::{Item, ObjectBytes};
use crate::scanner::{Ending, Scanned, Scanner, scan};
use std::alloc::{AllocError, Global};
use std::mem::replace;

/// Where a stream stands without an unfinished object.
#[derive(Clone, Copy)]
pub(crate) enum Gap {
    /// Between objects.
    Between,
    /// Skipping to the end of a line.
    Skipping,
}

/// Where a stream stops.
#[derive(Clone, Copy)]
pub(crate) enum Stop<'a> {
    /// Outside an object.
    In(Gap),
    /// Inside an object that has these bytes so far.
    Inside(&'a [u8], Scanner),
}

/// The first part of a stream.
#[derive(Drop)]
pub(crate) enum Part<'a> {
    /// There is no other.
    Stops(Stop<'a>),
    /// An item, if it has one, and what follows.
    GoesOn(Option<Item>, Gap, &'a [u8]),
}

/// The bytes after the first one that ends the skipping.
fn after_skipping(bytes: &[u8]) -> Option<&[u8]>
    ensures { option_copied result ≡ after_skipping bytes.now }
{
    let mut left = bytes;
    while let [byte, rest @ ..] = left {
        if ends_skipping(*byte) {
            return Some(rest);
        }
        left = rest;
    }
    None
}

/// The bytes of two slices, in some room.
#[inline(always)]
fn joined(room: Vec<u8>, front: &[u8], back: &[u8]) -> Result<ObjectBytes, AllocError>
    ensures { IfOk result (λ object. object ≡ front.now ++ back.now) }
{
    let mut bytes = room;
    bytes.clear();
    bytes.extend_from_slice(front)?;
    bytes.extend_from_slice(back)?;
    Ok(ObjectBytes::from_vec(bytes))
}

/// The item of an object that ended, whose bytes are those of two slices. They are put into `room`.
#[inline(always)]
pub(crate) fn item_of(
    ending: Ending,
    front: &[u8],
    back: &[u8],
    room: Vec<u8>,
) -> Result<Item, AllocError>
    requires { length front.now ≤ MESSAGE_MAX }
    ensures { IfOk result (λ item. item ≡ item_of ending (front.now ++ back.now)) }
{
    Ok(match ending {
        Ending::Whole => Item::Object(joined(room, front, back)?),
        Ending::Broken => Item::Broken,
        Ending::TooLong => Item::TooLong,
        Ending::TooDeep => Item::TooDeep,
    })
}

/// What follows an object that ended with so many of the bytes.
pub(crate) fn rest_of(ending: Ending, count: usize, bytes: &[u8]) -> (Gap, &[u8])
    requires some { 0 < count }
    requires within { count ≤ length bytes.now }
    ensures state { state_of result.0 ≡ framing_after ending }
    ensures left { result.1.now ≡ left_after ending count bytes.now }
{
    match ending {
        Ending::Whole | Ending::Broken => (Gap::Between, &bytes[count..]),
        Ending::TooLong | Ending::TooDeep => (Gap::Skipping, &bytes[count - 1..]),
    }
}

/// The first part of a stream that skips.
fn skipping_part(bytes: &[u8]) -> Part<'_>
    ensures part { part_view result ≡ skipping_part (after_skipping bytes.now) }
    ensures scanned { ScansPart result }
{
    match after_skipping(bytes) {
        None => Part::Stops(Stop::In(Gap::Skipping)),
        Some(rest) => Part::GoesOn(None, Gap::Between, rest),
    }
}

/// The first part of bytes that begin an object, whose bytes after the brace are `inner`.
fn object_part<'a>(
    alloc: Global,
    bytes: &'a [u8],
    inner: &[u8],
    room: &mut Vec<u8>,
) -> Result<Part<'a>, AllocError>
    requires { bytes.now ≡ 123 ∷ inner.now }
    ensures part { IfOk result (λ p. part_view p ≡ object_part bytes.now (end_after [] bytes.now)) }
    ensures scanned { IfOk result ScansPart }
{
    match scan(Scanner::begun(), 1, inner) {
        Scanned::Open(scanner) => Ok(Part::Stops(Stop::Inside(bytes, scanner))),
        Scanned::Ended(ending, used) => {
            let count = used + 1;
            let room = replace(room, Vec::new(alloc));
            let item = item_of(ending, &[], &bytes[..count], room)?;
            let (gap, rest) = rest_of(ending, count, bytes);
            Ok(Part::GoesOn(Some(item), gap, rest))
        }
    }
}

/// The first part of bytes of which none in front is passed over.
fn between_part<'a>(
    alloc: Global,
    bytes: &'a [u8],
    room: &mut Vec<u8>,
) -> Result<Part<'a>, AllocError>
    ensures part { IfOk result (λ p. part_view p ≡ between_part bytes.now) }
    ensures scanned { IfOk result ScansPart }
{
    match bytes.split_first() {
        None => Ok(Part::Stops(Stop::In(Gap::Between))),
        Some((b'{', inner)) => object_part(alloc, bytes, inner, room),
        Some(_) => Ok(Part::GoesOn(Some(Item::Junk), Gap::Skipping, bytes)),
    }
}

/// The first part of a stream.
fn first_part<'a>(
    alloc: Global,
    gap: Gap,
    bytes: &'a [u8],
    room: &mut Vec<u8>,
) -> Result<Part<'a>, AllocError>
    ensures part { IfOk result (λ p. part_view p ≡ first_part (state_of gap) bytes.now) }
    ensures scanned { IfOk result ScansPart }
{
    match gap {
        Gap::Between => between_part(alloc, trimmed(bytes), room),
        Gap::Skipping => Ok(skipping_part(bytes)),
    }
}

/// Adds an item, if there is one.
pub(crate) fn push_some(items: &mut Vec<Item>, item: Option<Item>) -> Result<(), AllocError>
    ensures { OnOk result (items.new.items ≡ items.old.items ++ option_to_list item) }
{
    match item {
        None => Ok(()),
        Some(item) => Ok(items.push(item)?),
    }
}

/// Adds the items of bytes, and answers where the stream stops after them. The bytes of the first object are
/// put into `room`.
pub(crate) fn add_items<'a>(
    alloc: Global,
    gap: Gap,
    bytes: &'a [u8],
    items: &mut Vec<Item>,
    room: &mut Vec<u8>,
) -> Result<Stop<'a>, AllocError>
    ensures cut { IfOk result (λ stop. followed items.old.items (cut (state_of gap) bytes.now)
        ≡ cut_to items.new.items stop) }
    ensures scanned { IfOk result ScansStop }
{
    let mut gap = gap;
    let mut left = bytes;
    loop {
        match first_part(alloc, gap, left, room)? {
            Part::Stops(stop) => return Ok(stop),
            Part::GoesOn(item, next, rest) => {
                push_some(items, item)?;
                gap = next;
                left = rest;
            }
        }
    }
}
