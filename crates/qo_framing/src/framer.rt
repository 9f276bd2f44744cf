//! The framer: what a stream's state is, and what more bytes give.

ghost use Rattle.std.specs.Prelude.{◌≡◌, []};

use crate::items::Item;
use crate::parts::{Gap, Stop, add_items, item_of, push_some, rest_of};
use crate::scanner::{Scanned, Scanner, scan};
use std::alloc::{AllocError, Global};
use std::marker::Model;

/// Where a stream stands.
#[derive(Clone, Copy, Debug)]
enum Mode {
    /// Between objects.
    Between,
    /// Inside an object.
    Inside(Scanner),
    /// Skipping to the end of a line.
    Skipping,
}

/// Cuts a stream into items, as its bytes come.
#[derive(Debug, Drop)]
pub struct Framer {
    mode: Mode,
    /// The bytes of the unfinished object, where the stream is inside one.
    partial: Vec<u8>,
}

impl Model for Framer {
    ghost use Rattle.qo_framing.specs.Cut.{Framing};

    ghost Value = { Framing };

    ghost use Rattle.qo_framing.specs.Framers.{framing, IsFramer};

    ghost view = { λ f. framing f.mode f.partial.items };

    ghost invariant = { λ f. IsFramer f.mode f.partial.items };
}

/// Lets items go, and answers the memory of the last of them, with any bytes.
fn byte_room(alloc: Global, items: &mut Vec<Item>) -> Vec<u8>
    ensures { items.new.items ≡ [] }
{
    let last = items.pop();
    items.clear();
    match last {
        Some(item) => item.into_room(alloc),
        None => Vec::new(alloc),
    }
}

impl Framer {
    ghost use Rattle.std.specs.Prelude.{◌≡◌, IfOk, IsOkAnd, OnErr};
    ghost use Rattle.qo_framing.specs.Cut.{between, cut, followed};
    ghost use Rattle.qo_framing.specs.Parts.{state_of};

    /// A framer of a stream that begins. It takes no memory yet.
    pub fn new(alloc: Global) -> Result<Framer, AllocError>
        ensures { IsOkAnd result (λ framer. framer ≡ between) }
    {
        Ok(Framer {
            mode: Mode::Between,
            partial: Vec::new(alloc),
        })
    }

    /// Forgets what is unfinished: the stream begins again. It takes no memory.
    pub fn reset(&mut self)
        ensures { self.new ≡ between }
    {
        self.mode = Mode::Between;
        self.partial.clear();
    }

    /// The items that more bytes complete, in order. They are put into `room`, whose own items go first, and
    /// the bytes of the first object into the memory of the last of these, so that no memory is asked for where
    /// there is room. An error leaves the framer as it was.
    pub fn feed(
        &mut self,
        alloc: Global,
        bytes: &[u8],
        room: Vec<Item>,
    ) -> Result<Vec<Item>, AllocError>
        ensures items { IfOk result (λ items. cut self.old bytes.now
            ≡ record { items = items.items; state = self.new }) }
        ensures kept { OnErr result (self.new ≡ self.old) }
    {
        let mut items = room;
        match self.mode {
            Mode::Between => self.begin(alloc, Gap::Between, bytes, items),
            Mode::Skipping => self.begin(alloc, Gap::Skipping, bytes, items),
            Mode::Inside(scanner) => match scan(scanner, self.partial.len(), bytes) {
                Scanned::Open(scanner) => {
                    items.clear();
                    self.partial.extend_from_slice(bytes)?;
                    self.mode = Mode::Inside(scanner);
                    Ok(items)
                }
                Scanned::Ended(ending, count) => {
                    let room = byte_room(alloc, &mut items);
                    let item = item_of(ending, &self.partial, &bytes[..count], room)?;
                    push_some(&mut items, Some(item))?;
                    let (gap, rest) = rest_of(ending, count, bytes);
                    self.go_on(alloc, gap, rest, items, Vec::new(alloc))
                }
            },
        }
    }

    /// Begins where nothing is unfinished, in the room of items, which go first.
    fn begin(
        &mut self,
        alloc: Global,
        gap: Gap,
        bytes: &[u8],
        room: Vec<Item>,
    ) -> Result<Vec<Item>, AllocError>
        ensures items { IfOk result (λ items. cut (state_of gap) bytes.now
            ≡ record { items = items.items; state = self.new }) }
        ensures kept { OnErr result (self.new ≡ self.old) }
    {
        let mut items = room;
        let room = byte_room(alloc, &mut items);
        self.go_on(alloc, gap, bytes, items, room)
    }

    /// Goes on where nothing is unfinished, with the items so far. The bytes of the next object are put into
    /// `room`.
    fn go_on(
        &mut self,
        alloc: Global,
        gap: Gap,
        bytes: &[u8],
        items: Vec<Item>,
        room: Vec<u8>,
    ) -> Result<Vec<Item>, AllocError>
        ensures items { IfOk result (λ all. followed items.items (cut (state_of gap) bytes.now)
            ≡ record { items = all.items; state = self.new }) }
        ensures kept { OnErr result (self.new ≡ self.old) }
    {
        let mut items = items;
        let mut room = room;
        match add_items(alloc, gap, bytes, &mut items, &mut room)? {
            Stop::In(gap) => self.stand(gap),
            Stop::Inside(front, scanner) => {
                self.partial = Vec::from_slice(alloc, front)?;
                self.mode = Mode::Inside(scanner);
            }
        }
        Ok(items)
    }

    /// Stands where nothing is unfinished.
    fn stand(&mut self, gap: Gap)
        ensures { self.new ≡ state_of gap }
    {
        self.mode = match gap {
            Gap::Between => Mode::Between,
            Gap::Skipping => Mode::Skipping,
        };
        self.partial.clear();
    }
}
