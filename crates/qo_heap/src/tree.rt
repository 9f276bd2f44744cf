//! Reading the tree of the heap: its objects by place, and the slot that names a child. None of
//! these calls takes memory.

use crate::heap::Heap;
use crate::table::{key_in, place_of};
use qo_object::{Oid, SlotView};
use qo_slots::Steps;
use std::sync::ledger::Ledger;

impl Heap {
    ghost use Rattle.std.specs.Prelude.{◌≡◌, ◌+◌, find, leb, option_map, position, slice_get};
    ghost use Rattle.std.specs.List.{position_or_len};
    ghost use Rattle.qo_object.specs.Slots.{names_child};
    ghost use Rattle.qo_heap.specs.Rows.{IsLive};
    ghost use Rattle.qo_heap.specs.Objects.{slots_of};

    /// The object at a place in the order of births, from 0; `None` past the last.
    pub fn oid_at(&self, place: usize) -> Option<Oid>
        ensures { result ≡ option_map (λ row. row.0) (slice_get self.now.rows place) }
    {
        key_in(self.order.as_slice(), place)
    }

    /// The place of the first object of a birth or a later one, in the order of births; where none is
    /// as high, the place past the last.
    pub fn place_from(&self, birth: u64) -> usize
        ensures { result ≡ position_or_len (λ row. leb birth row.0.birth) self.now.rows }
    {
        place_of(self.order.as_slice(), birth)
    }

    /// The first slot of an object that has the object of a birth as a child; `None` exactly where
    /// it has none. It is sought by halves first, as births nearly always rise along children. Where
    /// that misses it, each slot is looked at.
    pub fn child_slot<L: Ledger>(
        &self,
        o: Oid,
        child: u64,
        steps: &mut Steps<L>,
    ) -> Option<SlotView<'_>>
        requires { IsLive self.now.rows o }
        ensures slot { option_map (λ v. (v.name.now, v.what.now)) result ≡ find (λ s. names_child child s.1) (slots_of self.now o.birth) }
        ensures at { option_map (λ v. v.at) result ≡ position (λ s. names_child child s.1) (slots_of self.now o.birth) }
        ensures cost { steps.new ≡ steps.old + 1 }
    {
        self.reveal_once();
        let object = self.look(o, steps);
        if let Some(at) = object.child_sought(child) {
            return object.slot_at(at);
        }
        match object.child_place(child) {
            Some(at) => object.slot_at(at),
            None => None,
        }
    }
}
