//! Reading the heap. None of these calls takes memory.

ghost use Rattle.std.specs.Prelude.{◌≡◌, ◌≤◌, ◌^◌, length, find, slice_get};

use crate::heap::Heap;
use crate::table::{key_in, place_of};
use qo_model::PropertyName;
use qo_object::{Oid, SlotView};
use qo_slots::Steps;
use qo_values::TypeId;
use std::sync::ledger::Ledger;

/// What one look at an object tells of it, beside its slots.
#[derive(Clone, Copy, Debug)]
pub struct Summary {
    /// Its type.
    pub kind: TypeId,
    /// Its references: the child slots and strong links that name it, and its pins.
    pub refs: u64,
    /// Its parent, if it has one.
    pub parent: Option<Oid>,
}

impl Heap {
    ghost use Rattle.std.specs.Prelude.{◌<◌, ◌+◌, nat_lt, Some, option_map, length, find, leb, slice_get, position, IfSome, IfNone, None, IfOk};
    ghost use Rattle.std.specs.Option.{option_and_then};
    ghost use Rattle.std.specs.Str.{bytes_eq};
    ghost use Rattle.std.specs.List.{IsDistinct};
    ghost use Rattle.qo_object.specs.Slots.{names_of};
    ghost use Rattle.qo_model.specs.Devices.{kid_name};
    ghost use Rattle.qo_model.specs.RowNames.{property_name};
    ghost use Rattle.qo_object.specs.Slots.{target_of};
    ghost use Rattle.qo_heap.specs.Rows.{IsLive};
    ghost use Rattle.qo_heap.specs.Objects.{content_of, parent_of, refs_of, slots_of};

    /// How many objects are live.
    pub fn live(&self) -> usize
        ensures { result ≡ length self.now.rows }
    {
        self.order.len()
    }

    /// The type of an object.
    pub fn kind<L: Ledger>(&self, o: Oid, steps: &mut Steps<L>) -> TypeId
        requires { IsLive self.now.rows o }
        ensures kind { option_map (λ c. c.kind) (content_of self.now o.birth) ≡ Some result }
        ensures cost { steps.new ≡ steps.old + 1 }
    {
        self.look(o, steps).kind()
    }

    /// The slot of a name of an object, by one look-up; `None` exactly where it has none. No two slots of an
    /// object have one name.
    #[inline(always)]
    pub fn slot<L: Ledger>(&self, o: Oid, name: &str, steps: &mut Steps<L>) -> Option<SlotView<'_>>
        requires { IsLive self.now.rows o }
        ensures slot { option_map (λ v. (v.name.now, v.what.now)) result ≡ find (λ s. bytes_eq name.now s.0) (slots_of self.now o.birth) }
        ensures at { option_map (λ v. v.at) result ≡ position (λ s. bytes_eq name.now s.0) (slots_of self.now o.birth) }
        ensures names { IsDistinct bytes_eq (names_of (slots_of self.now o.birth)) }
        ensures cost { steps.new ≡ steps.old + 1 }
    {
        let object = self.look(o, steps);
        object.reveal_invariant();
        match object.find(name) {
            Some(at) => object.slot_at(at),
            None => None,
        }
    }

    /// The object that the slot of a name of an object names, as a child or as the target of a link, by
    /// one look-up; `None` where there is no such slot, or it names none.
    pub fn named<L: Ledger>(&self, o: Oid, name: &str, steps: &mut Steps<L>) -> Option<Oid>
        requires { IsLive self.now.rows o }
        ensures named { result ≡ option_and_then (λ s. target_of s.1) (find (λ s. bytes_eq name.now s.0) (slots_of self.now o.birth)) }
        ensures cost { steps.new ≡ steps.old + 1 }
    {
        let object = self.look(o, steps);
        let at = object.find(name)?;
        let slot = object.slot_at(at)?;
        slot.what.target()
    }

    /// The slot of a property of an object, by one look-up; `None` exactly where it has none.
    #[inline(always)]
    pub fn property<L: Ledger>(
        &self,
        o: Oid,
        name: PropertyName,
        steps: &mut Steps<L>,
    ) -> Option<SlotView<'_>>
        requires { IsLive self.now.rows o }
        ensures slot { option_map (λ v. (v.name.now, v.what.now)) result ≡ find (λ s. bytes_eq (property_name name) s.0) (slots_of self.now o.birth) }
        ensures at { option_map (λ v. v.at) result ≡ position (λ s. bytes_eq (property_name name) s.0) (slots_of self.now o.birth) }
        ensures cost { steps.new ≡ steps.old + 1 }
    {
        let object = self.look(o, steps);
        match object.find_row(name) {
            Some(at) => object.slot_at(at),
            None => None,
        }
    }

    /// The link of a bus to the kid in a slot, by one look-up; `None` exactly where it has none of that
    /// name.
    #[inline(always)]
    pub fn kid<L: Ledger>(&self, o: Oid, slot: u8, steps: &mut Steps<L>) -> Option<SlotView<'_>>
        requires { IsLive self.now.rows o }
        ensures slot { option_map (λ v. (v.name.now, v.what.now)) result ≡ find (λ s. bytes_eq (kid_name slot) s.0) (slots_of self.now o.birth) }
        ensures cost { steps.new ≡ steps.old + 1 }
    {
        let object = self.look(o, steps);
        match object.find_kid(slot) {
            Some(at) => object.slot_at(at),
            None => None,
        }
    }

    /// The slot of an object at a place, from 0; `None` exactly past the last. There are at most 2^32.
    pub fn slot_at<L: Ledger>(
        &self,
        o: Oid,
        at: usize,
        steps: &mut Steps<L>,
    ) -> Option<SlotView<'_>>
        requires { IsLive self.now.rows o }
        ensures slot { option_map (λ v. (v.name.now, v.what.now)) result ≡ slice_get (slots_of self.now o.birth) at }
        ensures at { IfSome result (λ v. v.at ≡ at) }
        ensures few { IfSome result (λ v. at < 2 ^ 32) }
        ensures cost { steps.new ≡ steps.old + 1 }
    {
        let object = self.look(o, steps);
        object.reveal_invariant();
        object.slot_at(at)
    }

    /// How many slots an object has; at most 2^32.
    pub fn slot_count<L: Ledger>(&self, o: Oid, steps: &mut Steps<L>) -> usize
        requires { IsLive self.now.rows o }
        ensures count { result ≡ length (slots_of self.now o.birth) }
        ensures few { result ≤ 2 ^ 32 }
        ensures cost { steps.new ≡ steps.old + 1 }
    {
        let object = self.look(o, steps);
        object.reveal_invariant();
        object.len()
    }

    /// The references of an object: the child slots and strong links that name it, and its pins.
    pub fn refs<L: Ledger>(&self, o: Oid, steps: &mut Steps<L>) -> u64
        requires { IsLive self.now.rows o }
        ensures refs { result ≡ refs_of self.now o.birth }
        ensures cost { steps.new ≡ steps.old + 1 }
    {
        let entry = self.entry(o, steps);
        entry.object.reveal_invariant();
        entry.held + entry.object.pins()
    }

    /// Whether an object has references: it is pinned, or a slot holds it.
    pub fn is_held<L: Ledger>(&self, o: Oid, steps: &mut Steps<L>) -> bool
        requires { IsLive self.now.rows o }
        ensures held { result ≡ nat_lt 0 (refs_of self.now o.birth) }
        ensures cost { steps.new ≡ steps.old + 1 }
    {
        self.refs(o, steps) > 0
    }

    /// The parent of an object; `None` exactly where it has none.
    pub fn parent<L: Ledger>(&self, o: Oid, steps: &mut Steps<L>) -> Option<Oid>
        ensures parent { result ≡ parent_of self.now o.birth }
        ensures cost { steps.new ≤ steps.old + 1 }
    {
        self.reveal_invariant();
        let there = self.by_birth(o.birth)?;
        self.entry(there, steps).parent
    }

    /// The type of an object, its references and its parent, by one look.
    pub fn summary<L: Ledger>(&self, o: Oid, steps: &mut Steps<L>) -> Summary
        requires { IsLive self.now.rows o }
        ensures kind { option_map (λ c. c.kind) (content_of self.now o.birth) ≡ Some result.kind }
        ensures refs { result.refs ≡ refs_of self.now o.birth }
        ensures parent { result.parent ≡ parent_of self.now o.birth }
        ensures cost { steps.new ≡ steps.old + 1 }
    {
        let entry = self.entry(o, steps);
        entry.object.reveal_invariant();
        Summary {
            kind: entry.object.kind(),
            refs: entry.held + entry.object.pins(),
            parent: entry.parent,
        }
    }

    /// The live object of a birth; `None` exactly where there is none.
    pub fn by_birth(&self, birth: u64) -> Option<Oid>
        ensures born { IfSome result (λ o. o.birth ≡ birth) }
        ensures live { IfSome result (IsLive self.now.rows) }
        ensures none { IfNone result (content_of self.now birth ≡ None) }
    {
        self.reveal_invariant();
        let o = self.from_birth(birth)?;
        if o.birth == birth {
            return Some(o);
        }
        None
    }

    /// The live object of the least birth from this one on; `None` where none is as high.
    pub fn from_birth(&self, birth: u64) -> Option<Oid>
        ensures { result ≡ option_map (λ row. row.0) (find (λ row. leb birth row.0.birth) self.now.rows) }
    {
        let place = place_of(self.order.as_slice(), birth);
        key_in(self.order.as_slice(), place)
    }
}
