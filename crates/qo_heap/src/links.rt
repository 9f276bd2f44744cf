//! Changing the slots and the pins of an object of the heap. None of these calls takes memory, and
//! none finalizes.

use crate::entries::{add_hold, end_hold, entry_mut};
use crate::heap::Heap;
use crate::weak_lists::{join, leave};
use qo_object::Oid;
use qo_slots::Steps;
use qo_values::Val;
use std::sync::ledger::Ledger;

impl Heap {
    ghost use Rattle.std.specs.Prelude.{◌≡◌, ◌+◌, ◌<◌, ◌≤◌, ◌^◌, true, Some, option_map, option_and_then};
    ghost use Rattle.qo_object.specs.Content.{dropped_at, named_at, empty_link_at, pointed_at, set_at, cut_at, with_pin, without_pin};
    ghost use Rattle.qo_heap.specs.Rows.{IsLive};
    ghost use Rattle.qo_heap.specs.Objects.{content_of, pins_of, with_edit};

    /// Lets the slot of an object at a place go, and answers what it named: a child slot is removed,
    /// a link is left without a target; a plain slot and an alias stay, as all does past the end.
    #[inline(always)]
    pub fn empty<L: Ledger>(&mut self, o: Oid, at: usize, steps: &mut Steps<L>) -> Option<Oid>
        requires live { IsLive self.old.rows o }
        ensures now { self.new ≡ with_edit o.birth (dropped_at at) self.old }
        ensures answer { result ≡ option_and_then (λ c. named_at c at) (content_of self.old o.birth) }
        ensures cost { steps.new ≤ steps.old + 4 }
    {
        let dropped = entry_mut(&mut self.table, &self.order, o, steps).drop_at(at);
        end_hold(&mut self.table, &self.order, dropped.hold, steps);
        leave(&mut self.table, &self.order, dropped.loose, steps);
        dropped.named
    }

    /// Points the link at a place, which has no target, at an object.
    pub fn point<L: Ledger>(&mut self, o: Oid, at: usize, target: Oid, steps: &mut Steps<L>)
        requires live { IsLive self.old.rows o }
        requires target { IsLive self.old.rows target }
        requires link { option_map (λ c. empty_link_at c at) (content_of self.old o.birth) ≡ Some true }
        ensures now { self.new ≡ with_edit o.birth (pointed_at target at) self.old }
        ensures cost { steps.new ≤ steps.old + 4 }
    {
        let pointed = entry_mut(&mut self.table, &self.order, o, steps).point_at(at, target);
        add_hold(&mut self.table, &self.order, pointed.hold, o, steps);
        join(
            &mut self.table,
            &self.order,
            o,
            pointed.id,
            Some(target),
            steps,
        );
    }

    /// Gives the plain slot at a place a value; any other slot stays.
    pub fn set<L: Ledger>(&mut self, o: Oid, at: usize, val: Val, steps: &mut Steps<L>)
        requires live { IsLive self.old.rows o }
        ensures now { self.new ≡ with_edit o.birth (set_at val at) self.old }
        ensures cost { steps.new ≡ steps.old + 1 }
    {
        entry_mut(&mut self.table, &self.order, o, steps)
            .object
            .set(at, val);
    }

    /// Removes the link at a place, which has no target.
    pub fn cut<L: Ledger>(&mut self, o: Oid, at: usize, steps: &mut Steps<L>)
        requires live { IsLive self.old.rows o }
        requires link { option_map (λ c. empty_link_at c at) (content_of self.old o.birth) ≡ Some true }
        ensures now { self.new ≡ with_edit o.birth (cut_at at) self.old }
        ensures cost { steps.new ≡ steps.old + 1 }
    {
        entry_mut(&mut self.table, &self.order, o, steps).cut_at(at);
    }

    /// Holds an object from outside the tree once more; it may be so held 2^32 times.
    pub fn pin<L: Ledger>(&mut self, o: Oid, steps: &mut Steps<L>)
        requires live { IsLive self.old.rows o }
        requires room { pins_of self.old o.birth < 2 ^ 32 }
        ensures now { self.new ≡ with_edit o.birth with_pin self.old }
        ensures cost { steps.new ≡ steps.old + 1 }
    {
        entry_mut(&mut self.table, &self.order, o, steps)
            .object
            .pin();
    }

    /// Holds an object from outside the tree once less.
    pub fn unpin<L: Ledger>(&mut self, o: Oid, steps: &mut Steps<L>)
        requires live { IsLive self.old.rows o }
        requires pinned { 0 < pins_of self.old o.birth }
        ensures now { self.new ≡ with_edit o.birth without_pin self.old }
        ensures cost { steps.new ≡ steps.old + 1 }
    {
        entry_mut(&mut self.table, &self.order, o, steps)
            .object
            .unpin();
    }
}
