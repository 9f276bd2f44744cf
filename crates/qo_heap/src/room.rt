//! Room in each object for what others keep of it: for those who reset and clock it, and for a
//! release. None of these calls takes memory.

use crate::entries::entry_mut;
use crate::heap::Heap;
use qo_object::{Oid, Side, Work};
use qo_slots::Steps;
use std::sync::ledger::Ledger;

impl Heap {
    ghost use Rattle.std.specs.Prelude.{◌≡◌, ◌+◌, Some, option_map};
    ghost use Rattle.qo_object.specs.Content.{with_side, with_work};
    ghost use Rattle.qo_heap.specs.Rows.{IsLive};
    ghost use Rattle.qo_heap.specs.Objects.{content_of, with_edit};

    /// What is kept of an object beside the tree: what `set_side` last put, and of a new one zeros.
    pub fn side<L: Ledger>(&self, o: Oid, steps: &mut Steps<L>) -> Side
        requires { IsLive self.now.rows o }
        ensures side { option_map (λ c. c.side) (content_of self.now o.birth) ≡ Some result }
        ensures cost { steps.new ≡ steps.old + 1 }
    {
        self.look(o, steps).side()
    }

    /// Keeps this of an object beside the tree.
    pub fn set_side<L: Ledger>(&mut self, o: Oid, side: Side, steps: &mut Steps<L>)
        requires live { IsLive self.old.rows o }
        ensures now { self.new ≡ with_edit o.birth (with_side side) self.old }
        ensures cost { steps.new ≡ steps.old + 1 }
    {
        entry_mut(&mut self.table, &self.order, o, steps)
            .object
            .set_side(side);
    }

    /// The place of an object in the work of a release: what `set_work` last put, and of a new one
    /// nothing and 0.
    pub fn work<L: Ledger>(&self, o: Oid, steps: &mut Steps<L>) -> Work
        requires { IsLive self.now.rows o }
        ensures work { option_map (λ c. c.work) (content_of self.now o.birth) ≡ Some result }
        ensures cost { steps.new ≡ steps.old + 1 }
    {
        self.look(o, steps).work()
    }

    /// Gives an object a place in the work of a release.
    pub fn set_work<L: Ledger>(&mut self, o: Oid, work: Work, steps: &mut Steps<L>)
        requires live { IsLive self.old.rows o }
        ensures now { self.new ≡ with_edit o.birth (with_work work) self.old }
        ensures cost { steps.new ≡ steps.old + 1 }
    {
        entry_mut(&mut self.table, &self.order, o, steps)
            .object
            .set_work(work);
    }
}
