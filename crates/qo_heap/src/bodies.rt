//! The bodies of objects, and the book of claims.

use crate::entries::entry_mut;
use crate::heap::Heap;
use qo_claims::Claims;
use qo_kinds::Body;
use qo_model::{Deed, Note};
use qo_object::Oid;
use qo_slots::Steps;
use qo_values::Act;
use std::sync::ledger::Ledger;

impl Heap {
    ghost use Rattle.std.specs.Prelude.{◌≡◌, ◌+◌, IfSome, Some, option_map};
    ghost use Rattle.std.specs.Borrow.{sem};
    ghost use Rattle.qo_kinds.specs.Bodies.{MayAct};
    ghost use Rattle.qo_model.specs.declared.notes.Deed.TheVariants.{Did};
    ghost use Rattle.qo_object.specs.Content.{acted_at};
    ghost use Rattle.qo_heap.specs.Rows.{IsLive};
    ghost use Rattle.qo_heap.specs.Loans.{lends_claims, lends_body};
    ghost use Rattle.qo_heap.specs.Objects.{content_of, with_edit, with_note};

    /// The virtual time. It takes no memory.
    pub fn time(&self) -> u64
        ensures { result ≡ self.now.time }
    {
        self.time
    }

    /// The book of claims. It takes no memory.
    pub fn book(&self) -> &Claims
        ensures { result.now ≡ self.now.claims }
    {
        &self.claims
    }

    /// The book of claims, for writing. It takes no memory.
    pub fn claims(&mut self) -> &mut Claims
        ensures* writes_back { sem 𝓛 (lends_claims self.entry result) }
        ensures claims { result.now ≡ self.old.claims }
    {
        &mut self.claims
    }

    /// The body of an object. It takes no memory.
    pub fn body<L: Ledger>(&self, o: Oid, steps: &mut Steps<L>) -> &Body
        requires { IsLive self.now.rows o }
        ensures body { option_map (λ c. c.body) (content_of self.now o.birth) ≡ Some result.now }
        ensures cost { steps.new ≡ steps.old + 1 }
    {
        self.look(o, steps).body()
    }

    /// The body of an object, for writing. It takes no memory.
    pub fn body_mut<L: Ledger>(&mut self, o: Oid, steps: &mut Steps<L>) -> &mut Body
        requires live { IsLive self.old.rows o }
        ensures* writes_back { sem 𝓛 (lends_body self.entry o result) }
        ensures body { option_map (λ c. c.body) (content_of self.old o.birth) ≡ Some result.now }
        ensures cost { steps.new ≡ steps.old + 1 }
    {
        entry_mut(&mut self.table, &self.order, o, steps)
            .object
            .body_mut()
    }

    /// Runs an act of an object at the heap's time. It takes no memory.
    fn run<L: Ledger>(&mut self, o: Oid, act: Act, period: u64, steps: &mut Steps<L>)
        requires live { IsLive self.old.rows o }
        requires timely { IfSome (content_of self.old o.birth) (λ c. MayAct act self.old.time c.body) }
        ensures now { self.new ≡ with_edit o.birth (acted_at act self.old.time period) self.old }
        ensures cost { steps.new ≡ steps.old + 1 }
    {
        let time = self.time;
        entry_mut(&mut self.table, &self.order, o, steps)
            .object
            .act(act, time, period);
    }

    /// Runs an act of an object at the heap's time, where `period` is that of its clock, and notes
    /// it. It takes no memory.
    #[inline(always)]
    pub fn act<L: Ledger>(&mut self, o: Oid, act: Act, period: u64, steps: &mut Steps<L>)
        requires live { IsLive self.old.rows o }
        requires timely { IfSome (content_of self.old o.birth) (λ c. MayAct act self.old.time c.body) }
        ensures now { self.new ≡ with_note (record { birth = o.birth; deed = Did act }) (with_edit o.birth (acted_at act self.old.time period) self.old) }
        ensures cost { steps.new ≡ steps.old + 1 }
    {
        self.run(o, act, period, steps);
        self.note(Note {
            birth: o.birth,
            deed: Deed::Did(act),
        });
    }
}
