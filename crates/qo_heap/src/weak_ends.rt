//! Letting go of the weak links that name an object or are its own, where it ends. None of these calls
//! takes memory.

use crate::entries::{Entry, Loose, entry_mut};
use crate::heap::Heap;
use crate::weak_links::End;
use crate::weak_lists::leave;
use crate::weak_slots::{linked_slot, weak_slot};
use qo_object::Oid;
use qo_slots::Steps;
use std::sync::ledger::Ledger;

impl Entry {
    ghost use Rattle.std.specs.Prelude.{◌≡◌, true, None, IfSome, IfNone, is_some, length};
    ghost use Rattle.std.specs.List.{AllByRecursion};
    ghost use Rattle.qo_heap.specs.WeakEnds.{DropsLink, IsLinked, IsWeakEnd};
    ghost use Rattle.qo_heap.specs.WeakLinks.{node_of};
    ghost use Rattle.qo_heap.specs.WeakLists.{names};

    /// The first weak link of its own that has a target, where `key` is its name.
    fn own_link(&self, key: Oid) -> Option<End>
        requires { length self.now.links.nodes ≡ length (names self.now) }
        ensures some { IfSome result (IsLinked key self.now) }
        ensures none { IfNone result (AllByRecursion (λ t. t ≡ None) (names self.now)) }
    {
        let at = linked_slot(&self.object)?;
        let node = self.node_at(at)?;
        Some(End {
            owner: key,
            id: node.id,
        })
    }

    /// A weak link that names it, or else one of its own that has a target, where `key` is its name.
    fn weak_end(&self, key: Oid) -> Option<End>
        requires { length self.now.links.nodes ≡ length (names self.now) }
        ensures some { IfSome result (IsWeakEnd key self.now) }
        ensures first { IfNone result (self.now.links.first ≡ None) }
        ensures none { IfNone result (AllByRecursion (λ t. t ≡ None) (names self.now)) }
    {
        match self.links.first() {
            Some(link) => Some(link),
            None => self.own_link(key),
        }
    }

    /// Lets its weak link of a number go.
    fn drop_link(&mut self, id: u64) -> Option<Loose>
        requires known { is_some (node_of self.old.links.nodes id) ≡ true }
        requires numbered { length self.old.links.nodes ≡ length (names self.old) }
        ensures { DropsLink id self.old self.new result }
    {
        let place = self.links.place_of(id)?;
        let at = weak_slot(&self.object, place)?;
        self.drop_at(at).loose
    }
}

impl Heap {
    ghost use Rattle.std.specs.Prelude.{◌≡◌, ◌+◌, ◌≤◌, true, false};
    ghost use Rattle.qo_heap.specs.Rows.{IsLive};
    ghost use Rattle.qo_heap.specs.WeakEnds.{LetGo, weak_ends};

    /// Lets a weak link go that names an object or is its own, and answers whether there was one.
    pub(crate) fn drop_weak_end<L: Ledger>(&mut self, o: Oid, steps: &mut Steps<L>) -> bool
        requires live { IsLive self.old.rows o }
        ensures dropped { result ≡ true → LetGo o.birth self.old self.new }
        ensures same { result ≡ false → self.new ≡ self.old }
        ensures none { result ≡ false → weak_ends o.birth self.old.rows ≡ 0 }
        ensures cost { result ≡ true → steps.new ≤ steps.old + 4 }
        ensures cost_none { result ≡ false → steps.new ≡ steps.old + 1 }
    {
        let Some(link) = self.table.look(o, steps).weak_end(o) else {
            return false;
        };
        let loose = entry_mut(&mut self.table, &self.order, link.owner, steps).drop_link(link.id);
        leave(&mut self.table, &self.order, loose, steps);
        true
    }
}
