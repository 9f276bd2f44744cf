//! Adding slots to an object of the heap.

ghost use Rattle.std.specs.Prelude.{◌≡◌, slice_get};
ghost use Rattle.std.specs.Option.{option_and_then};

use crate::entries::{add_hold, add_holds, entry_mut, hold_of};
use crate::errors::SlotError;
use crate::heap::Heap;
use crate::new_slots::NewSlots;
use crate::weak_links::WeakLinks;
use crate::weak_lists::join;
use crate::weak_slots::weak_target;
use qo_object::{Oid, Slot, SlotName};
use qo_slots::Steps;
use qo_values::{TypeId, Val};
use std::sync::ledger::Ledger;

/// What the weak link at a place of a list is to name.
fn target_in(targets: &[Option<Oid>], at: usize) -> Option<Oid>
    ensures { result ≡ option_and_then (λ t. t) (slice_get targets.now at) }
{
    let target = targets.get(at)?;
    *target
}

impl Heap {
    ghost use Rattle.std.specs.Prelude.{◌≡◌, ◌≢◌, ◌+◌, ◌≤◌, ◌^◌, true, false, [], Err, None, Some, IfSome, OnOk, OnErr, filter_map, is_some, length, option_map};
    ghost use Rattle.std.specs.List.{AllByRecursion, IsDistinct};
    ghost use Rattle.std.specs.Str.{bytes_eq};
    ghost use Rattle.qo_object.specs.Content.{empty_link_at, pointed_at, with_all_slots, with_slot};
    ghost use Rattle.qo_object.specs.Slots.{child_of, has_name, names_of, target_of, weak_target};
    ghost use Rattle.qo_object.specs.declared.slots.Slot.TheVariants.{Plain, Child, Link, Alias};
    ghost use Rattle.qo_heap.specs.Rows.{IsLive};
    ghost use Rattle.qo_heap.specs.Objects.{content_of, parent_of, slots_of, with_edit};
    ghost use Rattle.qo_heap.specs.WeakLinks.{NumbersRise, weak_names};
    ghost use Rattle.qo_heap.specs.declared.errors.SlotError.TheVariants.{Duplicate, HasParent, Memory};

    /// Adds a slot to an object, after the others. What it names must be there, and a child have no parent.
    #[inline(always)]
    fn add<L: Ledger>(
        &mut self,
        o: Oid,
        name: SlotName,
        slot: Slot,
        steps: &mut Steps<L>,
    ) -> Result<(), SlotError>
        requires live { IsLive self.old.rows o }
        requires target { IfSome (target_of slot) (IsLive self.old.rows) }
        requires free { IfSome (child_of slot) (λ child. parent_of self.old child.birth ≡ None) }
        ensures added { OnOk result (self.new ≡ with_edit o.birth (with_slot name slot) self.old) }
        ensures absent { OnOk result (has_name name (slots_of self.old o.birth) ≡ false) }
        ensures duplicate { result ≡ Err Duplicate → has_name name (slots_of self.old o.birth) ≡ true }
        ensures memory { result ≡ Err Memory → has_name name (slots_of self.old o.birth) ≡ false }
        ensures parent { result ≢ Err HasParent }
        ensures err { OnErr result (self.new ≡ self.old) }
        ensures cost { steps.new ≤ steps.old + 4 }
        ensures cost_held { weak_target slot ≡ None → steps.new ≤ steps.old + 2 }
    {
        let hold = hold_of(&slot);
        let target = weak_target(&slot);
        let id = entry_mut(&mut self.table, &self.order, o, steps).add_slot(name, slot)?;
        add_hold(&mut self.table, &self.order, hold, o, steps);
        join(&mut self.table, &self.order, o, id, target, steps);
        Ok(())
    }

    /// Adds a plain property with its value. `Duplicate` comes exactly
    /// where the object has a slot of that name. An error leaves the heap as it was.
    pub fn add_plain<L: Ledger>(
        &mut self,
        o: Oid,
        name: SlotName,
        val: Val,
        steps: &mut Steps<L>,
    ) -> Result<(), SlotError>
        requires live { IsLive self.old.rows o }
        ensures added { OnOk result (self.new ≡ with_edit o.birth (with_slot name (Plain val)) self.old) }
        ensures absent { OnOk result (has_name name (slots_of self.old o.birth) ≡ false) }
        ensures duplicate { result ≡ Err Duplicate → has_name name (slots_of self.old o.birth) ≡ true }
        ensures memory { result ≡ Err Memory → has_name name (slots_of self.old o.birth) ≡ false }
        ensures parent { result ≢ Err HasParent }
        ensures err { OnErr result (self.new ≡ self.old) }
        ensures cost { steps.new ≤ steps.old + 4 }
    {
        self.add(o, name, Slot::Plain(val), steps)
    }

    /// Adds a child slot. `Duplicate` comes exactly where the owner has a slot of that name, else
    /// `HasParent` exactly where the child has a parent. An error leaves the heap as it was.
    #[inline(always)]
    pub fn add_child<L: Ledger>(
        &mut self,
        o: Oid,
        name: SlotName,
        child: Oid,
        steps: &mut Steps<L>,
    ) -> Result<(), SlotError>
        requires live { IsLive self.old.rows o }
        requires target { IsLive self.old.rows child }
        ensures added { OnOk result (self.new ≡ with_edit o.birth (with_slot name (Child child)) self.old) }
        ensures absent { OnOk result (has_name name (slots_of self.old o.birth) ≡ false) }
        ensures free { OnOk result (parent_of self.old child.birth ≡ None) }
        ensures duplicate { result ≡ Err Duplicate → has_name name (slots_of self.old o.birth) ≡ true }
        ensures parent { result ≡ Err HasParent → (has_name name (slots_of self.old o.birth) ≡ false) × (is_some (parent_of self.old child.birth) ≡ true) }
        ensures memory { result ≡ Err Memory → (has_name name (slots_of self.old o.birth) ≡ false) × (parent_of self.old child.birth ≡ None) }
        ensures err { OnErr result (self.new ≡ self.old) }
        ensures cost { steps.new ≤ steps.old + 3 }
    {
        if self.entry(child, steps).parent.is_none() {
            return self.add(o, name, Slot::Child(child), steps);
        }
        if self.slot(o, name.as_str(), steps).is_some() {
            return Err(SlotError::Duplicate);
        }
        Err(SlotError::HasParent)
    }

    /// Adds a link to objects of a type, which keeps its target alive where it is strong. `Duplicate`
    /// comes exactly where the owner has a slot of that name. An error leaves the heap as it was.
    #[inline(always)]
    pub fn add_link<L: Ledger>(
        &mut self,
        o: Oid,
        name: SlotName,
        ty: TypeId,
        strong: bool,
        target: Option<Oid>,
        steps: &mut Steps<L>,
    ) -> Result<(), SlotError>
        requires live { IsLive self.old.rows o }
        requires target { IfSome target (IsLive self.old.rows) }
        ensures added { OnOk result (self.new ≡ with_edit o.birth (with_slot name (Link ty strong target)) self.old) }
        ensures absent { OnOk result (has_name name (slots_of self.old o.birth) ≡ false) }
        ensures duplicate { result ≡ Err Duplicate → has_name name (slots_of self.old o.birth) ≡ true }
        ensures memory { result ≡ Err Memory → has_name name (slots_of self.old o.birth) ≡ false }
        ensures parent { result ≢ Err HasParent }
        ensures err { OnErr result (self.new ≡ self.old) }
        ensures cost { steps.new ≤ steps.old + 4 }
    {
        self.add(o, name, Slot::Link { ty, strong, target }, steps)
    }

    /// Adds another name for the property `of` of an object. `Duplicate` comes exactly where the
    /// owner has a slot of that name. An error leaves the heap as it was.
    pub fn add_alias<L: Ledger>(
        &mut self,
        o: Oid,
        name: SlotName,
        target: Oid,
        of: SlotName,
        steps: &mut Steps<L>,
    ) -> Result<(), SlotError>
        requires live { IsLive self.old.rows o }
        ensures added { OnOk result (self.new ≡ with_edit o.birth (with_slot name (Alias target of)) self.old) }
        ensures absent { OnOk result (has_name name (slots_of self.old o.birth) ≡ false) }
        ensures duplicate { result ≡ Err Duplicate → has_name name (slots_of self.old o.birth) ≡ true }
        ensures memory { result ≡ Err Memory → has_name name (slots_of self.old o.birth) ≡ false }
        ensures parent { result ≢ Err HasParent }
        ensures err { OnErr result (self.new ≡ self.old) }
        ensures cost { steps.new ≤ steps.old + 4 }
    {
        self.add(o, name, Slot::Alias(target, of), steps)
    }

    /// Gives an object these slots, of which no weak link has a target, and nodes for the weak links.
    fn furnish<L: Ledger>(
        &mut self,
        o: Oid,
        slots: Vec<(SlotName, Slot)>,
        links: WeakLinks,
        steps: &mut Steps<L>,
    )
        requires live { IsLive self.old.rows o }
        requires targets { AllByRecursion (IsLive self.old.rows) (filter_map (λ s. target_of s.1) slots.items) }
        requires differ { IsDistinct bytes_eq (names_of slots.items) }
        requires few { length slots.items ≤ 2 ^ 32 }
        requires bare { slots_of self.old o.birth ≡ [] }
        requires childless { AllByRecursion (λ s. child_of s.1 ≡ None) slots.items }
        requires empty { AllByRecursion (λ s. weak_target s.1 ≡ None) slots.items }
        requires numbered { length links.nodes ≡ length (weak_names slots.items) }
        requires rising { NumbersRise links.nodes }
        ensures { self.new ≡ with_edit o.birth (with_all_slots slots.items) self.old }
    {
        add_holds(&mut self.table, &self.order, slots.as_slice(), o, steps);
        entry_mut(&mut self.table, &self.order, o, steps).furnish(slots, links);
    }

    /// Points the link at a place, which has no target, at an object, if there is one.
    fn point_if<L: Ledger>(&mut self, o: Oid, at: usize, target: Option<Oid>, steps: &mut Steps<L>)
        requires live { IsLive self.old.rows o }
        requires target { IfSome target (IsLive self.old.rows) }
        requires link { IfSome target (λ t. option_map (λ c. empty_link_at c at) (content_of self.old o.birth) ≡ Some true) }
        ensures some { IfSome target (λ t. self.new ≡ with_edit o.birth (pointed_at t at) self.old) }
        ensures none { target ≡ None → self.new ≡ self.old }
    {
        if let Some(target) = target {
            self.point(o, at, target, steps);
        }
    }

    /// Gives an object these slots, whose names differ; it must have none, and none of these be a
    /// child slot. What they name must be there. It takes no memory.
    #[inline(always)]
    pub fn set_slots<L: Ledger>(&mut self, o: Oid, slots: NewSlots, steps: &mut Steps<L>)
        requires live { IsLive self.old.rows o }
        requires targets { AllByRecursion (IsLive self.old.rows) (filter_map (λ s. target_of s.1) slots) }
        requires differ { IsDistinct bytes_eq (names_of slots) }
        requires few { length slots ≤ 2 ^ 32 }
        requires bare { slots_of self.old o.birth ≡ [] }
        requires childless { AllByRecursion (λ s. child_of s.1 ≡ None) slots }
        ensures { self.new ≡ with_edit o.birth (with_all_slots slots) self.old }
    {
        let NewSlots {
            slots,
            targets,
            links,
        } = slots;
        self.furnish(o, slots, links, steps);
        for at in 0..targets.len() {
            self.point_if(o, at, target_in(targets.as_slice(), at), steps);
        }
    }
}
