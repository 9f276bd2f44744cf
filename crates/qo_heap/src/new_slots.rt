//! Slots for an object that has none yet.

ghost use Rattle.std.specs.Prelude.{◌≡◌, ◌≤◌, OnOk, length};
ghost use Rattle.qo_object.specs.Slots.{weak_target};
ghost use Rattle.qo_heap.specs.Furnishing.{IsSplit, refilled, unnamed};

use crate::weak_links::WeakLinks;
use crate::weak_slots::weak_target;
use qo_object::{Oid, Slot, SlotName};
use std::alloc::{AllocError, Global};
use std::marker::Model;

/// Slots for an object that has none yet, with the memory for what is kept of its weak links.
#[derive(Drop)]
pub struct NewSlots {
    /// The slots; the weak links among them have no targets yet.
    pub(crate) slots: Vec<(SlotName, Slot)>,
    /// What each of them names, where it is a weak link, up to the last one that names something.
    pub(crate) targets: Vec<Option<Oid>>,
    /// A node for each weak link.
    pub(crate) links: WeakLinks,
}

impl Model for NewSlots {
    ghost use Rattle.std.specs.Prelude.{◌≡◌, List, length};
    ghost use Rattle.qo_object.specs.Slots.{Named};
    ghost use Rattle.qo_heap.specs.Furnishing.{IsSplit, refilled};
    ghost use Rattle.qo_heap.specs.WeakLinks.{NumbersRise, weak_names};

    ghost Value = { List Named };

    ghost view = { λ n. refilled n.targets.items n.slots.items };

    ghost invariant = { λ n. IsSplit n.targets.items n.slots.items × ((length n.links.nodes ≡ length (weak_names n.slots.items)) × NumbersRise n.links.nodes) };
}

/// A slot without its target, and the target, where it is a weak link.
fn without_target(slot: Slot) -> (Slot, Option<Oid>)
    ensures slot { result.0 ≡ unnamed slot }
    ensures target { result.1 ≡ weak_target slot }
{
    match slot {
        Slot::Link {
            ty,
            strong: false,
            target,
        } => (
            Slot::Link {
                ty,
                strong: false,
                target: None,
            },
            target,
        ),
        other => (other, None),
    }
}

/// Adds nothing as what slots name, up to the last of them. An error may have added it for some of them.
fn pad(targets: &mut Vec<Option<Oid>>, slots: &[(SlotName, Slot)]) -> Result<(), AllocError>
    requires { IsSplit targets.old.items slots.now }
    ensures split { IsSplit targets.new.items slots.now }
    ensures same { refilled targets.new.items slots.now ≡ refilled targets.old.items slots.now }
    ensures long { OnOk result (length slots.now ≤ length targets.new.items) }
{
    while targets.len() < slots.len() {
        targets.push(None)?;
    }
    Ok(())
}

impl NewSlots {
    ghost use Rattle.std.specs.Prelude.{◌≡◌, [], ◌∷◌, ◌++◌, None, IfOk, OnOk};
    ghost use Rattle.qo_object.specs.Slots.{weak_target};

    /// No slots, and room for so many. The error is want of memory.
    pub fn with_capacity(alloc: Global, capacity: usize) -> Result<NewSlots, AllocError>
        ensures { IfOk result (λ slots. slots ≡ []) }
    {
        Ok(NewSlots {
            slots: Vec::with_capacity(alloc, capacity)?,
            targets: Vec::new(alloc),
            links: WeakLinks::new(alloc),
        })
    }

    /// Adds a slot after the others. The error is want of memory.
    #[inline(always)]
    pub fn push(&mut self, name: SlotName, slot: Slot) -> Result<(), AllocError>
        ensures { OnOk result (self.new ≡ self.old ++ (name, slot) ∷ []) }
    {
        match weak_target(&slot) {
            None => self.push_unlinked(name, slot),
            Some(_) => self.push_linked(name, slot),
        }
    }

    /// Adds a slot that is no weak link with a target.
    #[inline(always)]
    fn push_unlinked(&mut self, name: SlotName, slot: Slot) -> Result<(), AllocError>
        requires { weak_target slot ≡ None }
        ensures { OnOk result (self.new ≡ self.old ++ (name, slot) ∷ []) }
    {
        self.slots.reserve(1)?;
        self.links.add_for(&slot)?;
        self.slots.push_reserved((name, slot));
        Ok(())
    }

    /// Adds a slot, with what it names.
    fn push_linked(&mut self, name: SlotName, slot: Slot) -> Result<(), AllocError>
        ensures { OnOk result (self.new ≡ self.old ++ (name, slot) ∷ []) }
    {
        pad(&mut self.targets, &self.slots)?;
        self.slots.reserve(1)?;
        self.targets.reserve(1)?;
        self.links.add_for(&slot)?;
        let (slot, target) = without_target(slot);
        self.targets.push_reserved(target);
        self.slots.push_reserved((name, slot));
        Ok(())
    }
}
