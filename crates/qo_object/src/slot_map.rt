//! Slots by name, in the order of adding.

use crate::index::Names;
use crate::names::{Fingerprint, SlotName};
use crate::slots::{Slot, SlotView};
use qo_model::PropertyName;
use qo_slots::Key;
use qo_values::Val;
use std::alloc::{AllocError, Global};
use std::marker::Model;

/// An object has about so many slots, so that the first one makes room for as many.
const SLOTS_AT_FIRST: usize = 9;

/// Among up to so many slots a name is looked for by comparing it with each, which takes less than
/// its hash.
const COMPARED_MAX: usize = 12;

/// Slots by name, in the order of adding. No two have the same name.
#[derive(Drop)]
pub struct SlotMap {
    slots: Vec<(SlotName, Slot)>,
    /// Their names, where there are more than `COMPARED_MAX`. For want of memory there may be none;
    /// a name is then compared with each.
    index: Option<Names>,
}

impl Model for SlotMap {
    ghost use Rattle.std.specs.Prelude.{◌≡◌, List, ℕ, IfSome};
    ghost use Rattle.std.specs.List.{IsDistinct};
    ghost use Rattle.std.specs.Str.{bytes_eq};
    ghost use Rattle.qo_object.specs.Slots.{names_of};
    ghost use Rattle.qo_object.specs.declared.slots.Slot.{Slot};

    ghost Value = { List (List ℕ × Slot) };

    ghost view = { λ m. m.slots.items };

    ghost invariant = { λ m. IsDistinct bytes_eq (names_of m.slots.items) × IfSome m.index (λ names. names ≡ names_of m.slots.items) };
}

impl SlotMap {
    ghost use Rattle.std.specs.Prelude.{◌≡◌, ◌<◌, ℕ, List, [], ◌∷◌, ◌++◌, None, Ok, true, false, IfSome, IsSomeAnd, OnOk, OnErr, remove, length, count_by, position, slice_get, option_map, is_some};
    ghost use Rattle.std.specs.List.{list_any, IsDistinct};
    ghost use Rattle.std.specs.Option.{option_and_then};
    ghost use Rattle.std.specs.Str.{bytes_eq};
    ghost use Rattle.qo_model.specs.Devices.{kid_name};
    ghost use Rattle.qo_model.specs.RowNames.{property_name};
    ghost use Rattle.qo_object.specs.Slots.{names_of, has_name, slot_in, named_in, child_of, holds, names_child, names_weakly, changed_at, let_go_at, unlinked, pointed, with_val, forgotten_in};

    /// No slots.
    pub fn new(alloc: Global) -> SlotMap
        ensures { result ≡ [] }
    {
        SlotMap {
            slots: Vec::new(alloc),
            index: None,
        }
    }

    /// The slots of a vector, whose names differ. It takes no memory.
    pub fn from_vec(slots: Vec<(SlotName, Slot)>) -> SlotMap
        requires { IsDistinct bytes_eq (names_of slots.items) }
        ensures { result ≡ slots.items }
    {
        SlotMap { slots, index: None }
    }

    /// How many there are.
    pub fn len(&self) -> usize
        ensures { result ≡ length self.now }
    {
        self.slots.len()
    }

    /// The names differ.
    pub fn reveal_invariant(&self)
        ensures { IsDistinct bytes_eq (names_of self.now) }
    {
        let _len = self.slots.len();
    }

    /// The place of the slot of a name.
    pub fn find(&self, name: &str) -> Option<usize>
        ensures { result ≡ position (λ s. bytes_eq name.now s.0) self.now }
    {
        match &self.index {
            Some(names) => names.find(name),
            None => {
                let fingerprint = Fingerprint::of(name);
                self.slots
                    .iter()
                    .position(|slot| slot.0.is(name, fingerprint))
            }
        }
    }

    /// The place of the slot of a property in a row.
    pub fn find_row(&self, name: PropertyName) -> Option<usize>
        ensures { result ≡ position (λ s. bytes_eq (property_name name) s.0) self.now }
    {
        match &self.index {
            Some(names) => names.find(name.as_str()),
            None => self.slots.iter().position(|slot| slot.0.is_row(name)),
        }
    }

    /// The place of the link of a bus to the kid in a slot.
    pub fn find_kid(&self, slot: u8) -> Option<usize>
        ensures { result ≡ position (λ s. bytes_eq (kid_name slot) s.0) self.now }
    {
        self.slots.iter().position(|named| named.0.is_kid(slot))
    }

    /// Whether there is a slot of a name.
    pub fn has(&self, name: &str) -> bool
        ensures { result ≡ has_name name.now self.now }
    {
        self.find(name).is_some()
    }

    /// The slot at a place; None past the end.
    pub fn slot_at(&self, at: usize) -> Option<SlotView<'_>>
        ensures slot { option_map (λ v. (v.name.now, v.what.now)) result ≡ slice_get self.now at }
        ensures at { IfSome result (λ v. v.at ≡ at) }
    {
        let slot = self.slots.get(at)?;
        Some(SlotView {
            at,
            name: slot.0.as_str(),
            what: &slot.1,
        })
    }

    /// What stands in the slot at a place; None past the end.
    pub fn what_at(&self, at: usize) -> Option<&Slot>
        ensures { option_map (λ s. s.now) result ≡ slot_in self.now at }
    {
        let slot = self.slots.get(at)?;
        Some(&slot.1)
    }

    /// Makes room for the first slots at once, where there is none yet. It adds nothing.
    fn make_room(&mut self) -> Result<(), AllocError>
        ensures same { self.new ≡ self.old }
    {
        if self.slots.is_empty() {
            self.slots.reserve(SLOTS_AT_FIRST)?;
        }
        Ok(())
    }

    /// The names, which are no more kept if they were, and are else gathered; None where memory wants.
    fn take_names(&mut self) -> Option<Names>
        ensures same { self.new ≡ self.old }
        ensures names { IfSome result (λ names. names ≡ names_of self.old) }
    {
        match self.index.take() {
            Some(names) => Some(names),
            None => Names::of(self.slots.as_slice(), *self.slots.allocator()).ok(),
        }
    }

    /// The names with one more, where there is memory.
    fn names_with(&mut self, name: &str) -> Option<Names>
        requires { has_name name.now self.old ≡ false }
        ensures same { self.new ≡ self.old }
        ensures names { IfSome result (λ names. names ≡ names_of self.old ++ name.now ∷ []) }
    {
        let mut names = self.take_names()?;
        names.add(name).ok()?;
        Some(names)
    }

    /// Adds a slot under a name that no other has, after the others, and keeps no names. An error adds
    /// nothing.
    #[inline(always)]
    fn add_unindexed(&mut self, name: SlotName, slot: Slot) -> Result<(), AllocError>
        requires { has_name name self.old ≡ false }
        ensures added { OnOk result (self.new ≡ self.old ++ (name, slot) ∷ []) }
        ensures err { OnErr result (self.new ≡ self.old) }
    {
        self.index = None;
        self.slots.push((name, slot))?;
        Ok(())
    }

    /// Adds a slot under a name that no other has, after the others, with its name to those that are kept.
    /// An error adds nothing.
    fn add_indexed(&mut self, name: SlotName, slot: Slot) -> Result<(), AllocError>
        requires { has_name name self.old ≡ false }
        ensures added { OnOk result (self.new ≡ self.old ++ (name, slot) ∷ []) }
        ensures err { OnErr result (self.new ≡ self.old) }
    {
        let index = self.names_with(name.as_str());
        self.slots.push((name, slot))?;
        self.index = index;
        Ok(())
    }

    /// Adds a slot under a name, after the others, unless there is one of that name, which then stays.
    /// It answers whether it was added. An error adds nothing.
    #[inline(always)]
    pub fn add(&mut self, name: SlotName, slot: Slot) -> Result<bool, AllocError>
        ensures added { result ≡ Ok true → (has_name name self.old ≡ false) × (self.new ≡ self.old ++ (name, slot) ∷ []) }
        ensures there { result ≡ Ok false → (has_name name self.old ≡ true) × (self.new ≡ self.old) }
        ensures absent { OnErr result (has_name name self.old ≡ false) }
        ensures err { OnErr result (self.new ≡ self.old) }
    {
        if self.has(name.as_str()) {
            return Ok(false);
        }
        self.make_room()?;
        if self.slots.len() < COMPARED_MAX {
            self.add_unindexed(name, slot)?;
        } else {
            self.add_indexed(name, slot)?;
        }
        Ok(true)
    }

    /// Removes the slot at a place; past the end there is none.
    #[inline(always)]
    pub fn remove(&mut self, at: usize)
        ensures { self.new ≡ remove self.old at }
    {
        if at >= self.slots.len() {
            return;
        }
        self.slots.remove(at);
        if let Some(names) = &mut self.index {
            names.remove(at);
        }
    }

    /// The child at a place.
    fn child_at(&self, at: usize) -> Option<Key>
        ensures { result ≡ option_and_then child_of (slot_in self.now at) }
    {
        let Some(slot) = self.slot_at(at) else {
            return None;
        };
        slot.what.child()
    }

    /// Takes the target out of the link at a place.
    fn unlink(&mut self, at: usize) -> Option<Key>
        requires { option_and_then child_of (slot_in self.old at) ≡ None }
        ensures now { self.new ≡ changed_at unlinked at self.old }
        ensures answer { result ≡ named_in self.old at }
    {
        if at >= self.slots.len() {
            return None;
        }
        self.slots[at].1.unlink()
    }

    /// Lets the slot at a place go, and answers what it named.
    pub fn empty(&mut self, at: usize) -> Option<Key>
        ensures now { self.new ≡ let_go_at at self.old }
        ensures answer { result ≡ named_in self.old at }
    {
        if let Some(child) = self.child_at(at) {
            self.remove(at);
            return Some(child);
        }
        self.unlink(at)
    }

    /// Points the link at a place.
    pub fn point(&mut self, at: usize, target: Key)
        ensures { self.new ≡ changed_at (pointed target) at self.old }
    {
        if at < self.slots.len() {
            self.slots[at].1.point(target);
        }
    }

    /// Gives the plain slot at a place a value.
    pub fn set(&mut self, at: usize, val: Val)
        ensures { self.new ≡ changed_at (with_val val) at self.old }
    {
        if at < self.slots.len() {
            self.slots[at].1.set(val);
        }
    }

    /// Empties the slot at a place, where it is a weak link to the object of a birth.
    pub fn forget(&mut self, at: usize, birth: u64)
        ensures { self.new ≡ changed_at (forgotten_in birth) at self.old }
    {
        if at < self.slots.len() {
            self.slots[at].1.forget(birth);
        }
    }

    /// How many hold the object of a birth.
    pub fn holding(&self, birth: u64) -> usize
        ensures { result ≡ count_by (λ s. holds birth s.1) self.now }
    {
        self.slots.iter().filter(|slot| slot.1.holds(birth)).count()
    }

    /// Whether one holds the object of a birth.
    pub fn is_holder(&self, birth: u64) -> bool
        ensures { result ≡ list_any (λ s. holds birth s.1) self.now }
    {
        self.slots.iter().any(|slot| slot.1.holds(birth))
    }

    /// Whether one has the object of a birth as a child.
    pub fn is_parent(&self, birth: u64) -> bool
        ensures { result ≡ list_any (λ s. names_child birth s.1) self.now }
    {
        self.slots.iter().any(|slot| slot.1.names_child(birth))
    }

    /// Whether one is a weak link to the object of a birth.
    pub fn names_weakly(&self, birth: u64) -> bool
        ensures { result ≡ list_any (λ s. names_weakly birth s.1) self.now }
    {
        self.slots.iter().any(|slot| slot.1.names_weakly(birth))
    }

    /// A place of one that has the object of a birth as a child, sought by halves. One that is there is
    /// found where births rise along the children, which stand after all other slots. Elsewhere it may
    /// be missed.
    pub fn child_sought(&self, birth: u64) -> Option<usize>
        ensures { IfSome result (λ at. IsSomeAnd (slot_in self.now at) (λ s. names_child birth s ≡ true)) }
    {
        let at = self.slots.as_slice().partition_point(|slot| match &slot.1 {
            Slot::Child(child) => child.birth < birth,
            _ => true,
        });
        let found = self.slots.get(at)?;
        if found.1.names_child(birth) {
            Some(at)
        } else {
            None
        }
    }

    /// The first place of one that has the object of a birth as a child.
    pub fn child_place(&self, birth: u64) -> Option<usize>
        ensures { result ≡ position (λ s. names_child birth s.1) self.now }
    {
        self.slots.iter().position(|slot| slot.1.names_child(birth))
    }
}
