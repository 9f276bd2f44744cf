//! An object in the table, with what is kept of it: how many slots hold it, and its parent. Of these
//! calls `add_object` alone takes memory.

ghost use Rattle.std.specs.Prelude.{◌≡◌, ◌+◌, ◌<◌, ◌≤◌, ◌^◌, if◌then◌else◌, true, false, [], ◌∷◌, ◌++◌, length, Some, Err, IfOk, IfErr, IfSome, OnOk, OnErr, is_some, option_map, option_to_list};
ghost use Rattle.std.specs.List.{AllByRecursion, IsDistinct};
ghost use Rattle.std.specs.Str.{bytes_eq};
ghost use Rattle.std.specs.Borrow.{sem};
ghost use Rattle.qo_object.specs.Content.{cut_at, dropped_at, empty_link_at, named_at, pointed_at, with_all_slots, with_slot};
ghost use Rattle.qo_object.specs.Slots.{has_name, names_of, target_of};
ghost use Rattle.qo_heap.specs.Keeping.{all_less, all_more, hold_at, hold_of, holds_in, less_held, more_held, plain, unheld, with_object};
ghost use Rattle.qo_heap.specs.Loans.{lends_entry};
ghost use Rattle.qo_heap.specs.Order.{rows_in, IsOrdered};
ghost use Rattle.qo_heap.specs.Rows.{IsLive, object_at, without};
ghost use Rattle.qo_heap.specs.WeakLists.{added_links, cut_links, loose_at, loose_of, node_at, with_links};
ghost use Rattle.qo_heap.specs.WeakLinks.{NumbersRise, weak_name, with_nodes};
ghost use Rattle.qo_object.specs.declared.errors.AddError.TheVariants.{Duplicate, Memory};

use crate::table::{add, change, take};
use crate::weak_links::{Node, WeakLinks};
use crate::weak_slots::{is_weak, weak_place};
use qo_object::{AddError, Object, Oid, Slot, SlotName};
use qo_slots::{Arena, Steps};
use std::alloc::Global;
use std::sync::ledger::Ledger;

/// An object in the table, with what is kept of it.
pub struct Entry {
    /// The object.
    pub object: Object,
    /// How many child slots and strong links of objects of the table name it.
    pub held: u64,
    /// The object whose child slot names it.
    pub parent: Option<Oid>,
    /// What is kept of weak links: of those that name it, and of its own.
    pub links: WeakLinks,
}

/// An object that a slot holds.
#[derive(Clone, Copy)]
pub struct Hold {
    /// The object.
    pub key: Oid,
    /// Whether a child slot holds it, and not a strong link.
    pub child: bool,
}

/// What a slot named and held that was let go.
#[derive(Clone, Copy)]
pub struct Dropped {
    /// The object that it named.
    pub named: Option<Oid>,
    /// What it held.
    pub hold: Option<Hold>,
    /// What it is of a list of weak links.
    pub loose: Option<Loose>,
}

/// A weak link that was let go: the object that it named, and where it stood in the list of those that
/// name it.
#[derive(Clone, Copy)]
pub struct Loose {
    /// The object that it named.
    pub target: Oid,
    /// Where it stood.
    pub node: Node,
}

/// What a link holds that was pointed, and its number where it is a weak one.
#[derive(Clone, Copy)]
pub struct Pointed {
    /// What it holds.
    pub hold: Option<Hold>,
    /// Its number among the weak links of its owner.
    pub id: Option<u64>,
}

/// What a slot holds.
pub fn hold_of(slot: &Slot) -> Option<Hold>
    ensures { result ≡ hold_of slot.now }
{
    match slot {
        Slot::Child(key) => Some(Hold {
            key: *key,
            child: true,
        }),
        Slot::Link {
            strong: true,
            target: Some(key),
            ..
        } => Some(Hold {
            key: *key,
            child: false,
        }),
        _ => None,
    }
}

/// What the slot at a place of a list holds.
fn hold_in(slots: &[(SlotName, Slot)], at: usize) -> Option<Hold>
    ensures { result ≡ hold_at slots.now at }
{
    let slot = slots.get(at)?;
    hold_of(&slot.1)
}

/// A weak link that named an object, if it did, and stood there.
fn loose_of(named: Option<Oid>, node: Option<Node>) -> Option<Loose>
    ensures { result ≡ loose_of named node }
{
    Some(Loose {
        target: named?,
        node: node?,
    })
}

impl Entry {
    /// An object that no slot holds yet.
    pub fn new(alloc: Global, object: Object) -> Entry
        ensures { result ≡ unheld object }
    {
        Entry {
            object,
            held: 0,
            parent: None,
            links: WeakLinks::new(alloc),
        }
    }

    /// The object alone.
    pub fn into_object(self) -> Object
        ensures { result ≡ self.object }
    {
        let Entry {
            object,
            held: _,
            parent: _,
            links: _,
        } = self;
        object
    }

    /// What its slot at a place holds.
    fn hold_at(&self, at: usize) -> Option<Hold>
        ensures { result ≡ hold_at self.now.object.slots at }
    {
        hold_of(self.object.what_at(at)?)
    }

    /// Where its weak link at a place stands, if there is one.
    pub fn node_at(&self, at: usize) -> Option<Node>
        ensures { result ≡ node_at self.now at }
    {
        let place = weak_place(&self.object, at)?;
        self.links.node_at(place)
    }

    /// Lets its slot at a place go.
    #[inline(always)]
    pub fn drop_at(&mut self, at: usize) -> Dropped
        ensures now { self.new ≡ with_object (dropped_at at) self.old }
        ensures named { result.named ≡ named_at self.old.object at }
        ensures hold { result.hold ≡ hold_at self.old.object.slots at }
        ensures loose { result.loose ≡ loose_at self.old at }
    {
        let hold = self.hold_at(at);
        let node = self.node_at(at);
        let named = self.object.empty(at);
        Dropped {
            named,
            hold,
            loose: loose_of(named, node),
        }
    }

    /// Points its link at a place, which has no target, at an object, and answers what it holds then.
    pub fn point_at(&mut self, at: usize, target: Oid) -> Pointed
        requires { empty_link_at self.old.object at ≡ true }
        ensures now { self.new ≡ with_object (pointed_at target at) self.old }
        ensures hold { result.hold ≡ hold_at self.new.object.slots at }
        ensures id { result.id ≡ option_map (λ x. x.id) (node_at self.old at) }
    {
        let id = match self.node_at(at) {
            Some(node) => Some(node.id),
            None => None,
        };
        self.object.point(at, target);
        Pointed {
            hold: self.hold_at(at),
            id,
        }
    }

    /// Removes its link at a place, which has no target.
    pub fn cut_at(&mut self, at: usize)
        requires { empty_link_at self.old.object at ≡ true }
        ensures { self.new ≡ with_links (cut_links at self.old) (with_object (cut_at at) self.old) }
    {
        let place = weak_place(&self.object, at);
        self.object.cut(at);
        if let Some(place) = place {
            self.links.remove(place);
        }
    }

    /// Adds a slot after the others. The answer is the number of a weak link. `Duplicate` comes exactly
    /// where there is a slot of that name; `Memory` where memory runs out. An error leaves all as it was.
    #[inline(always)]
    pub fn add_slot(&mut self, name: SlotName, slot: Slot) -> Result<Option<u64>, AddError>
        requires { NumbersRise self.old.links.nodes }
        ensures added { IfOk result (λ id. self.new ≡ with_links (added_links id self.old.links) (with_object (with_slot name slot) self.old)) }
        ensures id { IfOk result (λ id. is_some id ≡ is_some (weak_name slot)) }
        ensures above { IfOk result (λ id. IfSome id (λ k. AllByRecursion (λ x. x.id < k) self.old.links.nodes)) }
        ensures absent { OnOk result (has_name name self.old.object.slots ≡ false) }
        ensures room { OnOk result (length self.old.object.slots < 2 ^ 32) }
        ensures duplicate { result ≡ Err Duplicate → has_name name self.old.object.slots ≡ true }
        ensures memory { result ≡ Err Memory → has_name name self.old.object.slots ≡ false }
        ensures err { OnErr result (self.new ≡ self.old) }
    {
        if !is_weak(&slot) {
            self.object.add(name, slot)?;
            return Ok(None);
        }
        let Some(id) = self.links.add() else {
            return Err(self.refused(&name));
        };
        match self.object.add(name, slot) {
            Ok(()) => Ok(Some(id)),
            Err(error) => {
                self.links.remove_last();
                Err(error)
            }
        }
    }

    /// Gives it these slots, whose names differ, and nodes for the weak links among them.
    pub fn furnish(&mut self, slots: Vec<(SlotName, Slot)>, links: WeakLinks)
        requires differ { IsDistinct bytes_eq (names_of slots.items) }
        requires few { length slots.items ≤ 2 ^ 32 }
        ensures { self.new ≡ with_links (with_nodes links.nodes self.old.links) (with_object (with_all_slots slots.items) self.old) }
    {
        self.object.set_slots(slots);
        self.links.set_nodes(links);
    }

    /// Why a slot of a name is not added, where there is no memory.
    fn refused(&self, name: &SlotName) -> AddError
        ensures { result ≡ (if has_name name.now self.now.object.slots then Duplicate else Memory) }
    {
        if self.object.find(name.as_str()).is_some() {
            AddError::Duplicate
        } else {
            AddError::Memory
        }
    }

    /// A slot of an owner more holds it, where `child` says whether as its child.
    fn gain(&mut self, child: bool, owner: Oid)
        requires { self.old.held < 2 ^ 63 }
        ensures { self.new ≡ more_held child owner self.old }
    {
        self.held += 1;
        if child {
            self.parent = Some(owner);
        }
    }

    /// A slot less holds it, where `child` says whether as a child.
    fn lose(&mut self, child: bool)
        requires { 0 < self.old.held }
        ensures { self.new ≡ less_held child self.old }
    {
        self.held -= 1;
        if child {
            self.parent = None;
        }
    }
}

/// A live object with what is kept of it, for writing.
pub fn entry_mut<'a, L: Ledger>(
    table: &'a mut Arena<Entry>,
    order: &Vec<Oid>,
    key: Oid,
    steps: &mut Steps<L>,
) -> &'a mut Entry
    requires ordered { IsOrdered table.old order.now.items }
    requires live { IsLive (plain (rows_in table.old order.now.items)) key }
    ensures* writes_back { sem 𝓛 (lends_entry table.entry key result) }
    ensures kept { object_at (rows_in table.old order.now.items) key.birth ≡ Some result.now }
    ensures object { object_at (plain (rows_in table.old order.now.items)) key.birth ≡ Some result.now.object }
    ensures cost { steps.new ≡ steps.old + 1 }
{
    change(table, order, key, steps)
}

/// Adds an object under a new name, of the next birth. The error gives the object back, for want of
/// memory or where no birth is left below 2^64; the objects are then as before.
pub fn add_object<L: Ledger>(
    table: &mut Arena<Entry>,
    order: &mut Vec<Oid>,
    alloc: Global,
    object: Object,
    steps: &mut Steps<L>,
) -> Result<Oid, Object>
    requires { IsOrdered table.old order.old.items }
    ensures ordered { IsOrdered table.new order.new.items }
    ensures added { IfOk result (λ key. (key.birth ≡ table.old.born + 1) × ((plain (rows_in table.new order.new.items) ≡ plain (rows_in table.old order.old.items) ++ (key, object) ∷ []) × (table.new.born ≡ table.old.born + 1))) }
    ensures kept { IfOk result (λ key. rows_in table.new order.new.items ≡ rows_in table.old order.old.items ++ (key, unheld object) ∷ []) }
    ensures refused { IfErr result (λ back. (back ≡ object) × ((rows_in table.new order.new.items ≡ rows_in table.old order.old.items) × (table.new.born ≡ table.old.born))) }
    ensures cost { OnOk result (steps.new ≡ steps.old + 1) }
{
    match add(table, order, Entry::new(alloc, object), steps) {
        Ok(key) => Ok(key),
        Err(entry) => Err(entry.into_object()),
    }
}

/// Takes the object of a live name out; its birth is not given again. It takes no memory.
pub fn take_object<L: Ledger>(
    table: &mut Arena<Entry>,
    order: &mut Vec<Oid>,
    key: Oid,
    steps: &mut Steps<L>,
) -> Object
    requires ordered { IsOrdered table.old order.old.items }
    requires live { IsLive (plain (rows_in table.old order.old.items)) key }
    ensures ordered { IsOrdered table.new order.new.items }
    ensures object { object_at (plain (rows_in table.old order.old.items)) key.birth ≡ Some result }
    ensures rest { plain (rows_in table.new order.new.items) ≡ without key.birth (plain (rows_in table.old order.old.items)) }
    ensures kept { rows_in table.new order.new.items ≡ without key.birth (rows_in table.old order.old.items) }
    ensures born { table.new.born ≡ table.old.born }
    ensures cost { steps.new ≡ steps.old + 1 }
{
    take(table, order, key, steps).into_object()
}

/// Keeps that a slot of an owner more holds an object, if it holds one.
pub fn add_hold<L: Ledger>(
    table: &mut Arena<Entry>,
    order: &Vec<Oid>,
    hold: Option<Hold>,
    owner: Oid,
    steps: &mut Steps<L>,
)
    requires ordered { IsOrdered table.old order.now.items }
    requires live { IfSome hold (λ h. IsLive (plain (rows_in table.old order.now.items)) h.key) }
    requires room { AllByRecursion (λ row. row.1.held < 2 ^ 63) (rows_in table.old order.now.items) }
    ensures ordered { IsOrdered table.new order.now.items }
    ensures rows { rows_in table.new order.now.items ≡ all_more owner (option_to_list hold) (rows_in table.old order.now.items) }
    ensures born { table.new.born ≡ table.old.born }
    ensures cost { steps.new ≡ steps.old + length (option_to_list hold) }
{
    if let Some(hold) = hold {
        entry_mut(table, order, hold.key, steps).gain(hold.child, owner);
    }
}

/// Keeps that slots of an owner more hold the objects that they hold.
pub fn add_holds<L: Ledger>(
    table: &mut Arena<Entry>,
    order: &Vec<Oid>,
    slots: &[(SlotName, Slot)],
    owner: Oid,
    steps: &mut Steps<L>,
)
    requires ordered { IsOrdered table.old order.now.items }
    requires live { AllByRecursion (λ s. IfSome (target_of s.1) (IsLive (plain (rows_in table.old order.now.items)))) slots.now }
    requires room { AllByRecursion (λ row. row.1.held + length slots.now < 2 ^ 63) (rows_in table.old order.now.items) }
    ensures ordered { IsOrdered table.new order.now.items }
    ensures rows { rows_in table.new order.now.items ≡ all_more owner (holds_in slots.now) (rows_in table.old order.now.items) }
    ensures born { table.new.born ≡ table.old.born }
{
    for place in 0..slots.len() {
        add_hold(table, order, hold_in(slots, place), owner, steps);
    }
}

/// Keeps that a slot less holds an object, if it held one.
pub fn end_hold<L: Ledger>(
    table: &mut Arena<Entry>,
    order: &Vec<Oid>,
    hold: Option<Hold>,
    steps: &mut Steps<L>,
)
    requires ordered { IsOrdered table.old order.now.items }
    requires live { IfSome hold (λ h. IsLive (plain (rows_in table.old order.now.items)) h.key) }
    requires held { IfSome hold (λ h. IfSome (object_at (rows_in table.old order.now.items) h.key.birth) (λ e. 0 < e.held)) }
    ensures ordered { IsOrdered table.new order.now.items }
    ensures rows { rows_in table.new order.now.items ≡ all_less (option_to_list hold) (rows_in table.old order.now.items) }
    ensures born { table.new.born ≡ table.old.born }
    ensures cost { steps.new ≤ steps.old + 1 }
{
    if let Some(hold) = hold {
        entry_mut(table, order, hold.key, steps).lose(hold.child);
    }
}
