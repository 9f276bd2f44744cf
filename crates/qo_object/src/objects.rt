//! An object.

use crate::devices::{DeviceId, no_id};
use crate::errors::AddError;
use crate::names::SlotName;
use crate::room::{Side, Work, side_at_first, work_at_first};
use crate::slot_map::SlotMap;
use crate::slots::{Slot, SlotView};
use qo_kinds::{Body, KeptSet};
use qo_model::PropertyName;
use qo_slots::Key;
use qo_values::{Act, Id, Text, TypeId, Val};
use std::alloc::Global;
use std::marker::Model;

/// The most slots of an object, so that each count of them fits.
const SLOTS_MAX: usize = 0x1_0000_0000;

/// An object by itself (docs/devel/qom.rst, "The QEMU Object Model"). Letting it go says nothing to
/// the objects that it names.
pub struct Object {
    kind: TypeId,
    slots: SlotMap,
    pins: u64,
    body: Body,
    id: Option<DeviceId>,
    path: Option<Text>,
    side: Side,
    work: Work,
}

/// What has to be ended with an object: its claims, and the path that was kept for its end. It can't
/// be let go.
pub struct FinalizedParts {
    /// Its type.
    pub kind: TypeId,
    /// The claims of its body.
    pub kept: KeptSet,
    /// The id of its device.
    pub id: Option<DeviceId>,
    /// The path that was kept.
    pub path: Option<Text>,
}

impl Model for Object {
    ghost use Rattle.std.specs.Prelude.{◌≤◌, ◌^◌, length};
    ghost use Rattle.qo_object.specs.Content.{Content};

    ghost Value = { Content };

    ghost view = { λ o. record {
      kind = o.kind;
      slots = o.slots;
      pins = o.pins;
      body = o.body;
      device_id = o.id;
      kept_path = o.path;
      side = o.side;
      work = o.work;
    } };

    ghost invariant = { λ o. (length o.slots ≤ 2 ^ 32) × (o.pins ≤ 2 ^ 32) };
}

impl Drop for Object {
    ghost use Rattle.qo_object.specs.Content.{HasNoClaim};

    fn drop(self)
        requires { HasNoClaim self }
    {
        let Object {
            kind: _,
            slots: _,
            pins: _,
            body: _,
            id,
            path: _,
            side: _,
            work: _,
        } = self;
        no_id(id);
    }
}

impl Object {
    ghost use Rattle.std.specs.Prelude.{◌≡◌, ◌<◌, ◌≤◌, ◌^◌, true, false, None, IfSome, IsSomeAnd, OnOk, OnErr, length, position, slice_get, option_map};
    ghost use Rattle.std.specs.List.{IsDistinct};
    ghost use Rattle.std.specs.Str.{bytes_eq};
    ghost use Rattle.std.specs.Borrow.{sem};
    ghost use Rattle.qo_kinds.specs.Bodies.{MayAct, kept_of};
    ghost use Rattle.qo_model.specs.Devices.{kid_name};
    ghost use Rattle.qo_model.specs.RowNames.{property_name};
    ghost use Rattle.qo_object.specs.Loans.{lends_body};
    ghost use Rattle.qo_object.specs.Slots.{has_name, names_child, names_of, slot_in};
    ghost use Rattle.qo_object.specs.Content.{IsObject, acted_at, fresh, with_id, with_path, with_side, with_work, with_slot, with_all_slots, named_at, dropped_at, empty_link_at, pointed_at, set_at, cut_at, with_pin, without_pin, forgotten, holding, is_holder, is_parent};
    ghost use Rattle.qo_object.specs.declared.errors.AddError.TheVariants.{Duplicate, Memory};

    /// An object of a type, without slots, pinned once. It takes no memory.
    pub fn new(alloc: Global, kind: TypeId) -> Object
        ensures { result ≡ fresh kind }
    {
        Object {
            kind,
            slots: SlotMap::new(alloc),
            pins: 1,
            body: Body::of(kind),
            id: None,
            path: None,
            side: side_at_first(),
            work: work_at_first(),
        }
    }

    /// What is so of every object: its slots' names differ, and it has at most 2^32 slots and pins.
    pub fn reveal_invariant(&self)
        ensures { IsObject self.now }
    {
        self.slots.reveal_invariant();
    }

    /// Its type. It takes no memory.
    pub fn kind(&self) -> TypeId
        ensures { result ≡ self.now.kind }
    {
        self.kind
    }

    /// How often it is held from outside the tree. It takes no memory.
    pub fn pins(&self) -> u64
        ensures { result ≡ self.now.pins }
    {
        self.pins
    }

    /// An act of its body at a moment, where `period` is that of its clock. It takes no memory.
    pub fn act(&mut self, act: Act, time: u64, period: u64)
        requires { MayAct act time self.old.body }
        ensures { self.new ≡ acted_at act time period self.old }
    {
        self.body.act(act, time, period);
    }

    /// Its body. It takes no memory.
    pub fn body(&self) -> &Body
        ensures { result.now ≡ self.now.body }
    {
        &self.body
    }

    /// Its body, for writing. It takes no memory.
    pub fn body_mut(&mut self) -> &mut Body
        ensures* writes_back { sem 𝓛 (lends_body self.entry result) }
        ensures body { result.now ≡ self.old.body }
    {
        &mut self.body
    }

    /// The id of its device, if it has one. It takes no memory.
    pub fn id(&self) -> Option<&Id>
        ensures { option_map (λ i. i.now) result ≡ self.now.device_id }
    {
        match &self.id {
            Some(device) => Some(device.id()),
            None => None,
        }
    }

    /// The path that is kept for its end, if there is one. It takes no memory.
    pub fn path(&self) -> Option<&Text>
        ensures { option_map (λ p. p.now) result ≡ self.now.kept_path }
    {
        self.path.as_ref()
    }

    /// Gives it the id of its device; it must have none. It takes no memory.
    pub fn name_device(&mut self, id: DeviceId)
        requires { self.old.device_id ≡ None }
        ensures { self.new ≡ with_id id self.old }
    {
        no_id(self.id.replace(id));
    }

    /// Keeps a path for its end. It takes no memory.
    pub fn keep_path(&mut self, path: Text)
        ensures { self.new ≡ with_path path self.old }
    {
        self.path = Some(path);
    }

    /// What is kept of it beside the tree. It takes no memory.
    pub fn side(&self) -> Side
        ensures { result ≡ self.now.side }
    {
        self.side
    }

    /// Keeps this of it beside the tree. It takes no memory.
    pub fn set_side(&mut self, side: Side)
        ensures { self.new ≡ with_side side self.old }
    {
        self.side = side;
    }

    /// Its place in the work of a release. It takes no memory.
    pub fn work(&self) -> Work
        ensures { result ≡ self.now.work }
    {
        self.work
    }

    /// Gives it a place in the work of a release. It takes no memory.
    pub fn set_work(&mut self, work: Work)
        ensures { self.new ≡ with_work work self.old }
    {
        self.work = work;
    }

    /// How many slots it has. It takes no memory.
    pub fn len(&self) -> usize
        ensures { result ≡ length self.now.slots }
    {
        self.slots.len()
    }

    /// The place of the slot of a name, by one look-up. It takes no memory.
    pub fn find(&self, name: &str) -> Option<usize>
        ensures { result ≡ position (λ s. bytes_eq name.now s.0) self.now.slots }
    {
        self.slots.find(name)
    }

    /// The place of the slot of a property in a row, by one look-up. It takes no memory.
    pub fn find_row(&self, name: PropertyName) -> Option<usize>
        ensures { result ≡ position (λ s. bytes_eq (property_name name) s.0) self.now.slots }
    {
        self.slots.find_row(name)
    }

    /// The place of the link of a bus to the kid in a slot, by one look-up. It takes no memory.
    pub fn find_kid(&self, slot: u8) -> Option<usize>
        ensures { result ≡ position (λ s. bytes_eq (kid_name slot) s.0) self.now.slots }
    {
        self.slots.find_kid(slot)
    }

    /// The slot at a place, from 0; None exactly past the end. It takes no memory.
    pub fn slot_at(&self, at: usize) -> Option<SlotView<'_>>
        ensures slot { option_map (λ v. (v.name.now, v.what.now)) result ≡ slice_get self.now.slots at }
        ensures at { IfSome result (λ v. v.at ≡ at) }
    {
        self.slots.slot_at(at)
    }

    /// What stands in the slot at a place, from 0; None exactly past the end. It takes no memory.
    pub fn what_at(&self, at: usize) -> Option<&Slot>
        ensures { option_map (λ s. s.now) result ≡ slot_in self.now.slots at }
    {
        self.slots.what_at(at)
    }

    /// Adds a slot after the others. `Duplicate` comes exactly where there is a slot of that name;
    /// `Memory` where memory runs out, or where there are 2^32 slots. An error leaves the object as
    /// it was, and lets the slot go.
    #[inline(always)]
    pub fn add(&mut self, name: SlotName, slot: Slot) -> Result<(), AddError>
        ensures added { OnOk result (self.new ≡ with_slot name slot self.old) }
        ensures absent { OnOk result (has_name name self.old.slots ≡ false) }
        ensures room { OnOk result (length self.old.slots < 2 ^ 32) }
        ensures duplicate { result ≡ Err Duplicate → has_name name self.old.slots ≡ true }
        ensures memory { result ≡ Err Memory → has_name name self.old.slots ≡ false }
        ensures err { OnErr result (self.new ≡ self.old) }
    {
        if self.slots.len() >= SLOTS_MAX {
            let error = if self.slots.has(name.as_str()) {
                AddError::Duplicate
            } else {
                AddError::Memory
            };
            return Err(error);
        }
        if self.slots.add(name, slot)? {
            Ok(())
        } else {
            Err(AddError::Duplicate)
        }
    }

    /// Gives it these slots, whose names differ, in the place of its own. It takes no memory.
    pub fn set_slots(&mut self, slots: Vec<(SlotName, Slot)>)
        requires differ { IsDistinct bytes_eq (names_of slots.items) }
        requires few { length slots.items ≤ 2 ^ 32 }
        ensures { self.new ≡ with_all_slots slots.items self.old }
    {
        self.slots = SlotMap::from_vec(slots);
    }

    /// Lets the slot at a place go, and answers the object that it named: a child slot is removed, a
    /// link is left without a target; a plain slot and an alias stay, as all does past the end, and
    /// the answer is None. It takes no memory.
    pub fn empty(&mut self, at: usize) -> Option<Key>
        ensures now { self.new ≡ dropped_at at self.old }
        ensures answer { result ≡ named_at self.old at }
    {
        self.slots.empty(at)
    }

    /// Points the link at a place, which has no target, at an object. It takes no memory.
    pub fn point(&mut self, at: usize, target: Key)
        requires { empty_link_at self.old at ≡ true }
        ensures { self.new ≡ pointed_at target at self.old }
    {
        self.slots.point(at, target);
    }

    /// Gives the plain slot at a place a value; any other slot stays. It takes no memory.
    pub fn set(&mut self, at: usize, val: Val)
        ensures { self.new ≡ set_at val at self.old }
    {
        self.slots.set(at, val);
    }

    /// Removes the link at a place, which has no target. It takes no memory.
    pub fn cut(&mut self, at: usize)
        requires { empty_link_at self.old at ≡ true }
        ensures { self.new ≡ cut_at at self.old }
    {
        self.slots.remove(at);
    }

    /// Holds it from outside the tree once more. It takes no memory.
    pub fn pin(&mut self)
        requires { self.old.pins < 2 ^ 32 }
        ensures { self.new ≡ with_pin self.old }
    {
        self.pins += 1;
    }

    /// Holds it from outside the tree once less. It takes no memory.
    pub fn unpin(&mut self)
        requires { 0 < self.old.pins }
        ensures { self.new ≡ without_pin self.old }
    {
        self.pins -= 1;
    }

    /// Empties the weak links that name the object of a birth. It takes no memory.
    pub fn forget(&mut self, birth: u64)
        ensures { self.new ≡ forgotten birth self.old }
    {
        if !self.slots.names_weakly(birth) {
            return;
        }
        for at in 0..self.slots.len() {
            self.slots.forget(at, birth);
        }
    }

    /// How many of its slots hold the object of a birth, as a child or by a strong link. It takes no
    /// memory.
    pub fn holding(&self, birth: u64) -> u64
        ensures { result ≡ holding birth self.now }
    {
        self.slots.holding(birth) as u64
    }

    /// Whether one of its slots holds the object of a birth, as a child or by a strong link. It takes
    /// no memory.
    pub fn is_holder(&self, birth: u64) -> bool
        ensures { result ≡ is_holder birth self.now }
    {
        self.slots.is_holder(birth)
    }

    /// Whether it has the object of a birth as a child. It takes no memory.
    pub fn is_parent(&self, birth: u64) -> bool
        ensures { result ≡ is_parent birth self.now }
    {
        self.slots.is_parent(birth)
    }

    /// A place at which it has the object of a birth as a child, sought by halves. One that is there is
    /// found where births rise along its children, which stand after all other slots. Elsewhere it may
    /// be missed. It takes no memory.
    pub fn child_sought(&self, birth: u64) -> Option<usize>
        ensures { IfSome result (λ at. IsSomeAnd (slot_in self.now.slots at) (λ s. names_child birth s ≡ true)) }
    {
        self.slots.child_sought(birth)
    }

    /// The first place at which it has the object of a birth as a child. It takes no memory.
    pub fn child_place(&self, birth: u64) -> Option<usize>
        ensures { result ≡ position (λ s. names_child birth s.1) self.now.slots }
    {
        self.slots.child_place(birth)
    }

    /// Ends it, and answers what has to be ended with it. It takes no memory.
    #[inline(always)]
    pub fn into_finalized_parts(self) -> FinalizedParts
        ensures { result ≡ record { kind = self.kind; kept = kept_of self.body; id = self.device_id; path = self.kept_path } }
    {
        let Object {
            kind,
            slots: _,
            pins: _,
            mut body,
            id,
            path,
            side: _,
            work: _,
        } = self;
        let kept = body.take_claims();
        FinalizedParts {
            kind,
            kept,
            id,
            path,
        }
    }
}
