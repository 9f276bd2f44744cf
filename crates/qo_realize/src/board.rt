//! The board.

ghost use Rattle.std.specs.Prelude.{◌≡◌, ◌≤◌, ◌+◌, ◌^◌, None, Some, IfNone, IfSome, if◌then◌else◌, nat_lt, option_map};
ghost use Rattle.qo_values.specs.declared.limits.TheConstants.{TIME_MAX};
ghost use Rattle.qo_realize.specs.Parts.{counts};

use crate::guests::address_of;
use crate::removals::{ask, refuse};
use crate::users::is_used;
use qo_buses::by_address;
use qo_chardev::Rings;
use qo_events::DeviceEvent;
use qo_guest::{Addr, SlotPath};
use qo_heap::{Heap, Oid, Steps};
use qo_hotplug::{Hotplug, Notice};
use qo_model::{Detached, Note};
use qo_plug::{AddRefusal, Added, DeviceOptions, add};
use qo_properties::{
    Refusal, add_object, detached_list, get, make_all, object_at, object_of, property_at, remove,
    set, sever,
};
use qo_reset::Resets;
use qo_unplug::detach;
use qo_values::{Code, PropList, TIME_MAX, TypeText, Val};
use std::alloc::{AllocError, Global};
use std::marker::Model;
use std::sync::ledger::Ledger;

/// The board: the objects of the machine, and what stands beside them. Between two calls nothing
/// holds the objects from outside the tree but the one pin of the root, and the board is sound as a
/// whole: its tree, the places of devices and the lists that name them, clocks and timers, shapes,
/// owners, rings, claims, holds and limits. The body of each object keeps the claims that its slots say
/// while it is realized, and none otherwise. What is kept of each object for resets is how many holds
/// are on it and above it. What is kept of each clock are its period, and that of the clocks that go by it.
#[derive(Drop)]
pub struct Board {
    pub(crate) heap: Heap,
    pub(crate) anonymous: u64,
    pub(crate) running: bool,
    pub(crate) resets: Resets,
    pub(crate) hotplug: Hotplug,
    pub(crate) rings: Rings,
}

impl Model for Board {
    ghost use Rattle.qo_properties.specs.Pins.{OnlyRootPinned};
    ghost use Rattle.qo_clocks.specs.Kept.{PeriodsKept};
    ghost use Rattle.qo_reset.specs.Counts.{CountsKept};
    ghost use Rattle.qo_realize.specs.BoardClaims.{KeepsClaims};
    ghost use Rattle.qo_realize.specs.Parts.{Parts, parts_of};
    ghost use Rattle.qo_realize.specs.Representation.{StandsForGood};

    ghost Value = { Parts };

    ghost view = { λ b. parts_of b.rings b.anonymous b.running b.resets b.hotplug b.heap };

    ghost invariant = { λ b. OnlyRootPinned b.heap × StandsForGood (parts_of b.rings b.anonymous b.running b.resets b.hotplug b.heap) × KeepsClaims b.heap × CountsKept b.resets.births b.heap × PeriodsKept b.heap };
}

/// How many devices without an id there are after the add of one, with an id or without; `None` where
/// that is more than 64 bits hold.
pub(crate) fn next_anonymous(anonymous: u64, id: Option<&str>) -> Option<u64>
    ensures some { IfSome result (λ n. n ≡ counts anonymous (option_map (λ t. t.now) id.entry)) }
    ensures none { IfNone result (2 ^ 64 ≤ counts anonymous (option_map (λ t. t.now) id.entry)) }
{
    match id {
        Some(_) => Some(anonymous),
        None => anonymous.checked_add(1),
    }
}

/// The moment so many ns after another; `None` exactly past the greatest one.
fn later(now: u64, ns: u64) -> Option<u64>
    ensures { result ≡ (if nat_lt TIME_MAX (now + ns) then None else Some (now + ns)) }
{
    match now.checked_add(ns) {
        Some(time) if time <= TIME_MAX => Some(time),
        _ => None,
    }
}

impl Board {
    ghost use Rattle.std.specs.Prelude.{◌≡◌, ◌==◌, ◌<◌, ◌^◌, [], true, Some, IfNone, IfOk, IfSome, OnErr, OnOk, length, not, option_map, slice_get};
    ghost use Rattle.qo_model.specs.Access.{read, write_at};
    ghost use Rattle.qo_model.specs.Listing.{listing};
    ghost use Rattle.qo_model.specs.Properties.{object_at};
    ghost use Rattle.qo_heap.specs.Objects.{slots_of};
    ghost use Rattle.qo_heap.specs.Rows.{IsLive};
    ghost use Rattle.qo_values.specs.TypeTexts.{text_of};
    ghost use Rattle.qo_model.specs.Board as model;
    ghost use Rattle.qo_model.specs.Detachment.{detached_listed};
    ghost use Rattle.qo_model.specs.NoteReplies.{first_from, given_from};
    ghost use Rattle.qo_model.specs.Notes.{total_of};
    ghost use Rattle.qo_model.specs.Objects as objects;
    ghost use Rattle.qo_model.specs.ReleaseBound.{release_bound};
    ghost use Rattle.qo_model.specs.Opening.{opening_board};
    ghost use Rattle.qo_heap.specs.Log as log;
    ghost use Rattle.qo_properties.specs.Reads.{Answers};
    ghost use Rattle.qo_buses.specs.Addresses.{addressed};
    ghost use Rattle.qo_model.specs.Hotplug.{asked, completed, refused};
    ghost use Rattle.qo_object.specs.BoardObject.{birth_of};
    ghost use Rattle.qo_plug.specs.Admission.{as_wanted};
    ghost use Rattle.qo_clocks.specs.Kept.{PeriodsKept};
    ghost use Rattle.qo_reset.specs.Counts.{CountsKept};
    ghost use Rattle.qo_realize.specs.Answers.{Adds, IsAnswered, Plugs, Writes};
    ghost use Rattle.qo_realize.specs.BoardClaims.{KeepsClaims};
    ghost use Rattle.qo_realize.specs.Guest.{address_of, first_notice, polled};
    ghost use Rattle.qo_realize.specs.Removals.{is_listed};
    ghost use Rattle.qo_realize.specs.Representation.{Stands, StandsForGood};
    ghost use Rattle.qo_sound_devices.specs.SoundPlaces.{stands};
    ghost use Rattle.qo_realize.specs.Users.{object_removed};
    ghost use Rattle.qo_realize.specs.Time.{Advances, advanced, switches, with_running};

    /// The opening board: the eight objects that every machine begins with; it runs. The error says
    /// that memory ran out.
    pub fn start<L: Ledger>(alloc: Global, steps: &mut Steps<L>) -> Result<Board, AllocError>
        ensures { IfOk result (Stands opening_board) }
    {
        let mut heap = Heap::new(alloc)?;
        make_all(&mut heap, alloc, steps)?;
        Ok(Board {
            heap,
            anonymous: 0,
            running: true,
            resets: Resets::new(alloc),
            hotplug: Hotplug::new(alloc)?,
            rings: Rings::new(alloc),
        })
    }

    /// What it stands for: there is a board that stands at it, and it is sound; and each body keeps the claims
    /// of its object while that is realized, and none otherwise; what is kept of each object for
    /// resets is how many holds are on it and above it; and what is kept of each clock are its period,
    /// and that of the clocks that go by it.
    pub fn reveal_board(&self)
        ensures stands { StandsForGood self.now }
        ensures claims { KeepsClaims self.now.objects }
        ensures counts { CountsKept self.now.holds self.now.objects }
        ensures periods { PeriodsKept self.now.objects }
    {
        let _heap = &self.heap;
    }

    /// The heap, which has the board's objects. It takes no memory.
    pub fn heap(&self) -> &Heap
        ensures { result.now ≡ self.now.objects }
    {
        &self.heap
    }

    /// Whether the machine runs.
    pub fn running(&self) -> bool
        ensures { (b : model.Board) → Stands b self.now → result ≡ b.running }
    {
        self.running
    }

    /// Has the machine run or stand still, and answers whether that is a change (QEMU's QAPI, `stop`
    /// and `cont`). It takes no memory.
    pub fn set_running(&mut self, on: bool) -> bool
        ensures changes { (b : model.Board) → Stands b self.old → result ≡ switches b on }
        ensures stands { (b : model.Board) → Stands b self.old → Stands (with_running on b) self.new }
    {
        let was = self.running;
        self.running = on;
        was != on
    }

    /// Lets the virtual time go on by so many ns, where the machine runs, and answers the time then, in
    /// ns (the profile's `x-step`). `E53` comes exactly where it runs and the time would pass
    /// `TIME_MAX`; the board is then as it was. It takes no memory.
    pub fn advance(&mut self, ns: u64) -> Result<u64, Code>
        ensures advanced { (b : model.Board) → Stands b self.old → Advances (advanced b ns) result self.new }
        ensures err { OnErr result (self.new ≡ self.old) }
    {
        let now = self.heap.time();
        if !self.running {
            return Ok(now);
        }
        match later(now, ns) {
            Some(time) => {
                self.heap.set_time(time);
                Ok(time)
            }
            None => Err(Code::E53),
        }
    }

    /// The object at a path, whose slots `qom-list` lists, by its birth. Refused with E15 where the
    /// path leads to no object, and E16 where to several. It takes no memory.
    pub fn qom_list<L: Ledger>(&self, path: &str, steps: &mut Steps<L>) -> Result<u64, Code>
        ensures { (b : model.Board) → Stands b self.now → result ≡ object_at b path.now }
    {
        match object_at(&self.heap, path, steps) {
            Ok(o) => Ok(o.birth),
            Err(code) => Err(code),
        }
    }

    /// The object of a birth; `None` where there is none. It takes no memory.
    pub fn object(&self, birth: u64) -> Option<Oid>
        ensures born { IfSome result (λ o. o.birth ≡ birth) }
        ensures live { IfSome result (IsLive self.now.objects.rows) }
        ensures none { (b : model.Board) → Stands b self.now → IfNone result (listing b birth ≡ []) }
    {
        object_of(&self.heap, birth)
    }

    /// The slot of an object at a place, in the order of adding, as `qom-list` lists it: its name, and
    /// what is told of its type. `None` past the end. It takes no memory.
    pub fn property_at<L: Ledger>(
        &self,
        o: Oid,
        at: usize,
        steps: &mut Steps<L>,
    ) -> Option<(&str, TypeText)>
        requires { IsLive self.now.objects.rows o }
        ensures listed { (b : model.Board) → Stands b self.now → option_map (λ p. (p.0.now, text_of p.1)) result ≡ slice_get (listing b o.birth) at }
        ensures within { IfSome result (λ p. at < length (slots_of self.now.objects o.birth)) }
        ensures few { IfSome result (λ p. at < 2 ^ 32) }
    {
        property_at(&self.heap, o, at, steps)
    }

    /// The value of the property of a name of the object at a path (QEMU's QAPI, `qom-get`). A
    /// child and a link read as the text that names the object: its canonical path, or `detached:`
    /// and its birth; a link without a target as the empty text; the period of a clock that goes by
    /// another as the one that it has by that; an alias as the property that it passes on to. Refused
    /// with E15 where the path leads to no object, E16 where to several, and E17 where the object has
    /// no such property.
    pub fn qom_get<L: Ledger>(
        &self,
        path: &str,
        name: &str,
        alloc: Global,
        steps: &mut Steps<L>,
    ) -> Result<Val, Refusal>
        ensures { (b : model.Board) → Stands b self.now → Answers (λ val. val) result (read b path.now name.now) }
    {
        get(&self.heap, path, name, alloc, steps)
    }

    /// The objects without a parent, other than `/`, in the order of births. The error is want of
    /// memory.
    pub fn detached<L: Ledger>(
        &self,
        alloc: Global,
        steps: &mut Steps<L>,
    ) -> Result<Vec<Detached>, AllocError>
        ensures { (b : model.Board) → Stands b self.now → IfOk result (λ list. list.items ≡ detached_listed b) }
    {
        detached_list(&self.heap, alloc, steps)
    }

    /// How many notes there were; it stays at 2^64 - 1 once there.
    #[inline(always)]
    pub fn notes_total(&self) -> u64
        ensures logged { result ≡ self.now.objects.log.total }
        ensures told { (b : model.Board) → Stands b self.now → result ≡ total_of b.notes }
    {
        self.heap.notes_total()
    }

    /// The number of the first note that a reading from a number gives.
    pub fn notes_first(&self, from: u64) -> u64
        ensures logged { result ≡ log.first_from from self.now.objects.log }
        ensures told { (b : model.Board) → Stands b self.now → result ≡ first_from from b.notes }
    {
        self.heap.notes_first(from)
    }

    /// The notes that a reading from a number gives, at most `NOTES_PER_REPLY`. The error says that memory
    /// ran out.
    pub fn notes(&self, from: u64, alloc: Global) -> Result<Vec<Note>, AllocError>
        ensures logged { IfOk result (λ notes. notes.items ≡ log.given_from from self.now.objects.log) }
        ensures told { (b : model.Board) → Stands b self.now → IfOk result (λ notes. notes.items ≡ given_from from b.notes) }
    {
        self.heap.notes(from, alloc)
    }

    /// The events on devices that wait, in the order of their coming. It takes no memory.
    pub fn events(&self) -> &[DeviceEvent]
        ensures { (b : model.Board) → Stands b self.now → result.now ≡ b.events }
    {
        self.heap.events()
    }

    /// Lets the events on devices that wait go, as they were told. It takes no memory.
    pub fn clear_events(&mut self)
        ensures { (b : model.Board) → Stands b self.old → Stands (record b { events = [] }) self.new }
    {
        self.heap.clear_events();
    }

    /// Writes the property of a name of the object at a path (QEMU's QAPI, `qom-set`). A link takes
    /// the path of its target, or the empty text for none; what it held is finalized where nothing
    /// refers to it any more. A clock takes a number for its period, its mul and its div, the first
    /// also by the device's alias for it; the devices of the clocks below are called back. Refused
    /// with E15 where a path leads to no object and E16 where to several, E17 where the object has no
    /// such property, E18 where `qom-set` does not write it, E19 where the value does not fit, E31
    /// where the target is not of the link's type, and then E45 where the clock has a source, E46
    /// where it would divide by 0, and E47 where a period would not fit in 64 bits. The other error
    /// says that memory ran out, which is so only where a value is copied. An error leaves the board as it
    /// was.
    pub fn qom_set<L: Ledger>(
        &mut self,
        path: &str,
        name: &str,
        val: &Val,
        alloc: Global,
        steps: &mut Steps<L>,
    ) -> Result<(), Refusal>
        ensures written { (b : model.Board) → Stands b self.old → Writes self.new result (write_at b path.now name.now val.now) }
        ensures err { OnErr result (self.new ≡ self.old) }
    {
        set(&mut self.heap, path, name, val, alloc, steps)
    }

    /// Makes a user's object of a type's name under an id, with values for its properties, as a
    /// child of `/objects` that nothing else holds (QEMU's QAPI, `object-add`).
    /// Refused, in this order, with `E20` where no type has the name,
    /// `E21` where it is abstract, `E22` where users may not make it, `E23` where the id is malformed,
    /// `E15` where `/objects` is not there, `E24` where it has such a slot, and `E43` at `LIVE_OBJECTS_MAX` objects;
    /// the board is then as it was. A property that is refused, the first in the order given, is so
    /// with `E17`, `E18`, `E19`, `E15`, `E16` or `E31` after an attempt that is given up: the object
    /// was made and ended. Where memory wants, the board is as it was, or an attempt was given up.
    pub fn object_add<L: Ledger>(
        &mut self,
        driver: &str,
        id: &str,
        props: &PropList,
        alloc: Global,
        steps: &mut Steps<L>,
    ) -> Result<(), Refusal>
        ensures change { (b : model.Board) → Stands b self.old → Adds b driver.now id.now props.now result self.new }
    {
        add_object(&mut self.heap, driver, id, props, alloc, steps)
    }

    /// Removes the user's object of an id: its slot at `/objects` is let go, and it is finalized
    /// where nothing else refers to it (QEMU's QAPI, `object-del`). `E15` comes exactly where there
    /// is no such slot, and `E32` exactly where it is a memory backend on which a DIMM stands. An error
    /// leaves the board as it was. It takes at most eight steps for each object and slot that ends and for
    /// each weak link to one or of one, and sixteen more.
    pub fn object_del<L: Ledger>(&mut self, id: &str, steps: &mut Steps<L>) -> Result<(), Code>
        ensures change { (b : model.Board) → Stands b self.old → IsAnswered (object_removed b id.now) result self.new }
        ensures err { OnErr result (self.new ≡ self.old) }
        ensures work { (b c : model.Board) → Stands b self.old → Stands c self.new → steps.new ≤ steps.old + release_bound b c + 8 }
    {
        if is_used(&self.heap, id, steps) {
            return Err(Code::E32);
        }
        remove(&mut self.heap, id, steps)
    }

    /// Cuts the strong links of a detached object, in order, which is held meanwhile and finalized
    /// in the end where nothing refers to it (the profile's `x-sever`). `E33` comes exactly where no
    /// object of that birth is live, else `E50` exactly where it is attached. An error leaves the
    /// board as it was.
    pub fn sever<L: Ledger>(&mut self, birth: u64, steps: &mut Steps<L>) -> Result<(), Code>
        ensures change { (b : model.Board) → Stands b self.old → IsAnswered (objects.sever b birth) result self.new }
        ensures err { OnErr result (self.new ≡ self.old) }
    {
        sever(&mut self.heap, birth, steps)
    }

    /// Adds a device of a type's name, under an id if one is given, to the bus at a path or the one that
    /// its type goes on, with values for its properties (QEMU's QAPI, `device_add`): by the stages of
    /// docs/PROFILE.md. The first condition of a stage that stands on the board before is the refusal;
    /// after stage 3 and `E43` one is refused after an attempt that is given up. Where memory wants,
    /// the board is as it was, or an attempt was cut.
    pub fn add<L: Ledger>(
        &mut self,
        options: &DeviceOptions<'_>,
        alloc: Global,
        steps: &mut Steps<L>,
    ) -> Result<Added, AddRefusal>
        ensures change { (b : model.Board) → Stands b self.old → Plugs b (as_wanted options.now) result self.new }
    {
        let Some(next) = next_anonymous(self.anonymous, options.id) else {
            return Err(AddRefusal::Memory);
        };
        match add(
            &mut self.heap,
            &self.resets,
            &mut self.hotplug,
            &self.rings,
            self.anonymous,
            options,
            alloc,
            steps,
        ) {
            Ok(added) => {
                self.anonymous = next;
                Ok(added)
            }
            Err(refusal) => Err(refusal),
        }
    }

    /// Asks for the removal of the device that a text is of, and the guest is told so (QEMU's QAPI,
    /// `device_del`): of one that begins with `/` the device at that absolute path, of any other the
    /// child of that name of the container of devices with an id. `E33` comes where there is no such
    /// device, `E35` where it is detached, `E34` where its removal is pending and was asked for less than
    /// `ASK_AGAIN_AFTER` ns of the virtual time before, and `E44` where as many notices wait as may. An
    /// error leaves the board as it was. It takes no memory.
    pub fn ask_removal<L: Ledger>(&mut self, id: &str, steps: &mut Steps<L>) -> Result<(), Code>
        ensures asked { (b : model.Board) → Stands b self.old → IsAnswered (asked b id.now) result self.new }
        ensures err { OnErr result (self.new ≡ self.old) }
    {
        ask(&self.heap, &mut self.hotplug, id, steps)
    }

    /// The device at an address; `None` exactly where there is none. It takes no memory.
    pub fn guest_find<L: Ledger>(&self, address: &Addr, steps: &mut Steps<L>) -> Option<Oid>
        ensures found { (b : model.Board) → Stands b self.now → birth_of result ≡ addressed b address.now }
        ensures live { IfSome result (IsLive self.now.objects.rows) }
    {
        by_address(&self.heap, address, steps)
    }

    /// Whether the removal of a device is pending. It takes no memory.
    pub fn is_pending(&self, dev: Oid) -> bool
        ensures { result ≡ is_listed dev.birth self.now.pending }
    {
        self.hotplug.is_pending(dev)
    }

    /// Whether a removal is pending. It takes no memory.
    pub fn any_pending(&self) -> bool
        ensures { (b : model.Board) → Stands b self.now → (length b.pending == 0) ≡ not result }
    {
        !self.hotplug.pending().is_empty()
    }

    /// The guest refuses the removal of a device, which is pending (include/hw/hotplug.h): it is
    /// pending no longer, the guest is told no longer that it is asked for, and the event of it waits.
    /// The error says that memory ran out, and leaves the board as it was.
    pub fn refuse<L: Ledger>(
        &mut self,
        dev: Oid,
        alloc: Global,
        steps: &mut Steps<L>,
    ) -> Result<(), AllocError>
        requires live { IsLive self.old.objects.rows dev }
        requires pending { is_listed dev.birth self.old.pending ≡ true }
        ensures refused { (b : model.Board) → Stands b self.old → OnOk result (Stands (refused b dev.birth) self.new) }
        ensures err { OnErr result (self.new ≡ self.old) }
    {
        refuse(&mut self.heap, &mut self.hotplug, dev, alloc, steps)
    }

    /// The guest lets a device go, whose removal is pending (include/hw/hotplug.h): it is unrealized and
    /// taken out, with all that is below it. It takes no memory, and always succeeds.
    pub fn complete<L: Ledger>(&mut self, dev: Oid, steps: &mut Steps<L>)
        requires live { IsLive self.old.objects.rows dev }
        requires pending { is_listed dev.birth self.old.pending ≡ true }
        ensures { (b : model.Board) → Stands b self.old → Stands (completed b dev.birth) self.new }
    {
        detach(
            &mut self.heap,
            &mut self.resets,
            &mut self.hotplug,
            dev,
            steps,
        );
    }

    /// Takes the notice that has waited longest; `None` exactly where none waits. It takes no memory.
    pub fn poll(&mut self) -> Option<Notice>
        ensures first { (b : model.Board) → Stands b self.old → result ≡ first_notice b }
        ensures polled { (b : model.Board) → Stands b self.old → Stands (polled b) self.new }
    {
        self.hotplug.poll()
    }

    /// The address of the object of a birth, if it is a device on a bus: its slot on the memory bus, or
    /// else the slots on the way to it from the root bus, the outermost first. That of a device in its
    /// place is the one at which `guest_find` finds it. It takes no memory.
    pub fn guest_address<L: Ledger>(&self, birth: u64, steps: &mut Steps<L>) -> Addr
        ensures address { (b : model.Board) → Stands b self.now → result ≡ address_of b birth }
        ensures found { (b : model.Board) → Stands b self.now → stands b birth ≡ true → addressed b result ≡ Some birth }
    {
        match self.heap.by_birth(birth) {
            Some(dev) => address_of(&self.heap, dev, steps),
            None => Addr::Slots(SlotPath::one(0)),
        }
    }
}
