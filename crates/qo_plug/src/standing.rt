//! A device takes its place: it joins its container and its bus, its slots have the values that were
//! given, a DIMM stands on its range, it keeps its id and its claims, and its clock has its source
//! (include/hw/qdev-core.h: the bus of a device; docs/devel/clocks.rst). All that takes memory comes
//! first, and is taken back where it fails.

ghost use Rattle.std.specs.Prelude.{◌≡◌, ◌==◌, ◌≤◌, ◌<◌, ◌++◌, ℕ, List, true, false, Some, None, IfOk, IfSome, IfNone, OnOk, OnErr, codes, option_map, option_and_then, slice_get};
ghost use Rattle.std.specs.List.{AllByRecursion, AllZip, list_all};
ghost use Rattle.std.specs.Option.{option_map_or};
ghost use Rattle.qo_claims.specs.declared.claims.Claimed.{Claimed};
ghost use Rattle.qo_claims.specs.declared.claims.Claimed.TheVariants as on;
ghost use Rattle.qo_kinds.specs.Bodies.{registers_of, with_registers};
ghost use Rattle.qo_values.specs.declared.births.TheConstants.{SYSTEM_CLOCK_BIRTH};
ghost use Rattle.qo_values.specs.declared.limits.TheConstants.{BUS_SLOTS};
ghost use Rattle.qo_values.specs.declared.properties.Val.{Val};
ghost use Rattle.qo_model.specs.Board.{Board, is_live, kind_of};
ghost use Rattle.qo_model.specs.Devices.{clock_of};
ghost use Rattle.qo_model.specs.Objects.{Given};
ghost use Rattle.qo_model.specs.Paths.{canonical};
ghost use Rattle.qo_model.specs.Plug.{Wanted, addressed_at, link_named, registers_on, source_for, valued, with_body_of, with_source};
ghost use Rattle.qo_model.specs.Release.{edit};
ghost use Rattle.qo_model.specs.RowNames.{property_name};
ghost use Rattle.qo_model.specs.Unplug.{set_named};
ghost use Rattle.qo_object.specs.declared.slots.Slot.TheVariants.{Link};
ghost use Rattle.qo_values.specs.declared.kinds.TypeId.TheVariants as types;
ghost use Rattle.qo_object.specs.Content.{HasNoClaim, with_slot};
ghost use Rattle.qo_heap.specs.Rows.{IsLive};
ghost use Rattle.qo_heap.specs.Board.{Shows};
ghost use Rattle.qo_heap.specs.Book.{IsBook};
ghost use Rattle.qo_heap.specs.Objects.{content_of, pins_of, slots_of, with_edit};
ghost use Rattle.qo_properties.specs.Claims.{KeepsBook};
ghost use Rattle.qo_properties.specs.Filling.{Fits, IsGiven, filled_at, fits_at, target_in};
ghost use Rattle.qo_properties.specs.OpeningSteps.{KeepsNames};
ghost use Rattle.qo_plug.specs.OwnSlots.{is_own, own_slots_of};
ghost use Rattle.qo_plug.specs.Placement.{Alike, IsAttachment, IsDimm, Stays, Stood, is_default, joined_on, kept_in, range_in, ranged, resources_in, with_own, Connected};
ghost use Rattle.qo_properties.specs.KeptClaims.{SameClaims, SameKept};
ghost use Rattle.qo_plug.specs.KeptPeriods.{ClockFed};
ghost use Rattle.qo_heap.specs.Acts.{KeepsCounts, KeepsPeriods};
ghost use Rattle.qo_plug.specs.DeviceClaims.{id_claims_out, kept_on};
ghost use Rattle.qo_plug.specs.FreeResources.{AreFreeResources, IsFreeId};

use crate::claiming::{DeviceClaims, IdClaim, give_back, keep_claims, keep_id_claim, take_claims};
use crate::resources::{Memory, Resources};
use qo_buses::{bridge_of, clock_of, join_bus, kid_name, point_bus, set_named};
use qo_clocks::connect;
use qo_dimm::Dimm;
use qo_heap::{Heap, Oid, Slot, SlotName, Steps};
use qo_kinds::{Body, Device};
use qo_model::PropertyName;
use qo_paths::canonical;
use qo_properties::InitialValue;
use qo_values::{Id, Name, SYSTEM_CLOCK_BIRTH, Text, Val};
use std::alloc::{AllocError, Global};
use std::sync::ledger::Ledger;

/// Where a device goes.
#[derive(Drop)]
pub struct Attachment {
    /// Its container.
    pub container: Oid,
    /// Its name there.
    pub name: Name,
    /// Its bus.
    pub bus: Oid,
    /// Where it stands there, in a slot below `BUS_SLOTS`, and what it claims besides.
    pub resources: Resources,
}

/// Whether a slot is an object's own: a value or a link, and neither a child nor an alias.
fn is_own(what: &Slot) -> bool
    ensures { result ≡ is_own what.now }
{
    match what {
        Slot::Plain(_) => true,
        Slot::Link { .. } => true,
        Slot::Child(_) => false,
        Slot::Alias(_, _) => false,
    }
}

/// Whether the slot of an object at a place is its own; none is past the last.
fn is_own_at<L: Ledger>(heap: &Heap, o: Oid, at: usize, steps: &mut Steps<L>) -> bool
    requires { IsLive heap.now.rows o }
    ensures { result ≡ option_map_or (λ s. is_own s.1) (slice_get (slots_of heap.now o.birth) at) false }
{
    match heap.slot_at(o, at, steps) {
        Some(view) => is_own(view.what),
        None => false,
    }
}

/// Fills the slot of an object at a place.
fn fill_at<L: Ledger>(heap: &mut Heap, o: Oid, at: usize, fill: InitialValue, steps: &mut Steps<L>)
    requires live { IsLive heap.old.rows o }
    requires target { IfSome (target_in fill) (IsLive heap.old.rows) }
    requires fits { option_map (λ c. fits_at fill c at) (content_of heap.old o.birth) ≡ Some true }
    ensures { heap.new ≡ with_edit o.birth (filled_at fill at) heap.old }
{
    match fill {
        InitialValue::Default => {}
        InitialValue::Value(val) => heap.set(o, at, val, steps),
        InitialValue::Target(target) => heap.point(o, at, target, steps),
    }
}

/// Whether a slot stays as it begins.
fn is_default(fill: &InitialValue) -> bool
    ensures { result ≡ is_default fill.now }
{
    matches!(fill, InitialValue::Default)
}

/// Whether each slot stays as it begins.
fn is_blank(plan: &[InitialValue]) -> bool
    ensures { result ≡ list_all is_default plan.now }
{
    plan.iter().all(is_default)
}

/// Fills the own slots of an object in order as they are planned; its children and aliases stay. Where
/// nothing is planned no slot is looked at. It takes no memory.
fn settle_own<L: Ledger>(heap: &mut Heap, o: Oid, mut plan: Vec<InitialValue>, steps: &mut Steps<L>)
    requires live { IsLive heap.old.rows o }
    requires targets { AllByRecursion (λ f. IfSome (target_in f) (IsLive heap.old.rows)) plan.items }
    requires fits { AllZip Fits plan.items (own_slots_of heap.old o.birth) }
    ensures { heap.new ≡ with_edit o.birth (with_own plan.items) heap.old }
{
    if is_blank(&plan) {
        return;
    }
    heap.reveal_invariant();
    let mut at = heap.slot_count(o, steps);
    while at > 0 {
        at -= 1;
        if !is_own_at(heap, o, at, steps) {
            continue;
        }
        if let Some(fill) = plan.pop() {
            fill_at(heap, o, at, fill, steps);
        }
    }
}

/// Gives the plain property of a name of a device a value.
fn put_value<L: Ledger>(
    heap: &mut Heap,
    device: Oid,
    name: PropertyName,
    val: Val,
    steps: &mut Steps<L>,
)
    requires { IsLive heap.old.rows device }
    ensures shown { (b : Board) → Shows b heap.old → Shows (set_named device.birth (property_name name) val b) heap.new }
    ensures stays { Stays heap.old heap.new }
{
    heap.reveal_board();
    set_named(heap, device, name, val, steps);
}

/// Points a device at its bus.
fn put_bus<L: Ledger>(heap: &mut Heap, device: Oid, bus: Oid, steps: &mut Steps<L>)
    requires live { IsLive heap.old.rows device }
    requires bus { IsLive heap.old.rows bus }
    ensures shown { (b : Board) → Shows b heap.old → Shows (link_named device.birth (codes "parent_bus") bus.birth b) heap.new }
    ensures stays { Stays heap.old heap.new }
{
    heap.reveal_board();
    point_bus(heap, device, bus, steps);
}

/// Gives a DIMM the address of its memory; a device without memory has none.
fn put_address<L: Ledger>(
    heap: &mut Heap,
    device: Oid,
    memory: Option<Memory>,
    steps: &mut Steps<L>,
)
    requires { IsLive heap.old.rows device }
    ensures shown { (b : Board) → Shows b heap.old → Shows (addressed_at device.birth (range_in memory) b) heap.new }
    ensures stays { Stays heap.old heap.new }
{
    match memory {
        Some(Memory { range, .. }) => {
            put_value(heap, device, PropertyName::Addr, Val::Uint(range.at), steps);
        }
        None => {}
    }
}

/// Gives a device the values that were given to it, its bus, its slot there, that it is realized, and
/// the address of its memory, if it has one.
fn put_values<L: Ledger>(
    heap: &mut Heap,
    device: Oid,
    bus: Oid,
    slot: u8,
    memory: Option<Memory>,
    plan: Vec<InitialValue>,
    steps: &mut Steps<L>,
)
    requires live { IsLive heap.old.rows device }
    requires bus { IsLive heap.old.rows bus }
    requires targets { AllByRecursion (λ f. IfSome (target_in f) (IsLive heap.old.rows)) plan.items }
    requires fits { AllZip Fits plan.items (own_slots_of heap.old device.birth) }
    ensures shown { (b c : Board) (props : List Given) → Shows c heap.old → AllZip (IsGiven b props) plan.items (own_slots_of heap.old device.birth) → Shows (addressed_at device.birth (range_in memory) (valued b device.birth props (record { bus = bus.birth; slot = slot; range = range_in memory }) c)) heap.new }
    ensures stays { Stays heap.old heap.new }
{
    heap.reveal_invariant();
    settle_own(heap, device, plan, steps);
    put_value(
        heap,
        device,
        PropertyName::Slot,
        Val::Uint(u64::from(slot)),
        steps,
    );
    put_bus(heap, device, bus, steps);
    put_value(heap, device, PropertyName::Realized, Val::Bool(true), steps);
    put_address(heap, device, memory, steps);
}

/// The body of a device with memory is that of a DIMM on the memory's range; any other stays.
fn put_range(body: &mut Body, memory: Option<Memory>)
    ensures { body.new ≡ with_registers (registers_on (range_in memory) (registers_of body.old)) body.old }
{
    if let Some(Memory { range, .. }) = memory {
        body.device = Device::Dimm(Dimm {
            addr: range.at,
            size: range.size,
        });
    }
}

/// The body of a device stands on the range of its memory, if it has one.
fn set_range<L: Ledger>(heap: &mut Heap, device: Oid, memory: Option<Memory>, steps: &mut Steps<L>)
    requires { IsLive heap.old.rows device }
    ensures { heap.new ≡ with_edit device.birth (ranged (range_in memory)) heap.old }
{
    heap.reveal_invariant();
    put_range(heap.body_mut(device, steps), memory);
}

/// A DIMM stands on the range of its memory, and a device has its id and keeps the claim on it, if it
/// has one.
fn put_body<L: Ledger>(
    heap: &mut Heap,
    device: Oid,
    memory: Option<Memory>,
    id_claim: Option<IdClaim>,
    steps: &mut Steps<L>,
)
    requires live { IsLive heap.old.rows device }
    requires dimm { IfSome memory (λ m. IfSome (content_of heap.old device.birth) (λ c. IsDimm c.body)) }
    requires on { IfSome id_claim (λ l. l.claim ≡ on.Device l.id) }
    requires unnamed { option_and_then (λ c. c.device_id) (content_of heap.old device.birth) ≡ None }
    ensures shown { (b : Board) → Shows b heap.old → Shows (edit device.birth (with_body_of (option_map (λ l. l.id) id_claim) (range_in memory)) b) heap.new }
    ensures alike { Alike heap.old heap.new }
    ensures spare { heap.new.events.spare ≡ heap.old.events.spare }
    ensures kept { SameKept heap.old heap.new }
    ensures book { (out : List Claimed) → IsBook (id_claims_out id_claim ++ out) heap.old → IsBook out heap.new }
{
    heap.reveal_invariant();
    set_range(heap, device, memory, steps);
    keep_id_claim(heap, device, id_claim, steps);
}

/// The clock that the clock of a device on a bus goes by: that of the device whose bus this is, or the
/// system's; `None` where that is not there.
fn source_of<L: Ledger>(heap: &Heap, bus: Oid, steps: &mut Steps<L>) -> Option<Oid>
    ensures source { (b : Board) → Shows b heap.now → IfSome result (λ o. o.birth ≡ source_for b bus.birth) }
    ensures live { IfSome result (IsLive heap.now.rows) }
    ensures none { (b : Board) → Shows b heap.now → IfNone result (kind_of b (source_for b bus.birth) ≡ None) }
{
    if let Some(bridge) = bridge_of(heap, bus, steps) {
        if let Some(clock) = clock_of(heap, bridge, steps) {
            return Some(clock);
        }
    }
    heap.by_birth(SYSTEM_CLOCK_BIRTH)
}

/// The clock of a device, where it has one, goes by its source from now on, where this is there.
fn connect_clock<L: Ledger>(heap: &mut Heap, device: Oid, source: Option<Oid>, steps: &mut Steps<L>)
    requires live { IsLive heap.old.rows device }
    requires source { IfSome source (IsLive heap.old.rows) }
    ensures shown { (b : Board) → Shows b heap.old → IfSome source (λ o. Shows (with_source o.birth (clock_of b device.birth) b) heap.new) }
    ensures none { IfNone source (heap.new ≡ heap.old) }
    ensures connected { Connected heap.old heap.new }
    ensures fed { (b : Board) (n : ℕ) → Shows b heap.new → clock_of b device.birth ≡ Some n → IfSome source (λ _. ClockFed n heap.old heap.new) }
    ensures unfed { (b : Board) → Shows b heap.new → clock_of b device.birth ≡ None → KeepsPeriods heap.old heap.new }
{
    heap.reveal_board();
    let Some(source) = source else {
        return;
    };
    if let Some(clock) = clock_of(heap, device, steps) {
        connect(heap, clock, source, steps);
    }
}

/// The canonical path of a device, in two texts.
#[derive(Drop)]
pub struct DevicePath {
    /// The one that is kept for the end of the device.
    pub kept: Text,
    /// The same, to be told.
    pub told: Text,
}

/// The canonical path of a device that stands. A device that has none counts as want of memory.
fn path_of<L: Ledger>(
    heap: &Heap,
    device: Oid,
    alloc: Global,
    steps: &mut Steps<L>,
) -> Result<DevicePath, AllocError>
    ensures path { IfOk result (λ path. (b : Board) → Shows b heap.now → canonical b device.birth ≡ Some path.kept) }
    ensures told { IfOk result (λ path. path.told ≡ path.kept) }
{
    let Some(path) = canonical(heap, device, alloc, steps)? else {
        return Err(AllocError);
    };
    let told = String::from_str(alloc, path.as_str())?;
    Ok(DevicePath {
        kept: Text::from_string(path),
        told: Text::from_string(told),
    })
}

/// A device joins its bus, under a name there; answers its canonical path. The error is want of
/// memory, and leaves the heap as it was.
fn join_to<L: Ledger>(
    heap: &mut Heap,
    device: Oid,
    bus: Oid,
    link: SlotName,
    alloc: Global,
    steps: &mut Steps<L>,
) -> Result<DevicePath, AllocError>
    requires live { IsLive heap.old.rows device }
    requires bus { IsLive heap.old.rows bus }
    ensures now { OnOk result (heap.new ≡ with_edit bus.birth (with_slot link (Link types.Device true (Some device))) heap.old) }
    ensures path { IfOk result (λ path. (b : Board) → Shows b heap.new → canonical b device.birth ≡ Some path.kept) }
    ensures told { IfOk result (λ path. path.told ≡ path.kept) }
    ensures err { OnErr result (heap.new ≡ heap.old) }
{
    heap.reveal_invariant();
    let at = heap.slot_count(bus, steps);
    join_bus(heap, bus, device, link, steps)?;
    match path_of(heap, device, alloc, steps) {
        Ok(path) => Ok(path),
        Err(error) => {
            let _device = heap.empty(bus, at, steps);
            heap.cut(bus, at, steps);
            Err(error)
        }
    }
}

/// A device joins its container and its bus; answers its canonical path. The error is want of memory,
/// and leaves the heap as it was.
fn join<L: Ledger>(
    heap: &mut Heap,
    device: Oid,
    attachment: Attachment,
    alloc: Global,
    steps: &mut Steps<L>,
) -> Result<DevicePath, AllocError>
    requires live { IsLive heap.old.rows device }
    requires container { IsLive heap.old.rows attachment.container }
    requires bus { IsLive heap.old.rows attachment.bus }
    requires slot { attachment.resources.slot < BUS_SLOTS }
    ensures now { OnOk result (heap.new ≡ joined_on attachment.container attachment.name attachment.bus attachment.resources.slot device heap.old) }
    ensures path { IfOk result (λ path. (b : Board) → Shows b heap.new → canonical b device.birth ≡ Some path.kept) }
    ensures told { IfOk result (λ path. path.told ≡ path.kept) }
    ensures err { OnErr result (heap.new ≡ heap.old) }
{
    heap.reveal_invariant();
    let Attachment {
        container,
        name,
        bus,
        resources,
    } = attachment;
    let link = kid_name(resources.slot);
    drop(resources);
    let at = heap.slot_count(container, steps);
    heap.add_child(container, SlotName::own(name), device, steps)?;
    match join_to(heap, device, bus, link, alloc, steps) {
        Ok(path) => Ok(path),
        Err(error) => {
            let _device = heap.empty(container, at, steps);
            Err(error)
        }
    }
}

/// A device that was made takes its place: it joins its container and its bus, has the values that
/// are planned for its own slots, its id if it has one, its claims, and its clock's source, and a DIMM
/// stands on its range; answers its canonical path. What it claims is held by no other. Its body keeps
/// the claims of its attachment, and each other body those that it kept. Of its clock the periods are kept
/// that it has by its source, and of other clocks those that were. A place for an event on it is kept
/// free. The error is want of memory, and a device that has no path counts as that; it leaves all boards
/// as they were, and to each body its claims.
pub fn stand<L: Ledger>(
    heap: &mut Heap,
    device: Oid,
    attachment: Attachment,
    id: Option<Id>,
    plan: Vec<InitialValue>,
    alloc: Global,
    steps: &mut Steps<L>,
) -> Result<DevicePath, AllocError>
    requires live { IsLive heap.old.rows device }
    requires container { IsLive heap.old.rows attachment.container }
    requires bus { IsLive heap.old.rows attachment.bus }
    requires slot { attachment.resources.slot < BUS_SLOTS }
    requires free_id { IsFreeId id heap.old.claims }
    requires free { AreFreeResources attachment.bus.birth attachment.resources heap.old.claims }
    requires apart { (device.birth == attachment.bus.birth) ≡ false }
    requires new { IfSome (content_of heap.old device.birth) HasNoClaim }
    requires dimm { IfSome attachment.resources.memory (λ m. IfSome (content_of heap.old device.birth) (λ c. IsDimm c.body)) }
    requires targets { AllByRecursion (λ f. IfSome (target_in f) (IsLive heap.old.rows)) plan.items }
    requires fits { AllZip Fits plan.items (own_slots_of heap.old device.birth) }
    ensures stood { IfOk result (λ path. (b c : Board) (a : Wanted) → Shows c heap.old → IsAttachment b a attachment.container.birth attachment.name id → source_for b attachment.bus.birth ≡ source_for c attachment.bus.birth → AllZip (IsGiven b a.props) plan.items (own_slots_of heap.old device.birth) → Stood b c device.birth a (resources_in attachment.bus.birth attachment.resources) path.kept heap.new) }
    ensures told { IfOk result (λ path. path.told ≡ path.kept) }
    ensures room { OnOk result (1 ≤ heap.new.events.spare) }
    ensures err { OnErr result ((b : Board) → Shows b heap.old → Shows b heap.new) }
    ensures names { KeepsNames heap.old heap.new }
    ensures paths { option_map (λ c. c.kept_path) (content_of heap.new device.birth) ≡ option_map (λ c. c.kept_path) (content_of heap.old device.birth) }
    ensures pinned { 0 < pins_of heap.old device.birth → 0 < pins_of heap.new device.birth }
    ensures claims { OnOk result (SameClaims (with_edit device.birth (kept_in (kept_on attachment.bus.birth attachment.resources)) heap.old) heap.new) }
    ensures counts { OnOk result (KeepsCounts heap.old heap.new) }
    ensures fed { OnOk result ((b c : Board) (n : ℕ) → Shows b heap.old → is_live b (source_for b attachment.bus.birth) ≡ true → Shows c heap.new → clock_of c device.birth ≡ Some n → ClockFed n heap.old heap.new) }
    ensures unfed { OnOk result ((c : Board) → Shows c heap.new → clock_of c device.birth ≡ None → KeepsPeriods heap.old heap.new) }
    ensures unkept { OnErr result (SameKept heap.old heap.new) }
    ensures book { KeepsBook heap.old heap.new }
{
    heap.reveal_invariant();
    heap.reserve_event()?;
    let source = source_of(heap, attachment.bus, steps);
    let (bus, slot, memory) = (
        attachment.bus,
        attachment.resources.slot,
        attachment.resources.memory,
    );
    let taken = take_claims(heap, id, bus.birth, &attachment.resources)?;
    match join(heap, device, attachment, alloc, steps) {
        Ok(path) => {
            let DeviceClaims { id_claim, kept } = taken;
            keep_claims(heap, device, kept, steps);
            put_values(heap, device, bus, slot, memory, plan, steps);
            put_body(heap, device, memory, id_claim, steps);
            connect_clock(heap, device, source, steps);
            heap.reveal_invariant();
            Ok(path)
        }
        Err(error) => {
            give_back(heap, taken);
            Err(error)
        }
    }
}
