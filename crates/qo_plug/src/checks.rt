//! Why a device is refused before anything of it is made: its type, its id, its bus, and the room
//! for its objects. The first that stands is the refusal, decided on the board before.

ghost use Rattle.std.specs.Prelude.{◌≡◌, true, Err, Some, None, IfNone, IfOk, IfSome, codes, is_some, option_map};
ghost use Rattle.qo_values.specs.declared.codes.Code.{Code};
ghost use Rattle.qo_values.specs.declared.codes.Code.TheVariants.{E26};
ghost use Rattle.qo_model.specs.Board.{Board};
ghost use Rattle.qo_model.specs.Paths.{is_of};
ghost use Rattle.qo_model.specs.Plug.{bus_barred, bus_for, bus_type, container_barred, objects_in, room_barred, type_barred};
ghost use Rattle.qo_model.specs.Types.{is_a, type_named};
ghost use Rattle.qo_heap.specs.Rows.{IsLive};
ghost use Rattle.qo_heap.specs.Board.{Shows};
ghost use Rattle.qo_properties.specs.Changes.{refusal_in};

use qo_buses::{is_going, is_of};
use qo_heap::{Heap, Oid, Steps};
use qo_hotplug::Hotplug;
use qo_paths::{is_attached, resolve};
use qo_properties::objects_in;
use qo_types::TypeTable;
use qo_values::{Code, LIVE_OBJECTS_MAX, MEMORY_BUS_BIRTH, ROOT_BUS_BIRTH, TypeId};
use std::sync::ledger::Ledger;

/// The type of a name, where it is one of devices that can be made. `E20` comes where no type has the
/// name, `E21` where it is abstract, `E22` where it is not one of devices.
pub fn device_kind(driver: &str) -> Result<TypeId, Code>
    ensures kind { IfOk result (λ kind. option_map (λ r. r.id) (type_named driver.now) ≡ Some kind) }
    ensures device { IfOk result (λ kind. is_a kind (codes "device") ≡ true) }
    ensures refused { refusal_in result ≡ type_barred driver.now }
{
    let Some(kind) = TypeTable::board().find(driver) else {
        return Err(Code::E20);
    };
    if TypeTable::board().is_abstract(kind) {
        return Err(Code::E21);
    }
    if !TypeTable::board().derives_from(kind, TypeId::Device) {
        return Err(Code::E22);
    }
    Ok(kind)
}

/// The container of a birth, where it has room for a device under a name. `E15` comes where no
/// container is there, `E24` where it has a slot of that name.
pub fn vacant<L: Ledger>(
    heap: &Heap,
    birth: u64,
    name: &str,
    steps: &mut Steps<L>,
) -> Result<Oid, Code>
    ensures container { IfOk result (λ o. (o.birth ≡ birth) × IsLive heap.now.rows o) }
    ensures refused { (b : Board) → Shows b heap.now → refusal_in result ≡ container_barred b birth name.now }
{
    let Some(container) = heap.by_birth(birth) else {
        return Err(Code::E15);
    };
    if !is_of(heap, container, TypeId::Container, steps) {
        return Err(Code::E15);
    }
    if heap.slot(container, name, steps).is_some() {
        return Err(Code::E24);
    }
    Ok(container)
}

/// Whether a device of a type goes on a slot bus; else it goes on the memory bus.
fn is_slotted(kind: TypeId) -> bool
    ensures { result ≡ is_a kind (codes "slot-device") }
{
    TypeTable::board().derives_from(kind, TypeId::SlotDevice)
}

/// The bus where a device of a type goes that names none, if it is there.
fn own_bus(heap: &Heap, kind: TypeId) -> Option<Oid>
    ensures live { IfSome result (IsLive heap.now.rows) }
    ensures bus { (b : Board) → Shows b heap.now → IfSome result (λ o. bus_for b kind None ≡ Some o.birth) }
    ensures none { (b : Board) → Shows b heap.now → IfNone result (bus_barred b kind (bus_for b kind None) ≡ Some E26) }
{
    if is_slotted(kind) {
        heap.by_birth(ROOT_BUS_BIRTH)
    } else {
        heap.by_birth(MEMORY_BUS_BIRTH)
    }
}

/// The bus that is named by a path, or that where a device of a type goes. `E25` comes where the path
/// leads to no bus, or to several; `E26` where no bus is there that is named by none.
fn bus_at<L: Ledger>(
    heap: &Heap,
    kind: TypeId,
    path: Option<&str>,
    steps: &mut Steps<L>,
) -> Result<Oid, Code>
    ensures live { IfOk result (IsLive heap.now.rows) }
    ensures bus { (b : Board) → Shows b heap.now → IfOk result (λ o. bus_for b kind (option_map (λ p. p.now) path.entry) ≡ Some o.birth) }
    ensures refused { (b : Board) (code : Code) → Shows b heap.now → result ≡ Err code → bus_barred b kind (bus_for b kind (option_map (λ p. p.now) path.entry)) ≡ Some code }
{
    match path {
        None => own_bus(heap, kind).ok_or(Code::E26),
        Some(path) => match resolve(heap, path, "bus", steps) {
            Ok(bus) => Ok(bus),
            Err(_) => Err(Code::E25),
        },
    }
}

/// Whether a bus is of the kind on which devices of a type go.
fn takes<L: Ledger>(heap: &Heap, bus: Oid, kind: TypeId, steps: &mut Steps<L>) -> bool
    requires { IsLive heap.now.rows bus }
    ensures { (b : Board) → Shows b heap.now → result ≡ is_of b (bus_type kind) bus.birth }
{
    if is_slotted(kind) {
        is_of(heap, bus, TypeId::SlotBus, steps)
    } else {
        is_of(heap, bus, TypeId::MemBus, steps)
    }
}

/// The bus on which a device of a type is to go, by its path if one is given. `hotplug` has the
/// removals that are asked for. `E25` comes where the path leads to no bus, or to several;
/// `E26` where the bus is of another kind; `E27` where it is detached, or a removal is pending of a
/// bridge above it.
pub fn open_bus<L: Ledger>(
    heap: &Heap,
    kind: TypeId,
    path: Option<&str>,
    hotplug: &Hotplug,
    steps: &mut Steps<L>,
) -> Result<Oid, Code>
    ensures live { IfOk result (IsLive heap.now.rows) }
    ensures bus { (b : Board) → Shows b heap.now → IfOk result (λ o. bus_for b kind (option_map (λ p. p.now) path.entry) ≡ Some o.birth) }
    ensures refused { (b : Board) → Shows b heap.now → b.pending ≡ hotplug.now.pending → refusal_in result ≡ bus_barred b kind (bus_for b kind (option_map (λ p. p.now) path.entry)) }
{
    let bus = bus_at(heap, kind, path, steps)?;
    if !takes(heap, bus, kind, steps) {
        return Err(Code::E26);
    }
    if !is_attached(heap, bus, steps) || is_going(heap, bus, hotplug, steps) {
        return Err(Code::E27);
    }
    Ok(bus)
}

/// Whether there is room for the objects of a device of a type: `E43` comes where there would be more
/// than `LIVE_OBJECTS_MAX`.
pub fn room(heap: &Heap, kind: TypeId) -> Result<(), Code>
    ensures { (b : Board) → Shows b heap.now → refusal_in result ≡ room_barred b kind }
{
    heap.reveal_invariant();
    if (heap.live() + objects_in(kind)) as u64 <= LIVE_OBJECTS_MAX {
        Ok(())
    } else {
        Err(Code::E43)
    }
}
