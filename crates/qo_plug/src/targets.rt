//! The checks of what is asked for of a device: what bars it before anything of it is made, and where it is to go.

ghost use Rattle.std.specs.Prelude.{◌≡◌, ◌≤◌, List, true, false, codes, Some, None, IfOk, OnOk, option_map};
ghost use Rattle.qo_values.specs.declared.births.TheConstants.{ANONYMOUS_BIRTH, PERIPHERAL_BIRTH};
ghost use Rattle.qo_values.specs.Ids.{is_id};
ghost use Rattle.qo_claims.specs.Book.{is_taken};
ghost use Rattle.qo_claims.specs.declared.claims.Claimed.TheVariants as on;
ghost use Rattle.qo_model.specs.Board.{Board};
ghost use Rattle.qo_model.specs.Objects.{Given};
ghost use Rattle.qo_model.specs.Plug.{id_barred, id_refused, plug};
ghost use Rattle.qo_model.specs.Types.{is_a};
ghost use Rattle.qo_heap.specs.Rows.{IsLive};
ghost use Rattle.qo_heap.specs.Board.{Shows};
ghost use Rattle.qo_buses.specs.Recount.{IsRecounted};
ghost use Rattle.qo_plug.specs.FreeResources.{IsFreeId};
ghost use Rattle.qo_plug.specs.Admission.{IfRefused, IsAdmitted, IsPlaced, wanted};

use crate::checks::{device_kind, open_bus, room, vacant};
use crate::refusals::AddRefusal;
use qo_buses::anonymous_name;
use qo_heap::{Heap, Oid, Steps};
use qo_hotplug::Hotplug;
use qo_values::{ANONYMOUS_BIRTH, Code, Id, IdError, Name, PERIPHERAL_BIRTH, TypeId};
use std::alloc::Global;
use std::sync::ledger::Ledger;

/// The place of a new device in the tree.
#[derive(Drop)]
pub struct ContainerSlot {
    /// The container that it is to be a child of.
    pub container: Oid,
    /// Its name there.
    pub name: Name,
    /// Its id, if it has one.
    pub id: Option<Id>,
}

/// Where a device is to go once its options are checked.
#[derive(Drop)]
pub struct Target {
    /// Its type.
    pub kind: TypeId,
    /// Its place in the tree.
    pub place: ContainerSlot,
    /// The bus that it is to be plugged into.
    pub bus: Oid,
}

/// The id that a text is, where no device has it. `E23` comes where the text is no id, `E24` where a
/// device has it.
fn free_id(heap: &Heap, text: &str, alloc: Global) -> Result<Id, AddRefusal>
    ensures id { IfOk result (λ id. (id ≡ text.now) × (is_id text.now ≡ true)) }
    ensures open { OnOk result ((b : Board) → IsRecounted b heap.now.claims → id_refused b (Some text.now) ≡ None) }
    ensures refused { (b : Board) → IsRecounted b heap.now.claims → IfRefused result (λ stage code. (stage ≡ 2) × (id_refused b (Some text.now) ≡ Some code)) }
    ensures free { IfOk result (λ id. is_taken (on.Device id) heap.now.claims ≡ false) }
{
    let id = match Id::parse(alloc, text) {
        Ok(id) => id,
        Err(IdError::Malformed) => {
            return Err(AddRefusal::Refused {
                stage: 2,
                code: Code::E23,
            });
        }
        Err(IdError::Memory) => return Err(AddRefusal::Memory),
    };
    if heap.book().is_id_taken(text) {
        return Err(AddRefusal::Refused {
            stage: 2,
            code: Code::E24,
        });
    }
    Ok(id)
}

/// The place of a device with an id, which is its name in its container.
fn named_place<L: Ledger>(
    heap: &Heap,
    text: &str,
    alloc: Global,
    steps: &mut Steps<L>,
) -> Result<ContainerSlot, AddRefusal>
    ensures live { IfOk result (λ p. IsLive heap.now.rows p.container) }
    ensures place { (b : Board) → IfOk result (IsPlaced b (Some text.now)) }
    ensures open { OnOk result ((b : Board) → Shows b heap.now → IsRecounted b heap.now.claims → id_barred b (Some text.now) ≡ None) }
    ensures refused { (b : Board) → Shows b heap.now → IsRecounted b heap.now.claims → IfRefused result (λ stage code. (stage ≡ 2) × (id_barred b (Some text.now) ≡ Some code)) }
    ensures free { IfOk result (λ p. IsFreeId p.id heap.now.claims) }
{
    let id = match free_id(heap, text, alloc) {
        Ok(id) => id,
        Err(refusal) => return Err(refusal),
    };
    let name = match id.to_name(alloc) {
        Ok(name) => name,
        Err(_) => return Err(AddRefusal::Memory),
    };
    match vacant(heap, PERIPHERAL_BIRTH, text, steps) {
        Ok(container) => Ok(ContainerSlot {
            container,
            name,
            id: Some(id),
        }),
        Err(code) => Err(AddRefusal::Refused { stage: 2, code }),
    }
}

/// The place of a device without an id: its name tells how many such devices were added before.
fn anonymous_place<L: Ledger>(
    heap: &Heap,
    anonymous: u64,
    alloc: Global,
    steps: &mut Steps<L>,
) -> Result<ContainerSlot, AddRefusal>
    ensures live { IfOk result (λ p. IsLive heap.now.rows p.container) }
    ensures place { (b : Board) → b.anonymous ≡ anonymous → IfOk result (IsPlaced b None) }
    ensures open { OnOk result ((b : Board) → Shows b heap.now → b.anonymous ≡ anonymous → id_barred b None ≡ None) }
    ensures refused { (b : Board) → Shows b heap.now → b.anonymous ≡ anonymous → IfRefused result (λ stage code. (stage ≡ 2) × (id_barred b None ≡ Some code)) }
    ensures free { IfOk result (λ p. IsFreeId p.id heap.now.claims) }
{
    let name = match anonymous_name(anonymous, alloc) {
        Ok(name) => name,
        Err(_) => return Err(AddRefusal::Memory),
    };
    match vacant(heap, ANONYMOUS_BIRTH, name.as_str(), steps) {
        Ok(container) => Ok(ContainerSlot {
            container,
            name,
            id: None,
        }),
        Err(code) => Err(AddRefusal::Refused { stage: 2, code }),
    }
}

/// The place of a device in the tree, by the id that is asked for, if one is.
fn place_for<L: Ledger>(
    heap: &Heap,
    anonymous: u64,
    id: Option<&str>,
    alloc: Global,
    steps: &mut Steps<L>,
) -> Result<ContainerSlot, AddRefusal>
    ensures live { IfOk result (λ p. IsLive heap.now.rows p.container) }
    ensures place { (b : Board) → b.anonymous ≡ anonymous → IfOk result (IsPlaced b (option_map (λ t. t.now) id.entry)) }
    ensures open { OnOk result ((b : Board) → Shows b heap.now → IsRecounted b heap.now.claims → b.anonymous ≡ anonymous → id_barred b (option_map (λ t. t.now) id.entry) ≡ None) }
    ensures refused { (b : Board) → Shows b heap.now → IsRecounted b heap.now.claims → b.anonymous ≡ anonymous → IfRefused result (λ stage code. (stage ≡ 2) × (id_barred b (option_map (λ t. t.now) id.entry) ≡ Some code)) }
    ensures free { IfOk result (λ p. IsFreeId p.id heap.now.claims) }
{
    match id {
        Some(text) => named_place(heap, text, alloc, steps),
        None => anonymous_place(heap, anonymous, alloc, steps),
    }
}

/// Where a device that is asked for is to go: its type, its place in the tree and its bus, where
/// nothing bars it before an attempt. `hotplug` has the removals that are asked for,
/// `anonymous` is how many devices without an id were added. A refusal is the first in the order of
/// the stages: of its type (stage 1: `E20`, `E21`, `E22`), its id and its place in the container
/// (2: `E23`, `E24`, `E15`), its bus (3: `E25`, `E26`, `E27`), and the room for its objects
/// (4: `E43`); nothing of it is made then.
pub fn check_options<L: Ledger>(
    heap: &Heap,
    hotplug: &Hotplug,
    anonymous: u64,
    driver: &str,
    id: Option<&str>,
    bus: Option<&str>,
    alloc: Global,
    steps: &mut Steps<L>,
) -> Result<Target, AddRefusal>
    ensures live { IfOk result (λ s. IsLive heap.now.rows s.place.container × IsLive heap.now.rows s.bus) }
    ensures device { IfOk result (λ s. is_a s.kind (codes "device") ≡ true) }
    ensures admitted { (b : Board) (props : List Given) → Shows b heap.now → IsRecounted b heap.now.claims → b.pending ≡ hotplug.now.pending → b.anonymous ≡ anonymous → IfOk result (IsAdmitted b (wanted driver.now (option_map (λ t. t.now) id.entry) (option_map (λ t. t.now) bus.entry) props)) }
    ensures refused { (b : Board) (props : List Given) → Shows b heap.now → IsRecounted b heap.now.claims → b.pending ≡ hotplug.now.pending → b.anonymous ≡ anonymous → IfRefused result (λ stage code. (1 ≤ stage) × (stage ≤ 4) × (plug b (wanted driver.now (option_map (λ t. t.now) id.entry) (option_map (λ t. t.now) bus.entry) props) ≡ record { refusal = Some (stage, code); board = b })) }
    ensures free { IfOk result (λ s. IsFreeId s.place.id heap.now.claims) }
{
    let kind = match device_kind(driver) {
        Ok(kind) => kind,
        Err(code) => return Err(AddRefusal::Refused { stage: 1, code }),
    };
    let place = match place_for(heap, anonymous, id, alloc, steps) {
        Ok(place) => place,
        Err(refusal) => return Err(refusal),
    };
    let bus = match open_bus(heap, kind, bus, hotplug, steps) {
        Ok(bus) => bus,
        Err(code) => return Err(AddRefusal::Refused { stage: 3, code }),
    };
    match room(heap, kind) {
        Ok(()) => Ok(Target { kind, place, bus }),
        Err(code) => Err(AddRefusal::Refused { stage: 4, code }),
    }
}
