//! Placing a device that was begun, the stages 5 to 7 of adding: it takes its place in a slot of its
//! bus, or is given up. Where the notices will refuse it, it stands nowhere.

ghost use Rattle.std.specs.Prelude.{◌≡◌, ◌<◌, ◌≤◌, Err, IfOk, OnErr, length, nat_le};
ghost use Rattle.qo_values.specs.declared.limits.TheConstants.{NOTICES_MAX};
ghost use Rattle.qo_model.specs.Board.{Board};
ghost use Rattle.qo_model.specs.Plug.{Wanted};
ghost use Rattle.qo_properties.specs.Claims.{KeepsBook};
ghost use Rattle.qo_properties.specs.KeptClaims.{KeptBefore};
ghost use Rattle.qo_plug.specs.declared.refusals.AddRefusal.TheVariants.{Memory};
ghost use Rattle.qo_plug.specs.Admission.{IfRefused};
ghost use Rattle.qo_plug.specs.Answers.{IsCut, IsRefused};
ghost use Rattle.qo_plug.specs.KeptClaims.{KeptAs};
ghost use Rattle.qo_plug.specs.KeptPeriods.{FedAs, SourcesThere};
ghost use Rattle.qo_plug.specs.Stages.{IsBegun, IsHeld, IsReady, IsSettled};

use crate::beginning::NewDevice;
use crate::drafting::give_up;
use crate::refusals::{AddRefusal, Barred};
use crate::resources::Resources;
use crate::standing::{Attachment, DevicePath, stand};
use crate::targets::{ContainerSlot, Target};
use qo_heap::{Heap, Oid, Steps};
use qo_hotplug::Hotplug;
use qo_values::{Id, NOTICES_MAX};
use std::alloc::Global;
use std::sync::ledger::Ledger;

/// How a device was placed.
pub enum Plugging {
    /// It stands in its place; its canonical path.
    Attached(DevicePath),
    /// It stands nowhere, since as many notices wait as may; whether no hold is on its bus.
    NoticesFull {
        /// Whether no hold is on its bus.
        out: bool,
    },
}

/// A device that was placed, and is held from outside the tree. It can't be let go: it is spent by
/// `finish`.
pub struct AttachedDevice {
    /// The device.
    pub device: Oid,
    /// Its slot of its bus.
    pub slot: u8,
    /// How it was placed.
    pub plugging: Plugging,
}

/// Whether as many notices wait for the guest as may.
fn are_full(hotplug: &Hotplug) -> bool
    ensures { result ≡ nat_le NOTICES_MAX (length hotplug.now.notices) }
{
    hotplug.notices().len() as u64 >= NOTICES_MAX
}

/// Where a device is to stand with its resources, and its id, if it has one.
fn attachment_at(target: Target, resources: Resources) -> (Attachment, Option<Id>)
    ensures container { result.0.container ≡ target.place.container }
    ensures name { result.0.name ≡ target.place.name }
    ensures bus { result.0.bus ≡ target.bus }
    ensures resources { result.0.resources ≡ resources }
    ensures id { result.1 ≡ target.place.id }
{
    let Target { place, bus, .. } = target;
    let ContainerSlot {
        container,
        name,
        id,
    } = place;
    let attachment = Attachment {
        container,
        name,
        bus,
        resources,
    };
    (attachment, id)
}

/// Places a device that was begun: the stages 5 to 7. A refusal is that of its slot, its depth or its
/// memory (stage 5: `E28`, `E29`, `E30`, `E42`, `E38` to `E41`), or of its ring (6: `E36`, `E37`). An error gives the device up: its births and notes are left.
/// Where as many notices wait as may, the device takes no place, since `finish` refuses it then.
pub fn place<L: Ledger>(
    heap: &mut Heap,
    hotplug: &Hotplug,
    begun: NewDevice,
    alloc: Global,
    steps: &mut Steps<L>,
) -> Result<AttachedDevice, AddRefusal>
    requires { IsHeld begun heap.old }
    ensures settled { (b : Board) (a : Wanted) → IsBegun b a begun heap.old → b.notices ≡ hotplug.now.notices → IfOk result (λ p. IsSettled b a p heap.new) }
    ensures ready { IfOk result (λ p. IsReady p hotplug.now heap.new) }
    ensures refused { (b : Board) (a : Wanted) → IsBegun b a begun heap.old → IfRefused result (λ stage code. (5 ≤ stage) × (stage ≤ 6) × IsRefused b a stage code heap.new) }
    ensures memory { (b : Board) (a : Wanted) → IsBegun b a begun heap.old → result ≡ Err Memory → IsCut b a heap.new }
    ensures book { KeepsBook heap.old heap.new }
    ensures kept { IfOk result (λ p. KeptAs p.device.birth p.plugging heap.old heap.new) }
    ensures fed { (b : Board) (a : Wanted) → IsBegun b a begun heap.old → SourcesThere b → IfOk result (λ p. FedAs p.device.birth p.plugging heap.old heap.new) }
    ensures unkept { OnErr result (KeptBefore heap.old heap.new) }
{
    let NewDevice {
        target,
        device,
        plan,
        resources,
        out,
    } = begun;
    let resources = match resources {
        Ok(resources) => resources,
        Err(Barred { stage, code }) => {
            give_up(heap, device, steps);
            return Err(AddRefusal::Refused { stage, code });
        }
    };
    let slot = resources.slot;
    if are_full(hotplug) {
        let plugging = Plugging::NoticesFull { out };
        return Ok(AttachedDevice {
            device,
            slot,
            plugging,
        });
    }
    let (attachment, id) = attachment_at(target, resources);
    match stand(heap, device, attachment, id, plan, alloc, steps) {
        Ok(path) => Ok(AttachedDevice {
            device,
            slot,
            plugging: Plugging::Attached(path),
        }),
        Err(_) => {
            give_up(heap, device, steps);
            Err(AddRefusal::Memory)
        }
    }
}
