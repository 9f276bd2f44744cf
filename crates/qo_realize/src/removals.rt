//! Removals of devices that are asked for, and refused by the guest (QEMU's QAPI, `device_del`;
//! include/hw/hotplug.h).

ghost use Rattle.std.specs.Prelude.{◌≡◌, true, IfSome, OnOk, OnErr};
ghost use Rattle.qo_model.specs.Board.{Board};
ghost use Rattle.qo_model.specs.Hotplug.{asked, asked_of, device_at, refused};
ghost use Rattle.qo_model.specs.Paths.{attached};
ghost use Rattle.qo_object.specs.BoardObject.{birth_of};
ghost use Rattle.qo_heap.specs.Rows.{IsLive};
ghost use Rattle.qo_heap.specs.Board.{Shows};
ghost use Rattle.qo_properties.specs.Claims.{KeepsBook};
ghost use Rattle.qo_realize.specs.Removals.{Asks, HasRoom, IsAsked, is_listed};

use qo_buses::child_at;
use qo_heap::{Heap, Oid, Steps};
use qo_hotplug::{AskError, Hotplug};
use qo_paths::{is_absolute, is_attached, resolve};
use qo_values::{Code, PERIPHERAL_BIRTH};
use std::alloc::{AllocError, Global};
use std::sync::ledger::Ledger;

/// The device that a text is of: of one that begins with `/` the device at that absolute path, of any
/// other the child of that name of the container of devices with an id.
fn device_at<L: Ledger>(heap: &Heap, id: &str, steps: &mut Steps<L>) -> Option<Oid>
    ensures device { (b : Board) → Shows b heap.now → birth_of result ≡ device_at b id.now }
    ensures live { IfSome result (IsLive heap.now.rows) }
{
    if is_absolute(id) {
        return resolve(heap, id, "device", steps).ok();
    }
    let peripheral = heap.by_birth(PERIPHERAL_BIRTH)?;
    child_at(heap, peripheral, id, steps)
}

/// Asks for the removal of a device in the tree, at a moment of the virtual time. `E34` comes where it
/// is pending and was asked for less than `ASK_AGAIN_AFTER` ns before, else `E44` where as many notices
/// wait as may. An error leaves all as it was.
#[tactic(auto, using(crate::proofs::AskLemmas::asks_ok, crate::proofs::AskLemmas::asks_early, crate::proofs::AskLemmas::asks_full))]
fn ask_attached(hotplug: &mut Hotplug, dev: Oid, now: u64) -> Result<(), Code>
    requires { HasRoom hotplug.old.pending dev.birth }
    ensures asked { (b : Board) → IsAsked b hotplug.old → b.now ≡ now → attached b dev.birth ≡ true → Asks b (asked_of b dev.birth) result hotplug.new }
    ensures err { OnErr result (hotplug.new ≡ hotplug.old) }
{
    match hotplug.ask(dev, now) {
        Ok(()) => Ok(()),
        Err(AskError::Pending) => Err(Code::E34),
        Err(AskError::NoticesFull) => Err(Code::E44),
    }
}

/// Asks for the removal of the device that a text is of, and the guest is told so. `E33` comes where
/// there is no such device, `E35` where it is detached, `E34` where its removal is pending and was asked
/// for less than `ASK_AGAIN_AFTER` ns of the virtual time before, and `E44` where as many notices wait as
/// may. An error leaves all as it was. There is room for the removal of each object.
pub fn ask<L: Ledger>(
    heap: &Heap,
    hotplug: &mut Hotplug,
    id: &str,
    steps: &mut Steps<L>,
) -> Result<(), Code>
    requires { (o : Oid) → IsLive heap.now.rows o → HasRoom hotplug.old.pending o.birth }
    ensures asked { (b : Board) → Shows b heap.now → IsAsked b hotplug.old → Asks b (asked b id.now) result hotplug.new }
    ensures err { OnErr result (hotplug.new ≡ hotplug.old) }
{
    let Some(dev) = device_at(heap, id, steps) else {
        return Err(Code::E33);
    };
    if !is_attached(heap, dev, steps) {
        return Err(Code::E35);
    }
    ask_attached(hotplug, dev, heap.time())
}

/// The guest refuses the removal of a device, which is pending: it is pending no longer, the guest is
/// told no longer that it is asked for, and the event of it waits. The error is want of memory, and
/// leaves all as it was.
pub fn refuse<L: Ledger>(
    heap: &mut Heap,
    hotplug: &mut Hotplug,
    dev: Oid,
    alloc: Global,
    steps: &mut Steps<L>,
) -> Result<(), AllocError>
    requires live { IsLive heap.old.rows dev }
    requires pending { is_listed dev.birth hotplug.old.pending ≡ true }
    ensures refused { OnOk result ((b : Board) → Shows b heap.old → IsAsked b hotplug.old → Shows (refused b dev.birth) heap.new × IsAsked (refused b dev.birth) hotplug.new) }
    ensures book { KeepsBook heap.old heap.new }
    ensures rows { heap.new.rows ≡ heap.old.rows }
    ensures err { OnErr result ((heap.new ≡ heap.old) × (hotplug.new ≡ hotplug.old)) }
{
    heap.refused(alloc, dev, steps)?;
    match hotplug.nacked(dev) {
        Ok(()) => Ok(()),
        Err(_) => Ok(()),
    }
}
