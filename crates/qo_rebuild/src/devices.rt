//! Devices are added, and the guest takes the notice of each.

ghost use Rattle.std.specs.Prelude.{map};
ghost use Rattle.qo_model.specs.Board.{Board as Tree};
ghost use Rattle.qo_realize.specs.Answers.{Plugs, Writes};
ghost use Rattle.qo_realize.specs.Representation.{Stands};
ghost use Rattle.qo_save.specs.Rebuilding.{add_device, all_done, wanted_by};
ghost use Rattle.qo_shape.specs.Said.{device_said};

use crate::props::with_slot;
use qo_heap::Steps;
use qo_plug::{AddRefusal, Added, DeviceOptions};
use qo_properties::Refusal;
use qo_realize::Board;
use qo_shape::DeviceItem;
use std::alloc::Global;
use std::sync::ledger::Ledger;

/// Adds a device, with its slot among its properties.
fn plug<L: Ledger>(
    board: &mut Board,
    device: &DeviceItem,
    alloc: Global,
    steps: &mut Steps<L>,
) -> Result<Added, AddRefusal>
    ensures { (b : Tree) → Stands b board.old → Plugs b (wanted_by (device_said device.now)) result board.new }
{
    let props = with_slot(device.slot, &device.props, alloc)?;
    let options = DeviceOptions {
        driver: device.driver.as_str(),
        id: Some(device.id.as_str()),
        bus: Some(device.bus.as_str()),
        props: &props,
    };
    board.add(&options, alloc, steps)
}

/// Adds a device, and takes the notice that the guest has of it.
fn add_device<L: Ledger>(
    board: &mut Board,
    device: &DeviceItem,
    alloc: Global,
    steps: &mut Steps<L>,
) -> Result<(), Refusal>
    ensures { (b : Tree) → Stands b board.old → Writes board.new result (add_device (device_said device.now) b) }
{
    match plug(board, device, alloc, steps) {
        Ok(_added) => {
            let _notice = board.poll();
            Ok(())
        }
        Err(AddRefusal::Refused { stage: _, code }) => Err(Refusal::Refused(code)),
        Err(AddRefusal::Memory) => Err(Refusal::Memory),
    }
}

/// Adds devices, one after another.
pub(crate) fn add_devices<L: Ledger>(
    board: &mut Board,
    devices: &[DeviceItem],
    alloc: Global,
    steps: &mut Steps<L>,
) -> Result<(), Refusal>
    ensures { (b : Tree) → Stands b board.old → Writes board.new result (all_done (map add_device (map device_said devices.now)) b) }
{
    for device in devices {
        add_device(board, device, alloc, steps)?;
    }
    Ok(())
}
