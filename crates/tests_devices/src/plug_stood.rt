//! What no clause says: that a device stands and starts where there is enough memory.
ghost use Rattle.std.specs.Prelude.{◌≡◌, ◌<◌};

use qo_buses::{anonymous_name, is_realized};
use qo_heap::{Heap, Steps};
use qo_hotplug::Hotplug;
use qo_plug::{Attachment, DevicePath, Resources, make_device, stand, start};
use qo_properties::{make_all, plan};
use qo_reset::Resets;
use qo_values::{ANONYMOUS_BIRTH, PropList, ROOT_BUS_BIRTH, TypeId};
use std::alloc::{AllocError, Global};
use std::marker::Brand;
use std::sync::ledger::{Blank, Ledger};
use std::test::Fail;

/// A bridge takes its place on the opening board and starts: it is realized, and the guest is told of
/// it.
fn started<L: Ledger>(alloc: Global, blank: Blank) -> Result<bool, AllocError>
    requires name { blank.name ≡ L.name }
    requires parts { blank.parts ≡ L.parts }
    requires some { 0 < blank.parts }
{
    let mut steps = Steps::<L>::from_blank(blank);
    let mut heap = Heap::new(alloc)?;
    make_all(&mut heap, alloc, &mut steps)?;
    let kind = TypeId::SlotBridge;
    let props = PropList::new(alloc);
    let Ok(mut plan) = plan(&heap, kind, &props, alloc, &mut steps) else {
        return Ok(false);
    };
    let device = make_device(&mut heap, kind, plan.as_mut_slice(), alloc, &mut steps)?;
    let name = anonymous_name(0, alloc)?;
    let (Some(container), Some(bus)) = (
        heap.by_birth(ANONYMOUS_BIRTH),
        heap.by_birth(ROOT_BUS_BIRTH),
    ) else {
        return Ok(false);
    };
    if device.birth == bus.birth {
        return Ok(false);
    }
    if heap.book().is_slot_taken(bus.birth, 0) {
        return Ok(false);
    }
    let resources = Resources {
        slot: 0,
        ring: None,
        memory: None,
    };
    let attachment = Attachment {
        container,
        name,
        bus,
        resources,
    };
    let DevicePath { kept, told: same } = stand(
        &mut heap, device, attachment, None, plan, alloc, &mut steps,
    )?;
    let path = "/machine/peripheral-anon/device[0]";
    let stands = kept.as_str() == path && same.as_str() == path;
    let resets = Resets::new(alloc);
    let mut hotplug = Hotplug::new(alloc)?;
    start(&mut heap, &resets, &mut hotplug, device, kept, &mut steps);
    let told = hotplug.notices().len() == 1;
    Ok(stands && told && is_realized(&heap, device, &mut steps))
}

#[test]
fn a_bridge_stands_and_starts(rt: HostRuntime) -> Result<(), Fail> {
    assert!(rt; started::<Brand>(rt.alloc(), Blank::new(1))?);
    Ok(())
}
