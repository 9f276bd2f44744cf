//! What no clause says: that a device is made where there is enough memory.
ghost use Rattle.std.specs.Prelude.{◌≡◌, ◌<◌, [], OnErr};
ghost use Rattle.qo_properties.specs.KeptClaims.{NoneKept};

use qo_chardev::Rings;
use qo_heap::{Heap, Steps};
use qo_hotplug::Hotplug;
use qo_plug::{AddRefusal, Added, DeviceOptions, add, give_up, make_device};
use qo_properties::{make_all, plan};
use qo_reset::Resets;
use qo_values::{BUS_SLOTS, Code, NOTICES_MAX, PropList, ROOT_BUS_BIRTH, Text, TypeId, Val};
use std::alloc::{AllocError, Global};
use std::marker::Brand;
use std::sync::ledger::{Blank, Ledger};
use std::test::Fail;

/// A bridge is made on the opening board, with its clock and its bus, and given up: each of the three
/// leaves its notes.
fn drafted<L: Ledger>(alloc: Global, blank: Blank) -> Result<bool, AllocError>
    requires name { blank.name ≡ L.name }
    requires parts { blank.parts ≡ L.parts }
    requires some { 0 < blank.parts }
{
    let mut steps = Steps::<L>::from_blank(blank);
    let mut heap = Heap::new(alloc)?;
    make_all(&mut heap, alloc, &mut steps)?;
    let kind = TypeId::SlotBridge;
    let props = PropList::new(alloc);
    let Ok(mut plan) = plan(&heap, kind, &props, alloc, &mut steps) else {
        return Ok(false);
    };
    let device = make_device(&mut heap, kind, plan.as_mut_slice(), alloc, &mut steps)?;
    let made = heap.live() == 11 && heap.notes_total() == 6;
    give_up(&mut heap, device, &mut steps);
    Ok(made && heap.live() == 8 && heap.notes_total() == 12)
}

#[test]
fn a_bridge_is_made_and_given_up(rt: HostRuntime) -> Result<(), Fail> {
    assert!(rt; drafted::<Brand>(rt.alloc(), Blank::new(1))?);
    Ok(())
}

/// Whether it is a refusal at a stage by a code.
fn is_refusal(refusal: AddRefusal, at: u8, by: Code) -> bool {
    match refusal {
        AddRefusal::Memory => false,
        AddRefusal::Refused { stage, code } => stage == at && code == by,
    }
}

/// A bridge is added to the root bus, with these properties, where nothing is held.
fn bridge<L: Ledger>(
    heap: &mut Heap,
    resets: &Resets,
    hotplug: &mut Hotplug,
    props: &PropList,
    alloc: Global,
    steps: &mut Steps<L>,
) -> Result<Added, AddRefusal>
    requires held { resets.now.births ≡ [] }
    requires bare { NoneKept heap.old }
    ensures { OnErr result (NoneKept heap.new) }
{
    let options = DeviceOptions {
        driver: "slot-bridge",
        id: None,
        bus: None,
        props,
    };
    let rings = Rings::new(alloc);
    add(heap, resets, hotplug, &rings, 0, &options, alloc, steps)
}

/// The slot after the last one, as a property.
fn slot_after(alloc: Global) -> Result<PropList, AllocError> {
    let mut props = PropList::new(alloc);
    let name = Text::from_string(String::from_str(alloc, "slot")?);
    match props.push(name, Val::Uint(u64::from(BUS_SLOTS))) {
        Ok(()) => Ok(props),
        Err(_) => Err(AllocError),
    }
}

/// On the opening board a bridge is refused as its slot is none, and leaves its notes; one is refused
/// after its acts, which are noted too, where the notices are full; and one is added.
fn refused_and_added<L: Ledger>(alloc: Global, blank: Blank) -> Result<bool, AddRefusal>
    requires name { blank.name ≡ L.name }
    requires parts { blank.parts ≡ L.parts }
    requires some { 0 < blank.parts }
{
    let mut steps = Steps::<L>::from_blank(blank);
    let mut heap = Heap::new(alloc)?;
    make_all(&mut heap, alloc, &mut steps)?;
    let resets = Resets::new(alloc);
    let (mut hotplug, mut full) = (Hotplug::new(alloc)?, Hotplug::new(alloc)?);
    let Some(bus) = heap.by_birth(ROOT_BUS_BIRTH) else {
        return Ok(false);
    };
    for _ in 0..NOTICES_MAX {
        let _told = full.plug(bus);
    }
    let (props, after) = (PropList::new(alloc), slot_after(alloc)?);
    let Err(early) = bridge(&mut heap, &resets, &mut hotplug, &after, alloc, &mut steps) else {
        return Ok(false);
    };
    let noted = heap.live() == 8 && heap.notes_total() == 12;
    let Err(late) = bridge(&mut heap, &resets, &mut full, &props, alloc, &mut steps) else {
        return Ok(false);
    };
    let told = heap.live() == 8 && heap.notes_total() == 34;
    let added = bridge(&mut heap, &resets, &mut hotplug, &props, alloc, &mut steps)?;
    let refused = is_refusal(early, 5, Code::E28) && is_refusal(late, 8, Code::E44);
    Ok(refused && noted && told && added.birth == 15 && heap.live() == 11)
}

#[test]
fn a_bridge_is_refused_and_added(rt: HostRuntime) -> Result<(), Fail> {
    assert!(rt; refused_and_added::<Brand>(rt.alloc(), Blank::new(1))?);
    Ok(())
}
