//! The lists of a description, item by item.

ghost use Rattle.std.specs.Prelude.{map};
ghost use Rattle.qo_json.specs.Order.{IsOrdered};
ghost use Rattle.qo_json.specs.View.{view};
ghost use Rattle.qo_save.specs.Shape.{clock_item_in, device_in, link_in, list_in, object_in, ring_in};
ghost use Rattle.qo_shape.specs.Reads.{Reads};
ghost use Rattle.qo_shape.specs.Said.{clock_said, device_said, link_said, object_said, ring_said};

use crate::clocks::clock_item_in;
use crate::devices::device_in;
use crate::errors::ShapeError;
use crate::items::{ClockItem, DeviceItem, LinkItem, ObjectItem, RingItem};
use crate::links::link_in;
use crate::members::items_in;
use crate::objects::object_in;
use crate::rings::ring_in;
use qo_json::Json;
use std::alloc::Global;

/// How clocks divide and multiply.
pub(crate) fn clocks_in(alloc: Global, value: &Json<'_>) -> Result<Vec<ClockItem>, ShapeError>
    ensures { Reads (λ found. map clock_said found.items) result (list_in clock_item_in (view value.now)) }
{
    let items = items_in(value)?;
    let mut found = Vec::new(alloc);
    for item in items {
        found.push(clock_item_in(alloc, item)?)?;
    }
    Ok(found)
}

/// Devices.
pub(crate) fn devices_in(alloc: Global, value: &Json<'_>) -> Result<Vec<DeviceItem>, ShapeError>
    requires { IsOrdered (view value.now) }
    ensures { Reads (λ found. map device_said found.items) result (list_in device_in (view value.now)) }
{
    let items = items_in(value)?;
    let mut found = Vec::new(alloc);
    for item in items {
        found.push(device_in(alloc, item)?)?;
    }
    Ok(found)
}

/// Links.
pub(crate) fn links_in(alloc: Global, value: &Json<'_>) -> Result<Vec<LinkItem>, ShapeError>
    ensures { Reads (λ found. map link_said found.items) result (list_in link_in (view value.now)) }
{
    let items = items_in(value)?;
    let mut found = Vec::new(alloc);
    for item in items {
        found.push(link_in(alloc, item)?)?;
    }
    Ok(found)
}

/// Users' objects.
pub(crate) fn objects_in(alloc: Global, value: &Json<'_>) -> Result<Vec<ObjectItem>, ShapeError>
    requires { IsOrdered (view value.now) }
    ensures { Reads (λ found. map object_said found.items) result (list_in object_in (view value.now)) }
{
    let items = items_in(value)?;
    let mut found = Vec::new(alloc);
    for item in items {
        found.push(object_in(alloc, item)?)?;
    }
    Ok(found)
}

/// Rings.
pub(crate) fn rings_in(alloc: Global, value: &Json<'_>) -> Result<Vec<RingItem>, ShapeError>
    ensures { Reads (λ found. map ring_said found.items) result (list_in ring_in (view value.now)) }
{
    let items = items_in(value)?;
    let mut found = Vec::new(alloc);
    for item in items {
        found.push(ring_in(alloc, item)?)?;
    }
    Ok(found)
}
