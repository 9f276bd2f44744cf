//! Devices.

ghost use Rattle.qo_json.specs.Order.{IsOrdered};
ghost use Rattle.qo_json.specs.View.{view};
ghost use Rattle.qo_save.specs.Shape.{device_in};
ghost use Rattle.qo_shape.specs.Reads.{Reads};
ghost use Rattle.qo_shape.specs.Said.{device_said};

use crate::errors::ShapeError;
use crate::items::DeviceItem;
use crate::members::{members_in, number_in, text_in, value_at};
use crate::props::props_in;
use qo_json::Json;
use std::alloc::Global;

/// A device.
pub(crate) fn device_in(alloc: Global, value: &Json<'_>) -> Result<DeviceItem, ShapeError>
    requires { IsOrdered (view value.now) }
    ensures { Reads device_said result (device_in (view value.now)) }
{
    let members = members_in(value, &["bus", "driver", "id", "props", "slot"])?;
    let bus = value_at(members, 0);
    let driver = value_at(members, 1);
    let id = value_at(members, 2);
    let props = value_at(members, 3);
    let slot = value_at(members, 4);
    let bus = text_in(alloc, bus)?;
    let driver = text_in(alloc, driver)?;
    let id = text_in(alloc, id)?;
    let props = props_in(alloc, props)?;
    let slot = number_in(slot)?;
    Ok(DeviceItem {
        bus,
        driver,
        id,
        props,
        slot,
    })
}
