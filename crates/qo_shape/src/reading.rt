//! Reading a whole description.

ghost use Rattle.std.specs.Prelude.{◌≡◌};
ghost use Rattle.qo_json.specs.Order.{IsOrdered};
ghost use Rattle.qo_json.specs.View.{view};
ghost use Rattle.qo_save.specs.Shape.{description_in, is_one};
ghost use Rattle.qo_shape.specs.Reads.{Reads};
ghost use Rattle.qo_shape.specs.Said.{said};
ghost use Rattle.qo_shape.specs.Texts.{description_of_text};

use crate::clocks::clock_in;
use crate::errors::ShapeError;
use crate::items::Description;
use crate::lists::{clocks_in, devices_in, links_in, objects_in, rings_in};
use crate::members::{members_in, value_at};
use qo_json::Json;
use serde_json::Value;
use std::alloc::Global;

/// Whether a value is the number 1.
fn is_one(value: &Json<'_>) -> bool
    ensures { result ≡ is_one (view value.now) }
{
    value.as_u64() == Some(1)
}

/// The description that a value is: an object with exactly the members of one, each of its kind
/// (docs/PROFILE.md, descriptions).
pub fn description_in(alloc: Global, value: &Json<'_>) -> Result<Description, ShapeError>
    requires { IsOrdered (view value.now) }
    ensures { Reads said result (description_in (view value.now)) }
{
    let members = members_in(
        value,
        &[
            "clock", "clocks", "devices", "links", "objects", "rings", "version",
        ],
    )?;
    let clock = value_at(members, 0);
    let clocks = value_at(members, 1);
    let devices = value_at(members, 2);
    let links = value_at(members, 3);
    let objects = value_at(members, 4);
    let rings = value_at(members, 5);
    if !is_one(value_at(members, 6)) {
        return Err(ShapeError::Shape);
    }
    let clock = clock_in(clock)?;
    let clocks = clocks_in(alloc, clocks)?;
    let devices = devices_in(alloc, devices)?;
    let links = links_in(alloc, links)?;
    let objects = objects_in(alloc, objects)?;
    let rings = rings_in(alloc, rings)?;
    Ok(Description {
        clock,
        clocks,
        devices,
        links,
        objects,
        rings,
    })
}

/// The description that a text is: JSON in UTF-8 whose value is one. Objects may have any number of
/// members.
pub fn read_description(alloc: Global, text: &[u8]) -> Result<Description, ShapeError>
    ensures { Reads said result (description_of_text text.now) }
{
    match Value::from_slice(alloc, text) {
        Ok(value) => description_in(alloc, &Json::of(alloc, &value)?),
        Err(error) if error.is_memory() => Err(ShapeError::Memory),
        Err(_) => Err(ShapeError::Shape),
    }
}
