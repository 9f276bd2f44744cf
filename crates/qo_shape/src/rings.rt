//! Rings.

ghost use Rattle.qo_json.specs.View.{view};
ghost use Rattle.qo_save.specs.Shape.{ring_in};
ghost use Rattle.qo_shape.specs.Reads.{Reads};
ghost use Rattle.qo_shape.specs.Said.{ring_said};

use crate::errors::ShapeError;
use crate::items::RingItem;
use crate::members::{members_in, number_in, text_in, value_at};
use qo_json::Json;
use std::alloc::Global;

/// A ring.
pub(crate) fn ring_in(alloc: Global, value: &Json<'_>) -> Result<RingItem, ShapeError>
    ensures { Reads ring_said result (ring_in (view value.now)) }
{
    let members = members_in(value, &["id", "size"])?;
    let id = value_at(members, 0);
    let size = value_at(members, 1);
    let id = text_in(alloc, id)?;
    let size = number_in(size)?;
    Ok(RingItem { id, size })
}
