//! Users' objects.

ghost use Rattle.qo_json.specs.Order.{IsOrdered};
ghost use Rattle.qo_json.specs.View.{view};
ghost use Rattle.qo_save.specs.Shape.{object_in};
ghost use Rattle.qo_shape.specs.Reads.{Reads};
ghost use Rattle.qo_shape.specs.Said.{object_said};

use crate::errors::ShapeError;
use crate::items::ObjectItem;
use crate::members::{members_in, text_in, value_at};
use crate::props::props_in;
use qo_json::Json;
use std::alloc::Global;

/// A user's object.
pub(crate) fn object_in(alloc: Global, value: &Json<'_>) -> Result<ObjectItem, ShapeError>
    requires { IsOrdered (view value.now) }
    ensures { Reads object_said result (object_in (view value.now)) }
{
    let members = members_in(value, &["id", "props", "type"])?;
    let id = value_at(members, 0);
    let props = value_at(members, 1);
    let kind = value_at(members, 2);
    let id = text_in(alloc, id)?;
    let props = props_in(alloc, props)?;
    let kind = text_in(alloc, kind)?;
    Ok(ObjectItem { id, props, kind })
}
