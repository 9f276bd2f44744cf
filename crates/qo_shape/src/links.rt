//! Links.

ghost use Rattle.qo_json.specs.View.{view};
ghost use Rattle.qo_save.specs.Shape.{link_in};
ghost use Rattle.qo_shape.specs.Reads.{Reads};
ghost use Rattle.qo_shape.specs.Said.{link_said};

use crate::errors::ShapeError;
use crate::items::LinkItem;
use crate::members::{members_in, text_in, value_at};
use qo_json::Json;
use std::alloc::Global;

/// A link.
pub(crate) fn link_in(alloc: Global, value: &Json<'_>) -> Result<LinkItem, ShapeError>
    ensures { Reads link_said result (link_in (view value.now)) }
{
    let members = members_in(value, &["path", "property", "value"])?;
    let path = value_at(members, 0);
    let property = value_at(members, 1);
    let target = value_at(members, 2);
    let path = text_in(alloc, path)?;
    let property = text_in(alloc, property)?;
    let target = text_in(alloc, target)?;
    Ok(LinkItem {
        path,
        property,
        value: target,
    })
}
