//! The numbers of clocks.

ghost use Rattle.qo_json.specs.View.{view};
ghost use Rattle.qo_save.specs.Shape.{clock_in, clock_item_in};
ghost use Rattle.qo_shape.specs.Reads.{Reads};
ghost use Rattle.qo_shape.specs.Said.{clock_said, numbers_said};

use crate::errors::ShapeError;
use crate::items::{ClockItem, ClockNumbers};
use crate::members::{members_in, number_in, text_in, value_at};
use qo_json::Json;
use std::alloc::Global;

/// The numbers of the system clock.
pub(crate) fn clock_in(value: &Json<'_>) -> Result<ClockNumbers, ShapeError>
    ensures { Reads numbers_said result (clock_in (view value.now)) }
{
    let members = members_in(value, &["div", "mul", "period"])?;
    let div = value_at(members, 0);
    let mul = value_at(members, 1);
    let period = value_at(members, 2);
    let div = number_in(div)?;
    let mul = number_in(mul)?;
    let period = number_in(period)?;
    Ok(ClockNumbers { div, mul, period })
}

/// How another clock divides and multiplies.
pub(crate) fn clock_item_in(alloc: Global, value: &Json<'_>) -> Result<ClockItem, ShapeError>
    ensures { Reads clock_said result (clock_item_in (view value.now)) }
{
    let members = members_in(value, &["div", "mul", "path"])?;
    let div = value_at(members, 0);
    let mul = value_at(members, 1);
    let path = value_at(members, 2);
    let div = number_in(div)?;
    let mul = number_in(mul)?;
    let path = text_in(alloc, path)?;
    Ok(ClockItem { div, mul, path })
}
