//! The names that devices have on their buses and in their container.

ghost use Rattle.std.specs.Prelude.{◌≡◌, ◌<◌, IfOk};
ghost use Rattle.qo_values.specs.declared.limits.TheConstants.{BUS_SLOTS};
ghost use Rattle.qo_model.specs.Devices.{anonymous_name, kid_name};

use itoa::Buffer;
use qo_heap::SlotName;
use qo_values::{BUS_SLOTS, Name};
use std::alloc::{AllocError, Global};

/// The name of the link of a bus to the kid in a slot. It takes no memory.
pub fn kid_name(slot: u8) -> SlotName
    requires { slot < BUS_SLOTS }
    ensures { result ≡ kid_name slot }
{
    SlotName::kid(slot)
}

/// The name in its container of the n-th device that was added without an id. The error is want of
/// memory.
pub fn anonymous_name(n: u64, alloc: Global) -> Result<Name, AllocError>
    ensures { IfOk result (λ name. name ≡ anonymous_name n) }
{
    let mut text = String::from_str(alloc, "device[")?;
    let mut digits = Buffer::new();
    text.push_str(digits.format(n))?;
    text.push(']')?;
    Ok(Name::from_string(text))
}
