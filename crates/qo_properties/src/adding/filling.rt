//! What the slots of a new object are filled with, and for which properties it has one.

ghost use Rattle.std.specs.Prelude.{◌≡◌, is_some};
ghost use Rattle.qo_values.specs.declared.kinds.TypeId.{TypeId};
ghost use Rattle.qo_properties.specs.Filling.{spent, spent_at, value_alone, value_at};
ghost use Rattle.qo_properties.specs.NewSlots.{begun};

use qo_heap::Oid;
use qo_model::PropertyRole;
use qo_values::Val;
use std::mem::replace;

/// What a slot of a new object is filled with.
#[derive(Drop)]
pub enum InitialValue {
    /// It stays as it begins.
    Default,
    /// A value.
    Value(Val),
    /// A target.
    Target(Oid),
}

/// Whether a new object has a slot for a property with this row.
pub fn is_stored(role: PropertyRole) -> bool
    ensures { (t : TypeId) → result ≡ is_some (begun t role) }
{
    match role {
        PropertyRole::Plain(_, _) => true,
        PropertyRole::Link { .. } => true,
        PropertyRole::Child(_) => false,
        PropertyRole::Alias { .. } => false,
    }
}

/// Takes the value out of what a slot is filled with, where it is one. A target stays.
fn take_one_value(fill: &mut InitialValue) -> InitialValue
    ensures taken { result ≡ value_alone fill.old }
    ensures left { fill.new ≡ spent fill.old }
{
    match fill {
        InitialValue::Value(_) => replace(fill, InitialValue::Default),
        _ => InitialValue::Default,
    }
}

/// Takes the value that is planned for the slot at a place out of a plan, where one is; nothing is
/// planned for that slot then. A target stays.
pub fn take_value(plan: &mut [InitialValue], at: usize) -> InitialValue
    ensures taken { result ≡ value_at at plan.old }
    ensures left { plan.new ≡ spent_at at plan.old }
{
    if at >= plan.len() {
        return InitialValue::Default;
    }
    take_one_value(&mut plan[at])
}
