//! What is planned of a device before it is made: where it is to go, and what its slots are filled with;
//! and what that says of its place.

ghost use Rattle.std.specs.Prelude.{◌≡◌, List, [], true, codes, IfSome, option_and_then, option_map, unwrap_or};
ghost use Rattle.std.specs.List.{AllByRecursion};
ghost use Rattle.qo_values.specs.declared.kinds.TypeId.TheVariants.{MemDimm, MemoryBackend, SlotUart};
ghost use Rattle.qo_model.specs.Board.{Board};
ghost use Rattle.qo_model.specs.Objects.{Given};
ghost use Rattle.qo_model.specs.Plug.{number_for, target_for, text_for};
ghost use Rattle.qo_model.specs.Types.{is_a};
ghost use Rattle.qo_object.specs.BoardObject.{birth_of};
ghost use Rattle.qo_heap.specs.Rows.{IsLive};
ghost use Rattle.qo_heap.specs.Objects.{Objects};
ghost use Rattle.qo_properties.specs.Filling.{target_in};
ghost use Rattle.qo_plug.specs.DevicePlans.{HasGiven, number_filled, text_filled};

use crate::targets::Target;
use qo_heap::Oid;
use qo_properties::{InitialValue, planned_for};
use qo_values::Val;

/// What is planned of a device that is to be made.
#[derive(Drop)]
pub struct Planned {
    /// Where it is to go.
    pub target: Target,
    /// What its own slots are to be filled with.
    pub plan: Vec<InitialValue>,
}

/// The number that a slot is filled with, if it is.
fn number_in(fill: Option<&InitialValue>) -> Option<u64>
    ensures { result ≡ option_and_then number_filled (option_map (λ f. f.now) fill.entry) }
{
    match fill {
        Some(InitialValue::Value(Val::Uint(number))) => Some(*number),
        _ => None,
    }
}

/// The text that a slot is filled with, and the empty one where it is filled with none.
fn text_in(fill: Option<&InitialValue>) -> &str
    ensures { result.now ≡ unwrap_or (option_and_then text_filled (option_map (λ f. f.now) fill.entry)) [] }
{
    match fill {
        Some(InitialValue::Value(Val::Text(text))) => text.as_str(),
        _ => "",
    }
}

/// The target that a slot is filled with, if it is.
fn target_in(fill: Option<&InitialValue>) -> Option<Oid>
    ensures { result ≡ option_and_then target_in (option_map (λ f. f.now) fill.entry) }
{
    match fill {
        Some(InitialValue::Target(target)) => Some(*target),
        _ => None,
    }
}

/// The slot of its bus that a device asks for, if it does.
pub(crate) fn slot_asked(planned: &Planned) -> Option<u64>
    requires { is_a planned.now.target.kind (codes "device") ≡ true }
    ensures { (b : Board) (props : List Given) → HasGiven b props planned.now → result ≡ number_for props (codes "slot") }
{
    number_in(planned_for(planned.plan.as_slice(), planned.target.kind, "slot"))
}

/// The address that a DIMM asks for, if it does.
pub(crate) fn address_asked(planned: &Planned) -> Option<u64>
    requires { planned.now.target.kind ≡ MemDimm }
    ensures { (b : Board) (props : List Given) → HasGiven b props planned.now → result ≡ number_for props (codes "addr") }
{
    number_in(planned_for(planned.plan.as_slice(), planned.target.kind, "addr"))
}

/// The name of the ring that a UART asks for; empty where it asks for none.
pub(crate) fn ring_asked(planned: &Planned) -> &str
    requires { planned.now.target.kind ≡ SlotUart }
    ensures { (b : Board) (props : List Given) → HasGiven b props planned.now → result.now ≡ text_for props (codes "chardev") }
{
    text_in(planned_for(planned.plan.as_slice(), planned.target.kind, "chardev"))
}

/// The memory backend that a DIMM asks for, if it does.
pub(crate) fn backend_asked(planned: &Planned) -> Option<Oid>
    requires { planned.now.target.kind ≡ MemDimm }
    ensures backend { (b : Board) (props : List Given) → HasGiven b props planned.now → birth_of result ≡ target_for b MemoryBackend props (codes "memdev") }
    ensures live { (v : Objects) → AllByRecursion (λ f. IfSome (target_in f) (IsLive v.rows)) planned.now.plan.items → IfSome result (IsLive v.rows) }
{
    target_in(planned_for(planned.plan.as_slice(), planned.target.kind, "memdev"))
}
