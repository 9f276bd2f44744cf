//! What is read of a clock: its numbers and its source.

ghost use Rattle.std.specs.Prelude.{◌≡◌, ◌+◌, IfSome, option_map, unwrap_or};
ghost use Rattle.qo_model.specs.RowNames.{property_name};
ghost use Rattle.qo_heap.specs.Rows.{IsLive};
ghost use Rattle.qo_clocks.specs.Reads.{child_in, clock_on, div_on, mul_on, number_in_slot, number_on, own_on, slot_on, source_on, weak_target};

use qo_heap::{Heap, Oid, Slot, Steps};
use qo_model::PropertyName;
use qo_values::Val;
use std::sync::ledger::Ledger;

/// What stands in the slot of a property of an object; `None` exactly where it has none.
pub fn slot_of<'a, L: Ledger>(
    heap: &'a Heap,
    o: Oid,
    name: PropertyName,
    steps: &mut Steps<L>,
) -> Option<&'a Slot>
    requires { IsLive heap.now.rows o }
    ensures slot { option_map (λ s. s.now) result ≡ slot_on heap.now o.birth (property_name name) }
    ensures cost { steps.new ≡ steps.old + 1 }
{
    let view = heap.property(o, name, steps)?;
    Some(view.what)
}

/// The number in a slot; `None` where there is none.
fn number_in(slot: &Slot) -> Option<u64>
    ensures { result ≡ number_in_slot slot.now }
{
    match slot {
        Slot::Plain(Val::Uint(number)) => Some(*number),
        _ => None,
    }
}

/// The number in the slot of a property of an object; `None` where there is none.
fn number_of<L: Ledger>(
    heap: &Heap,
    o: Oid,
    name: PropertyName,
    steps: &mut Steps<L>,
) -> Option<u64>
    requires { IsLive heap.now.rows o }
    ensures { result ≡ number_on heap.now o.birth (property_name name) }
{
    number_in(slot_of(heap, o, name, steps)?)
}

/// The period of a clock itself, which counts where it has no source.
pub fn own_period<L: Ledger>(heap: &Heap, c: Oid, steps: &mut Steps<L>) -> u64
    requires { IsLive heap.now.rows c }
    ensures { result ≡ own_on heap.now c.birth }
{
    number_of(heap, c, PropertyName::Period, steps).unwrap_or(0)
}

/// By what a clock multiplies its period for the clocks that go by it.
pub fn mul<L: Ledger>(heap: &Heap, c: Oid, steps: &mut Steps<L>) -> u64
    requires { IsLive heap.now.rows c }
    ensures { result ≡ mul_on heap.now c.birth }
{
    number_of(heap, c, PropertyName::Mul, steps).unwrap_or(1)
}

/// By what it then divides.
pub fn div<L: Ledger>(heap: &Heap, c: Oid, steps: &mut Steps<L>) -> u64
    requires { IsLive heap.now.rows c }
    ensures { result ≡ div_on heap.now c.birth }
{
    number_of(heap, c, PropertyName::Div, steps).unwrap_or(1)
}

/// The target of a weak link.
fn weak_target(slot: &Slot) -> Option<Oid>
    ensures { result ≡ weak_target slot.now }
{
    match slot {
        Slot::Link {
            strong: false,
            target,
            ..
        } => *target,
        _ => None,
    }
}

/// The clock that a clock goes by; `None` exactly where it has no source.
pub fn source_of<L: Ledger>(heap: &Heap, c: Oid, steps: &mut Steps<L>) -> Option<Oid>
    requires { IsLive heap.now.rows c }
    ensures source { result ≡ source_on heap.now c.birth }
    ensures live { IfSome result (IsLive heap.now.rows) }
{
    heap.reveal_invariant();
    weak_target(slot_of(heap, c, PropertyName::Source, steps)?)
}

/// The child in a slot.
fn child_in(slot: &Slot) -> Option<Oid>
    ensures { result ≡ child_in slot.now }
{
    match slot {
        Slot::Child(child) => Some(*child),
        _ => None,
    }
}

/// The clock of a device; `None` exactly where it has none.
pub fn clock_of<L: Ledger>(heap: &Heap, dev: Oid, steps: &mut Steps<L>) -> Option<Oid>
    requires { IsLive heap.now.rows dev }
    ensures clock { result ≡ clock_on heap.now dev.birth }
    ensures live { IfSome result (IsLive heap.now.rows) }
    ensures cost { steps.new ≡ steps.old + 1 }
{
    heap.reveal_invariant();
    child_in(slot_of(heap, dev, PropertyName::Clk, steps)?)
}
