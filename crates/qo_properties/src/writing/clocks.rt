//! Writing the numbers of clocks, which `qom-set` alone writes (docs/devel/clocks.rst, "Changing a
//! clock period" and "Clock multiplier and divider settings"). No call takes memory.

ghost use Rattle.std.specs.Prelude.{◌≡◌, IfOk, OnErr};
ghost use Rattle.qo_model.specs.Board.{Board as Tree};
ghost use Rattle.qo_model.specs.ClockProperties.{role_written, led_to, number_written, own_property, set_row};
ghost use Rattle.qo_heap.specs.Rows.{IsLive};
ghost use Rattle.qo_heap.specs.Board.{Shows, pins_in};
ghost use Rattle.qo_heap.specs.Moments.{Timely};
ghost use Rattle.qo_properties.specs.Claims.{KeepsBook};
ghost use Rattle.qo_clocks.specs.Kept.{Clocked};
ghost use Rattle.qo_properties.specs.KeptClaims.{ClaimsBefore, CountsBefore};
ghost use Rattle.qo_properties.specs.KeptPeriods.{KeepsClocks};
ghost use Rattle.qo_properties.specs.ClockWrites.{property_told, refused_as};
ghost use Rattle.qo_properties.specs.Writes.{Writes};

use crate::reading::lookup::object_of;
use crate::refusals::Refusal;
use qo_clocks::{ClockError, div, mul, set, set_mul_div};
use qo_heap::{Heap, Oid, Slot, Steps};
use qo_model::{Access, Property, PropertyName, PropertyRole};
use qo_types::TypeTable;
use qo_values::{Code, Misfit, Val};
use std::sync::ledger::Ledger;

/// The row of the property of a name of an object, where `qom-set` alone writes it; `None` exactly
/// where that is not so.
pub fn set_row<L: Ledger>(heap: &Heap, o: Oid, name: &str, steps: &mut Steps<L>) -> Option<Property>
    requires { IsLive heap.now.rows o }
    ensures { (b : Tree) → Shows b heap.now → result ≡ set_row b o.birth name.now }
{
    let kind = heap.kind(o, steps);
    let row = TypeTable::board().property(kind, name)?;
    match row.access {
        Access::Set => Some(row),
        _ => None,
    }
}

/// A property of an object, with its row, where `qom-set` alone writes it. Refused with E17 where the
/// object has no such slot, else with E18 where that holds no value or its row has not that access.
fn own_property<L: Ledger>(
    heap: &Heap,
    o: Oid,
    name: &str,
    steps: &mut Steps<L>,
) -> Result<(Oid, Property), Code>
    requires { IsLive heap.now.rows o }
    ensures property { (b : Tree) → Shows b heap.now → property_told result ≡ own_property b o.birth name.now }
    ensures live { IfOk result (λ p. IsLive heap.now.rows p.0) }
{
    let Some(slot) = heap.slot(o, name, steps) else {
        return Err(Code::E17);
    };
    let Slot::Plain(_) = slot.what else {
        return Err(Code::E18);
    };
    match set_row(heap, o, name, steps) {
        Some(row) => Ok((o, row)),
        None => Err(Code::E18),
    }
}

/// The property that a name of an object leads to, with the object that has it: an alias passes on,
/// once. Refused as `own_property` is.
pub fn led_to<L: Ledger>(
    heap: &Heap,
    o: Oid,
    name: &str,
    steps: &mut Steps<L>,
) -> Result<(Oid, Property), Code>
    requires { IsLive heap.now.rows o }
    ensures property { (b : Tree) → Shows b heap.now → property_told result ≡ led_to b o.birth name.now }
    ensures live { IfOk result (λ p. IsLive heap.now.rows p.0) }
{
    let Some(slot) = heap.slot(o, name, steps) else {
        return Err(Code::E17);
    };
    let Slot::Alias(target, of) = slot.what else {
        return own_property(heap, o, name, steps);
    };
    match object_of(heap, target.birth) {
        Some(passed) => own_property(heap, passed, of.as_str(), steps),
        None => Err(Code::E17),
    }
}

/// The answer of a write of a clock, with the code of what refused it.
fn refused_as(answer: Result<(), ClockError>) -> Result<(), Refusal>
    ensures { result ≡ refused_as answer }
{
    match answer {
        Ok(()) => Ok(()),
        Err(ClockError::HasSource) => Err(Refusal::Refused(Code::E45)),
        Err(ClockError::DividerZero) => Err(Refusal::Refused(Code::E46)),
        Err(ClockError::Overflow) => Err(Refusal::Refused(Code::E47)),
    }
}

/// Gives a clock a number by the name of its property: a period, in units of 2^-32 ns, or a mul or a
/// div, where the other of these stays. Refused with E45 where a clock with a source is given a period,
/// E46 where it would divide by 0, E47 where a period would not fit in 64 bits, and E18 by any other
/// name. An error leaves the heap as it was.
fn write_number<L: Ledger>(
    heap: &mut Heap,
    c: Oid,
    name: PropertyName,
    number: u64,
    steps: &mut Steps<L>,
) -> Result<(), Refusal>
    requires live { IsLive heap.old.rows c }
    requires timely { Timely heap.old }
    ensures written { (b : Tree) → Shows b heap.old → Clocked b heap.old → Writes heap.new result (number_written b c.birth name number) }
    ensures err { OnErr result (heap.new ≡ heap.old) }
    ensures pins { pins_in heap.new.rows ≡ pins_in heap.old.rows }
    ensures book { KeepsBook heap.old heap.new }
    ensures claims { ClaimsBefore heap.old heap.new }
    ensures counts { CountsBefore heap.old heap.new }
    ensures clocks { KeepsClocks heap.old heap.new }
{
    match name {
        PropertyName::Period => refused_as(set(heap, c, number, steps)),
        PropertyName::Mul => {
            let div = div(heap, c, steps);
            refused_as(set_mul_div(heap, c, number, div, steps))
        }
        PropertyName::Div => {
            let mul = mul(heap, c, steps);
            refused_as(set_mul_div(heap, c, mul, number, steps))
        }
        _ => Err(Refusal::Refused(Code::E18)),
    }
}

/// Writes a property of a clock by its row. Refused with E18 where its row has no values, else E19
/// where the value is not of the type or no number, else as `write_number` is. An error leaves the
/// heap as it was.
pub fn write_property<L: Ledger>(
    heap: &mut Heap,
    c: Oid,
    row: Property,
    val: &Val,
    steps: &mut Steps<L>,
) -> Result<(), Refusal>
    requires live { IsLive heap.old.rows c }
    requires timely { Timely heap.old }
    ensures written { (b : Tree) → Shows b heap.old → Clocked b heap.old → Writes heap.new result (role_written b c.birth row.name row.role val.now) }
    ensures err { OnErr result (heap.new ≡ heap.old) }
    ensures pins { pins_in heap.new.rows ≡ pins_in heap.old.rows }
    ensures book { KeepsBook heap.old heap.new }
    ensures claims { ClaimsBefore heap.old heap.new }
    ensures counts { CountsBefore heap.old heap.new }
    ensures clocks { KeepsClocks heap.old heap.new }
{
    let PropertyRole::Plain(ty, _) = row.role else {
        return Err(Refusal::Refused(Code::E18));
    };
    let Val::Uint(number) = val else {
        return Err(Refusal::Refused(Code::E19));
    };
    if let Err(Misfit) = ty.admit(val) {
        return Err(Refusal::Refused(Code::E19));
    }
    write_number(heap, c, row.name, *number, steps)
}
