//! The numbers of clocks.

ghost use Rattle.std.specs.Prelude.{◌≡◌, ◌==◌, ◌&&◌, ◌++◌, ℕ, List, [], ◌∷◌, map, not, unwrap_or, IfOk, OnOk};
ghost use Rattle.serde_json.specs.Data.{string};
ghost use Rattle.serde_json.specs.View.{view};
ghost use Rattle.qo_heap.specs.Board.{Shows};
ghost use Rattle.qo_heap.specs.Rows.{IsLive};
ghost use Rattle.qo_model.specs.Board.{Board};
ghost use Rattle.qo_model.specs.Clocks.{div_of, mul_of, own_period};
ghost use Rattle.qo_model.specs.Devices.{number_at};
ghost use Rattle.qo_model.specs.RowNames.{property_name};
ghost use Rattle.qo_save.specs.Described.{clock_numbers, factors_of};
ghost use Rattle.qo_save.specs.Description.{clock_data, clock_item_data, clock_item_names, clock_names, named, whole};
ghost use Rattle.qo_describe.specs.Told.{clock_told, entry_told};
ghost use Rattle.qo_describe.specs.declared.parts.Part.TheVariants.{Clocks};

use qo_buses::{clock_of, number_at};
use qo_heap::{Heap, Oid, Steps};
use qo_model::PropertyName;
use qo_properties::path_text;
use qo_values::SYSTEM_CLOCK_BIRTH;
use serde_json::{Value, json};
use std::alloc::{AllocError, Global};
use std::sync::ledger::Ledger;

/// A number of a clock, or another where it has none.
fn number_or<L: Ledger>(
    heap: &Heap,
    clock: Oid,
    name: PropertyName,
    other: u64,
    steps: &mut Steps<L>,
) -> u64
    requires { IsLive heap.now.rows clock }
    ensures { (b : Board) → Shows b heap.now → result ≡ unwrap_or (number_at b clock.birth (property_name name)) other }
{
    number_at(heap, clock, name, steps).unwrap_or(other)
}

/// By what a clock divides its period for the clocks that go by it.
fn div<L: Ledger>(heap: &Heap, clock: Oid, steps: &mut Steps<L>) -> u64
    requires { IsLive heap.now.rows clock }
    ensures { (b : Board) → Shows b heap.now → result ≡ div_of b clock.birth }
{
    number_or(heap, clock, PropertyName::Div, 1, steps)
}

/// By what it multiplies it.
fn mul<L: Ledger>(heap: &Heap, clock: Oid, steps: &mut Steps<L>) -> u64
    requires { IsLive heap.now.rows clock }
    ensures { (b : Board) → Shows b heap.now → result ≡ mul_of b clock.birth }
{
    number_or(heap, clock, PropertyName::Mul, 1, steps)
}

/// The period of a clock itself.
fn own_period<L: Ledger>(heap: &Heap, clock: Oid, steps: &mut Steps<L>) -> u64
    requires { IsLive heap.now.rows clock }
    ensures { (b : Board) → Shows b heap.now → result ≡ own_period b clock.birth }
{
    number_or(heap, clock, PropertyName::Period, 0, steps)
}

/// The numbers of a clock as a JSON object.
fn numbers_value(alloc: Global, div: u64, mul: u64, period: u64) -> Result<Value, AllocError>
    ensures { IfOk result (λ v. view v ≡ named clock_names (whole div ∷ whole mul ∷ whole period ∷ [])) }
{
    json!(in alloc; {"div": div, "mul": mul, "period": period})
}

/// The numbers of a clock.
fn clock_numbers<L: Ledger>(
    heap: &Heap,
    clock: Oid,
    alloc: Global,
    steps: &mut Steps<L>,
) -> Result<Value, AllocError>
    requires { IsLive heap.now.rows clock }
    ensures { (b : Board) → Shows b heap.now → IfOk result (λ v. view v ≡ named clock_names (whole (div_of b clock.birth) ∷ whole (mul_of b clock.birth) ∷ whole (own_period b clock.birth) ∷ [])) }
{
    let div = div(heap, clock, steps);
    let mul = mul(heap, clock, steps);
    let period = own_period(heap, clock, steps);
    numbers_value(alloc, div, mul, period)
}

/// The numbers of the system clock.
pub(crate) fn clock_value<L: Ledger>(
    heap: &Heap,
    alloc: Global,
    steps: &mut Steps<L>,
) -> Result<Value, AllocError>
    ensures { (b : Board) → Shows b heap.now → IfOk result (λ v. view v ≡ clock_data (clock_numbers b)) }
{
    match heap.by_birth(SYSTEM_CLOCK_BIRTH) {
        Some(clock) => clock_numbers(heap, clock, alloc, steps),
        None => numbers_value(alloc, 1, 1, 0),
    }
}

/// How a clock at a path divides and multiplies, as a JSON object.
fn factors_value(alloc: Global, div: u64, mul: u64, path: &str) -> Result<Value, AllocError>
    ensures { IfOk result (λ v. view v ≡ named clock_item_names (whole div ∷ whole mul ∷ string path.now ∷ [])) }
{
    json!(in alloc; {"div": div, "mul": mul, "path": path})
}

/// How a clock divides and multiplies.
fn item_value<L: Ledger>(
    heap: &Heap,
    clock: Oid,
    alloc: Global,
    steps: &mut Steps<L>,
) -> Result<Value, AllocError>
    requires { IsLive heap.now.rows clock }
    ensures { (b : Board) → Shows b heap.now → IfOk result (λ v. view v ≡ clock_item_data (factors_of b clock.birth)) }
{
    let div = div(heap, clock, steps);
    let mul = mul(heap, clock, steps);
    let path = path_text(heap, clock, alloc, steps)?;
    factors_value(alloc, div, mul, path.as_str())
}

/// Whether a clock divides or multiplies.
fn scales<L: Ledger>(heap: &Heap, clock: Oid, steps: &mut Steps<L>) -> bool
    requires { IsLive heap.now.rows clock }
    ensures { (b : Board) → Shows b heap.now → ((mul_of b clock.birth == 1) && (div_of b clock.birth == 1)) ≡ not result }
{
    !(mul(heap, clock, steps) == 1 && div(heap, clock, steps) == 1)
}

/// Adds how a clock divides and multiplies to a list, where it does.
fn push_clock<L: Ledger>(
    heap: &Heap,
    clock: Oid,
    values: &mut Vec<Value>,
    alloc: Global,
    steps: &mut Steps<L>,
) -> Result<(), AllocError>
    requires { IsLive heap.now.rows clock }
    ensures { OnOk result ((b : Board) → Shows b heap.now → map view values.new.items ≡ map view values.old.items ++ clock_told b clock.birth) }
{
    if !scales(heap, clock, steps) {
        return Ok(());
    }
    values.push(item_value(heap, clock, alloc, steps)?)?;
    Ok(())
}

/// The same of the clock of a device, where it has one.
pub(crate) fn push_clock_of<L: Ledger>(
    heap: &Heap,
    dev: Oid,
    values: &mut Vec<Value>,
    alloc: Global,
    steps: &mut Steps<L>,
) -> Result<(), AllocError>
    requires { IsLive heap.now.rows dev }
    ensures { OnOk result ((b : Board) → Shows b heap.now → (name : List ℕ) → map view values.new.items ≡ map view values.old.items ++ entry_told Clocks b (name, dev.birth)) }
{
    match clock_of(heap, dev, steps) {
        Some(clock) => push_clock(heap, clock, values, alloc, steps),
        None => Ok(()),
    }
}
