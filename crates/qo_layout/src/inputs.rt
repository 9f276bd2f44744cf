//! The inputs of a net, set as the registers of objects say.

ghost use Rattle.std.specs.Prelude.{◌≡◌, ◌<◌, Bool, true, IfSome, length};
ghost use Rattle.qo_heap.specs.Board.{Shows};
ghost use Rattle.qo_irq.specs.Wires.{is_input, wire_at};
ghost use Rattle.qo_layout.specs.Registers.{AreTimely};
ghost use Rattle.qo_layout.specs.Growth.{with_input};
ghost use Rattle.qo_layout.specs.Rows.{AreRows, AreSet, AreWired, input_of};
ghost use Rattle.qo_model.specs.Board.{Board};
ghost use Rattle.qo_clocks.specs.Kept.{Clocked};

use crate::registers::input_of;
use crate::wiring::Row;
use qo_heap::{Heap, Steps};
use qo_irq::Net;
use std::sync::ledger::Ledger;

/// What the input of the object of a birth is set to; low where the object is not there.
fn input_at<L: Ledger>(heap: &Heap, object: u64, steps: &mut Steps<L>) -> bool
    requires { AreTimely heap.now }
    ensures { (b : Board) → Shows b heap.now → Clocked b heap.now → result ≡ input_of b object }
{
    match heap.by_birth(object) {
        Some(o) => input_of(heap, o, steps),
        None => false,
    }
}

/// Sets the input of a row, if there is one.
fn set_input<L: Ledger>(net: &mut Net, row: Row, heap: &Heap, steps: &mut Steps<L>)
    requires timely { AreTimely heap.now }
    requires settable { IfSome row.input (λ x. (x < length net.old) × (is_input (wire_at net.old x) ≡ true)) }
    ensures { (high : Bool) × ((net.new ≡ with_input row.input high net.old) × ((b : Board) → Shows b heap.now → Clocked b heap.now → IfSome row.input (λ _. high ≡ input_of b row.object))) }
{
    let Some(input) = row.input else {
        return;
    };
    let high = input_at(heap, row.object, steps);
    net.set(input, high);
}

/// Sets the inputs of all rows. It takes no memory.
pub(crate) fn set_inputs<L: Ledger>(net: &mut Net, rows: &[Row], heap: &Heap, steps: &mut Steps<L>)
    requires timely { AreTimely heap.now }
    requires rows { AreRows rows.now net.old }
    ensures rows { AreRows rows.now net.new }
    ensures same { length net.new ≡ length net.old }
    ensures wired { (b : Board) → AreWired b rows.now net.old → AreWired b rows.now net.new }
    ensures set { (b : Board) → Shows b heap.now → Clocked b heap.now → AreSet b rows.now net.new }
{
    for row in rows {
        set_input(net, *row, heap, steps);
    }
}
