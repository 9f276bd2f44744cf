//! What the registers of objects say of their lines.

ghost use Rattle.std.specs.Prelude.{◌≡◌, ◌≤◌, ◌&&◌, ◌/◌, ◌%◌, ◌==◌, false, if◌then◌else◌, not};
ghost use Rattle.qo_values.specs.Timer.{timer_count};
ghost use Rattle.qo_values.specs.Uart.{uart_status};
ghost use Rattle.qo_heap.specs.Board.{Shows};
ghost use Rattle.qo_heap.specs.Rows.{IsLive};
ghost use Rattle.qo_kinds.specs.Bodies.{registers_in};
ghost use Rattle.qo_layout.specs.Registers.{AreTimely, registers_at};
ghost use Rattle.qo_layout.specs.Rows.{input_of, wiring};
ghost use Rattle.qo_model.specs.Board.{Board};
ghost use Rattle.qo_clocks.specs.Kept.{Clocked};
ghost use Rattle.qo_model.specs.Clocks.{device_period};

use crate::wiring::Wiring;
use qo_clocks::device_period;
use qo_heap::{Heap, Oid, Steps};
use qo_kinds::{Bridge, Device};
use qo_timer::Timer;
use qo_uart::Uart;
use std::sync::ledger::Ledger;

/// The control register of a timer and of a bridge.
const CTRL: u8 = 0;

/// STATUS of a UART, the value that is in it where the UART is ready, and SCRATCH.
const UART_STATUS: u8 = 2;

const UART_READY: u32 = 4;

const UART_SCRATCH: u8 = 3;

/// COUNT of a timer.
const TIMER_COUNT: u8 = 2;

/// Whether a UART asks for attention. That it is ready hangs neither on its ring nor on its clock.
fn uart_asks(uart: &Uart) -> bool
    ensures { result ≡ ((uart_status uart.now false 0 / 4 % 2 == 1) && not (uart.now.scratch == 0)) }
{
    let status = uart.read(UART_STATUS, false, 0).unwrap_or(0);
    let scratch = uart.read(UART_SCRATCH, false, 0).unwrap_or(0);
    status / UART_READY % 2 == 1 && scratch != 0
}

/// Whether the count of a timer has come down to 0. What it counts hangs on its clock.
fn is_down<L: Ledger>(heap: &Heap, dev: Oid, timer: &Timer, steps: &mut Steps<L>) -> bool
    requires live { IsLive heap.now.rows dev }
    requires timely { timer.now.last ≤ heap.now.time }
    ensures { (b : Board) → Shows b heap.now → Clocked b heap.now → result ≡ (timer_count timer.now heap.now.time (device_period b dev.birth) == 0) }
{
    let period = device_period(heap, dev, steps);
    let count = timer.read(TIMER_COUNT, heap.time(), period).unwrap_or(0);
    count == 0
}

/// Whether a timer counts.
fn is_counting(timer: &Timer, time: u64) -> bool
    requires { timer.now.last ≤ time }
    ensures { result ≡ ((if timer.now.enabled then 1 else 0) == 1) }
{
    let control = timer.read(CTRL, time, 0).unwrap_or(0);
    control == 1
}

/// Whether a timer asks for attention. Where it does not count, its clock is not looked at.
fn timer_asks<L: Ledger>(heap: &Heap, dev: Oid, timer: &Timer, steps: &mut Steps<L>) -> bool
    requires live { IsLive heap.now.rows dev }
    requires timely { timer.now.last ≤ heap.now.time }
    ensures { (b : Board) → Shows b heap.now → Clocked b heap.now → result ≡ (((if timer.now.enabled then 1 else 0) == 1) && (timer_count timer.now heap.now.time (device_period b dev.birth) == 0)) }
{
    if !is_counting(timer, heap.time()) {
        return false;
    }
    is_down(heap, dev, timer, steps)
}

/// Whether a bridge hides the lines behind it.
fn is_hidden(bridge: &Bridge) -> bool
    ensures { result ≡ not ((if bridge.now.raised then 1 else 0) == 0) }
{
    let control = bridge.read(CTRL).unwrap_or(0);
    control != 0
}

/// What the input of an object is set to.
pub(crate) fn input_of<L: Ledger>(heap: &Heap, o: Oid, steps: &mut Steps<L>) -> bool
    requires live { IsLive heap.now.rows o }
    requires timely { AreTimely heap.now }
    ensures { (b : Board) → Shows b heap.now → Clocked b heap.now → result ≡ input_of b o.birth }
{
    match &heap.body(o, steps).device {
        Device::Uart(uart) => uart_asks(uart),
        Device::Timer(timer) => timer_asks(heap, o, timer, steps),
        Device::Bridge(bridge) => is_hidden(bridge),
        Device::Dimm(_) => false,
        Device::Bare => false,
    }
}

/// How the line of an object with this device is driven.
fn wiring_of(device: &Device) -> Wiring
    ensures { result ≡ wiring (registers_in device.now) }
{
    match device {
        Device::Bridge(_) => Wiring::Masked,
        Device::Bare => Wiring::Joined,
        Device::Uart(_) | Device::Timer(_) | Device::Dimm(_) => Wiring::Own,
    }
}

/// How the line of an object is driven.
pub(crate) fn wiring<L: Ledger>(heap: &Heap, o: Oid, steps: &mut Steps<L>) -> Wiring
    requires { IsLive heap.now.rows o }
    ensures { (b : Board) → Shows b heap.now → result ≡ wiring (registers_at b o.birth) }
{
    wiring_of(&heap.body(o, steps).device)
}
