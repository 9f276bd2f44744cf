//! Bodies: their devices, which act and whose registers a guest reads and writes, and their claims.

ghost use Rattle.std.specs.Prelude.{◌≡◌, ◌≤◌, IfNone, ℕ, false, option_map, true};
ghost use Rattle.qo_values.specs.Registers.{body_act, body_read, body_write, fresh_registers};
ghost use Rattle.qo_values.specs.Timer.{timer_wake};
ghost use Rattle.qo_values.specs.Uart.{uart_wake};
ghost use Rattle.qo_values.specs.Registers as registers;
ghost use Rattle.qo_kinds.specs.Bodies.{IsBare, IsTimely, MayAct, reads_moment, acted, body_of, device_in, kept_of, none_kept, registers_of, with_kept, with_registers};
ghost use Rattle.qo_kinds.specs.Effects.{shown_effect};

use crate::bridge::Bridge;
use crate::effects::Effect;
use crate::kept_set::{KeptSet, end_none};
use qo_dimm::Dimm;
use qo_timer::Timer;
use qo_uart::Uart;
use qo_values::{Act, TypeId};
use std::mem::replace;

/// What an object keeps beside its slots: its device, and the claims that it holds.
pub struct Body {
    /// Its device.
    pub device: Device,
    /// Its claims.
    pub kept: KeptSet,
}

/// The registers of a device, by its kind; any other object has none.
#[derive(Debug, Drop)]
pub enum Device {
    /// A UART.
    Uart(Uart),
    /// A timer.
    Timer(Timer),
    /// A DIMM.
    Dimm(Dimm),
    /// A bridge.
    Bridge(Bridge),
    /// Any other object.
    Bare,
}

/// The register of a UART that a wakeup keeps.
const DIVISOR: u8 = 1;

/// The register of a timer that a wakeup keeps.
const RELOAD: u8 = 1;

/// The enter phase of a wakeup of a UART: as `enter`, but DIVISOR stays.
fn wake_uart(uart: &mut Uart)
    ensures { uart.new ≡ uart_wake uart.old }
{
    let divisor = uart.read(DIVISOR, false, 0);
    uart.enter();
    if let Some(divisor) = divisor {
        uart.write(DIVISOR, divisor, false);
    }
}

/// The enter phase of a wakeup of a timer: as `enter`, but RELOAD stays. It is disabled
/// then, so that no segment begins.
fn wake_timer(timer: &mut Timer)
    ensures { timer.new ≡ timer_wake timer.old }
{
    let last = timer.last();
    let reload = timer.read(RELOAD, last, 0);
    timer.enter();
    if let Some(reload) = reload {
        timer.write(RELOAD, reload, last, 0);
    }
}

/// An act of a UART.
fn act_uart(uart: &mut Uart, act: Act)
    ensures { (time period : ℕ) → registers.uart uart.new ≡ body_act act time period (registers.uart uart.old) }
{
    match act {
        Act::Enter => uart.enter(),
        Act::Wake => wake_uart(uart),
        Act::Hold => uart.hold(),
        Act::Exit => uart.exit(),
        _ => {}
    }
}

/// An act of a timer.
fn act_timer(timer: &mut Timer, act: Act, time: u64, period: u64)
    requires { reads_moment act ≡ true → timer.old.last ≤ time }
    ensures { registers.timer timer.new ≡ body_act act time period (registers.timer timer.old) }
{
    match act {
        Act::Enter => timer.enter(),
        Act::Wake => wake_timer(timer),
        Act::Hold => timer.hold(),
        Act::Unrealize => timer.halt(time, period),
        Act::Pre => timer.pre_update(time, period),
        Act::Update => timer.update(time),
        _ => {}
    }
}

/// Writes to a register of a UART, at whatever moment and period.
fn write_uart(uart: &mut Uart, reg: u8, value: u32, ring: bool) -> Option<Effect>
    ensures written { option_map (λ effect. (registers.uart uart.new, shown_effect effect)) result ≡ body_write (registers.uart uart.old) reg value ring 0 0 }
    ensures absent { IfNone result (uart.new ≡ uart.old) }
{
    match uart.write(reg, value, ring)?.byte {
        Some(byte) => Some(Effect::Byte(byte)),
        None => Some(Effect::Nothing),
    }
}

/// Writes to a register of a timer, which has no ring.
fn write_timer(timer: &mut Timer, reg: u8, value: u32, time: u64, period: u64) -> Option<Effect>
    requires { timer.old.last ≤ time }
    ensures written { option_map (λ effect. (registers.timer timer.new, shown_effect effect)) result ≡ body_write (registers.timer timer.old) reg value false time period }
    ensures absent { IfNone result (timer.new ≡ timer.old) }
{
    timer.write(reg, value, time, period)?;
    Some(Effect::Nothing)
}

/// Writes to a register of a DIMM, which change nothing, whatever is written and when.
fn write_dimm(dimm: &Dimm, reg: u8) -> Option<Effect>
    ensures { option_map (λ effect. (registers.dimm dimm.now, shown_effect effect)) result ≡ body_write (registers.dimm dimm.now) reg 0 false 0 0 }
{
    match dimm.read(reg) {
        Some(_) => Some(Effect::Nothing),
        None => None,
    }
}

impl Device {
    /// The device of a new object of a type.
    fn of(kind: TypeId) -> Device
        ensures { result ≡ device_in (fresh_registers kind) }
    {
        match kind {
            TypeId::SlotUart => Device::Uart(Uart::fresh()),
            TypeId::SlotTimer => Device::Timer(Timer::fresh()),
            TypeId::MemDimm => Device::Dimm(Dimm { addr: 0, size: 0 }),
            TypeId::SlotBridge => Device::Bridge(Bridge::fresh()),
            _ => Device::Bare,
        }
    }
}

impl Drop for Body {
    fn drop(self)
        requires { IsBare self }
    {
        let Body { device: _, kept } = self;
        end_none(kept);
    }
}

impl Body {
    /// The body of a new object of a type, without claims. It takes no memory.
    pub fn of(kind: TypeId) -> Body
        ensures { result ≡ body_of kind }
    {
        Body {
            device: Device::of(kind),
            kept: KeptSet::none(),
        }
    }

    /// An act at a moment, where `period` is that of the device's clock. It takes no memory.
    pub fn act(&mut self, act: Act, time: u64, period: u64)
        requires { MayAct act time self.old }
        ensures { self.new ≡ acted act time period self.old }
    {
        match &mut self.device {
            Device::Uart(uart) => act_uart(uart, act),
            Device::Timer(timer) => act_timer(timer, act, time, period),
            Device::Bridge(bridge) => bridge.act(act),
            _ => {}
        }
    }

    /// What register `reg` reads at a moment, in ns, where `ring` says whether a ring is claimed and
    /// `period` is that of the device's clock, in units of 2^-32 ns. `None` is a register that is
    /// absent.
    pub fn read(&self, reg: u8, ring: bool, time: u64, period: u64) -> Option<u32>
        requires { IsTimely time self.now }
        ensures { result ≡ body_read (registers_of self.now) reg ring time period }
    {
        match &self.device {
            Device::Uart(uart) => uart.read(reg, ring, period),
            Device::Timer(timer) => timer.read(reg, time, period),
            Device::Dimm(dimm) => dimm.read(reg),
            Device::Bridge(bridge) => bridge.read(reg),
            _ => None,
        }
    }

    /// Writes `value` to register `reg` at a moment, in ns, where `ring` says whether a ring is claimed
    /// and `period` is that of the device's clock, in units of 2^-32 ns; and answers what the write
    /// does beside. `None` is a register that is absent; the body is then as before.
    pub fn write(
        &mut self,
        reg: u8,
        value: u32,
        ring: bool,
        time: u64,
        period: u64,
    ) -> Option<Effect>
        requires { IsTimely time self.old }
        ensures written { option_map (λ effect. (registers_of self.new, shown_effect effect)) result ≡ body_write (registers_of self.old) reg value ring time period }
        ensures rest { self.new ≡ with_registers (registers_of self.new) self.old }
        ensures kept { kept_of self.new ≡ kept_of self.old }
        ensures absent { IfNone result (self.new ≡ self.old) }
    {
        match &mut self.device {
            Device::Uart(uart) => write_uart(uart, reg, value, ring),
            Device::Timer(timer) => write_timer(timer, reg, value, time, period),
            Device::Dimm(dimm) => write_dimm(dimm, reg),
            Device::Bridge(bridge) => bridge.write(reg, value),
            _ => None,
        }
    }

    /// Takes all claims out. It takes no memory.
    pub fn take_claims(&mut self) -> KeptSet
        ensures taken { result ≡ kept_of self.old }
        ensures left { self.new ≡ with_kept none_kept self.old }
        ensures bare { IsBare self.new }
    {
        self.kept.take()
    }

    /// A body without claims keeps these. It takes no memory.
    pub fn keep_claims(&mut self, kept: KeptSet)
        requires { IsBare self.old }
        ensures { self.new ≡ with_kept kept self.old }
    {
        end_none(replace(&mut self.kept, kept));
    }
}
