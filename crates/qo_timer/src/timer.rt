//! The timer: a count that falls with each tick of a clock whose period may change.

ghost use Rattle.std.specs.Prelude.{◌≡◌, ◌≤◌, ◌*◌, true, IfNone, option_map};
ghost use Rattle.qo_values.specs.Registers.{fresh_timer};
ghost use Rattle.qo_values.specs.Timer.{span_ticks, timer_ticks, timer_count, after_begin, after_end};
ghost use Rattle.qo_values.specs.Timer.{timer_enter, timer_hold, timer_pre, timer_update, timer_halt};
ghost use Rattle.qo_values.specs.Timer.{timer_read, timer_write, control_write, reload_write};

use qo_values::{RELOAD_AT_FIRST, UNITS_PER_NS};
use std::marker::Model;

/// Register 0: bit 0 says whether the timer is enabled.
const CTRL: u8 = 0;
/// Register 1: what COUNT begins at.
const RELOAD: u8 = 1;
/// Register 2, read only: how far the timer has counted down.
const COUNT: u8 = 2;
/// Register 3, read only: the count of hold phases since the birth.
const HOLDS: u8 = 3;

/// Whether a timer is enabled, and what it does then.
#[derive(Clone, Copy, Debug)]
enum Mode {
    /// The timer is disabled.
    Disabled,
    /// It is enabled, and the clock's period is about to change: no segment is open.
    Between,
    /// It is enabled, and a segment is open, which began at the last moment.
    Open,
}

/// The body of a timer. Its count is of whole ticks of each segment of time, a segment being a span in
/// which the timer was enabled and its clock had one period. Moments are in ns of the virtual time, and
/// periods in units of 2^-32 ns, 0 for a clock that stands still.
#[derive(Debug, Drop)]
pub struct Timer {
    mode: Mode,
    reload: u32,
    /// The ticks of the ended segments, each rounded down.
    done: u128,
    /// The last moment at which a segment began or ended, 0 at birth.
    last: u64,
    holds: u32,
}

impl Model for Timer {
    ghost use Rattle.std.specs.Prelude.{◌≤◌, ◌*◌};
    ghost use Rattle.qo_values.specs.Registers.{TimerRegisters};
    ghost use Rattle.qo_values.specs.declared.limits.TheConstants.{UNITS_PER_NS};
    ghost use Rattle.qo_timer.specs.Mode.{is_enabled, began_of};

    ghost Value = { TimerRegisters };

    ghost view = { λ t. record {
      enabled = is_enabled t.mode;
      reload = t.reload;
      done = t.done;
      began = began_of t.mode t.last;
      last = t.last;
      holds = t.holds;
    } };

    ghost invariant = { λ t. t.done ≤ UNITS_PER_NS * t.last };
}

/// The whole ticks of a span of time under a period.
fn span_ticks(span: u64, period: u64) -> u128
    ensures value { result ≡ span_ticks span period }
    ensures bounded { result ≤ UNITS_PER_NS * span }
{
    if period == 0 {
        return 0;
    }
    u128::from(span) * u128::from(UNITS_PER_NS) / u128::from(period)
}

impl Timer {
    /// The last moment at which a segment began or ended, in ns; 0 at birth.
    pub fn last(&self) -> u64
        ensures { result ≡ self.now.last }
    {
        self.last
    }

    /// A timer at birth: disabled, RELOAD `RELOAD_AT_FIRST`, no segments.
    pub fn fresh() -> Timer
        ensures { result ≡ fresh_timer }
    {
        Timer {
            mode: Mode::Disabled,
            reload: RELOAD_AT_FIRST,
            done: 0,
            last: 0,
            holds: 0,
        }
    }

    /// The enter phase of a reset: disabled, RELOAD `RELOAD_AT_FIRST`, no segments.
    pub fn enter(&mut self)
        ensures { self.new ≡ timer_enter self.old }
    {
        self.mode = Mode::Disabled;
        self.reload = RELOAD_AT_FIRST;
        self.done = 0;
    }

    /// The hold phase of a reset, which HOLDS counts.
    pub fn hold(&mut self)
        ensures { self.new ≡ timer_hold self.old }
    {
        self.holds = self.holds.saturating_add(1);
    }

    /// The exit phase of a reset, which changes nothing.
    pub fn exit(&mut self)
        ensures { self.new ≡ self.old }
    {}

    /// The clock's callback before its period changes from `old`: where a segment is open, it ends now.
    pub fn pre_update(&mut self, now: u64, old: u64)
        requires { self.old.last ≤ now }
        ensures { self.new ≡ timer_pre self.old now old }
    {
        self.end_segment(now, old);
    }

    /// The clock's callback after its period changed: where the timer is enabled, a segment begins now.
    pub fn update(&mut self, now: u64)
        requires { self.old.last ≤ now }
        ensures { self.new ≡ timer_update self.old now }
    {
        match self.mode {
            Mode::Disabled => {}
            Mode::Between | Mode::Open => self.begin_segment(now),
        }
    }

    /// What Unrealize does: an open segment ends now, and the timer is disabled.
    pub fn halt(&mut self, now: u64, period: u64)
        requires { self.old.last ≤ now }
        ensures { self.new ≡ timer_halt self.old now period }
    {
        self.end_segment(now, period);
        self.mode = Mode::Disabled;
    }

    /// What register `reg` reads now, where `period` is that of the device's clock. `None` is a register
    /// that is absent.
    pub fn read(&self, reg: u8, now: u64, period: u64) -> Option<u32>
        requires { self.now.last ≤ now }
        ensures { result ≡ timer_read self.now reg now period }
    {
        match reg {
            CTRL => Some(u32::from(self.is_enabled())),
            RELOAD => Some(self.reload),
            COUNT => Some(self.count(now, period)),
            HOLDS => Some(self.holds),
            _ => None,
        }
    }

    /// Writes `value` to register `reg` now, where `period` is that of the device's clock. `None` is a
    /// register that is absent; the timer is then as before.
    pub fn write(&mut self, reg: u8, value: u32, now: u64, period: u64) -> Option<()>
        requires { self.old.last ≤ now }
        ensures written { option_map (λ _. self.new) result
            ≡ timer_write self.old reg value now period }
        ensures absent { IfNone result (self.new ≡ self.old) }
    {
        match reg {
            CTRL => self.control(value, now, period),
            RELOAD => self.set_reload(value, now),
            COUNT | HOLDS => {}
            _ => return None,
        }
        Some(())
    }

    /// A write to CTRL.
    fn control(&mut self, value: u32, now: u64, period: u64)
        requires { self.old.last ≤ now }
        ensures { self.new ≡ control_write self.old value now period }
    {
        let raised = value % 2 == 1;
        if raised && !self.is_enabled() {
            self.done = 0;
            self.begin_segment(now);
        } else if !raised && self.is_enabled() {
            self.halt(now, period);
        }
    }

    /// A write to RELOAD.
    fn set_reload(&mut self, value: u32, now: u64)
        requires { self.old.last ≤ now }
        ensures { self.new ≡ reload_write self.old value now }
    {
        self.reload = value;
        self.done = 0;
        if self.is_enabled() {
            self.begin_segment(now);
        }
    }

    /// Whether CTRL is 1.
    fn is_enabled(&self) -> bool
        ensures { result ≡ self.now.enabled }
    {
        !matches!(self.mode, Mode::Disabled)
    }

    /// What COUNT reads now.
    fn count(&self, now: u64, period: u64) -> u32
        requires { self.now.last ≤ now }
        ensures { result ≡ timer_count self.now now period }
    {
        let round = u128::from(self.reload) + 1;
        self.reload - (self.ticks(now, period) % round) as u32
    }

    /// The ticks of all segments, an open one up to now.
    fn ticks(&self, now: u64, period: u64) -> u128
        requires { self.now.last ≤ now }
        ensures value { result ≡ timer_ticks self.now now period }
        ensures bounded { result ≤ UNITS_PER_NS * now }
    {
        match self.mode {
            Mode::Disabled | Mode::Between => self.done,
            Mode::Open => self.done + span_ticks(now - self.last, period),
        }
    }

    /// Begins a segment now, which enables the timer.
    fn begin_segment(&mut self, now: u64)
        requires { self.old.last ≤ now }
        ensures { self.new ≡ after_begin (record self.old { enabled = true }) now }
    {
        self.mode = Mode::Open;
        self.last = now;
    }

    /// Ends the open segment now, if there is one.
    fn end_segment(&mut self, now: u64, period: u64)
        requires { self.old.last ≤ now }
        ensures { self.new ≡ after_end self.old now period }
    {
        if matches!(self.mode, Mode::Open) {
            self.done = self.ticks(now, period);
            self.mode = Mode::Between;
            self.last = now;
        }
    }
}
