//! The body of a UART: its registers as a guest reads and writes them, and its reset phases.
#![tactic(auto)]

ghost use Rattle.std.specs.Prelude.{◌≡◌, Some, None, IfNone, option_map};
ghost use Rattle.qo_values.specs.Registers.{fresh_uart};
ghost use Rattle.qo_values.specs.Uart.{uart_status, uart_read, uart_send, uart_write};
ghost use Rattle.qo_values.specs.Uart.{uart_enter, uart_hold, uart_exit};

use std::marker::Model;

/// Register 0: a byte to send.
const DATA: u8 = 0;
/// Register 1: a number that the guest keeps, 1 at first.
const DIVISOR: u8 = 1;
/// Register 2, read only: the sum of the three `STATUS_` values that hold.
const STATUS: u8 = 2;
/// Register 3: a number that the guest keeps, 0 at first.
const SCRATCH: u8 = 3;
/// Register 4, read only: the count of bytes sent.
const SENT: u8 = 4;
/// Register 5, read only: the count of hold phases since the birth.
const HOLDS: u8 = 5;

/// DIVISOR at birth and after Enter.
const DIVISOR_AT_FIRST: u32 = 1;

/// In STATUS: a ring is claimed.
const STATUS_RING: u32 = 1;
/// In STATUS: the period of the clock is not 0.
const STATUS_CLOCK: u32 = 2;
/// In STATUS: ready.
const STATUS_READY: u32 = 4;

/// The body of a UART.
#[derive(Debug, Drop)]
pub struct Uart {
    ready: bool,
    divisor: u32,
    scratch: u32,
    sent: u32,
    holds: u32,
}

impl Model for Uart {
    ghost use Rattle.qo_values.specs.Registers.{UartRegisters};

    ghost Value = { UartRegisters };

    ghost view = { λ u. record {
      ready = u.ready;
      divisor = u.divisor;
      scratch = u.scratch;
      sent = u.sent;
      holds = u.holds;
    } };
}

/// What a write to a UART's register gives.
#[derive(Clone, Copy, Debug, PartialEq, Eq)]
pub struct UartOut {
    /// The byte that goes to the ring, if any.
    pub byte: Option<u8>,
}

impl Uart {
    /// A UART at birth: not ready, DIVISOR 1, all else 0.
    pub fn fresh() -> Uart
        ensures { result ≡ fresh_uart }
    {
        Uart {
            ready: false,
            divisor: DIVISOR_AT_FIRST,
            scratch: 0,
            sent: 0,
            holds: 0,
        }
    }

    /// The enter phase of a reset: all but HOLDS is as at birth.
    pub fn enter(&mut self)
        ensures { self.new ≡ uart_enter self.old }
    {
        self.ready = false;
        self.divisor = DIVISOR_AT_FIRST;
        self.scratch = 0;
        self.sent = 0;
    }

    /// The hold phase of a reset, which HOLDS counts.
    pub fn hold(&mut self)
        ensures { self.new ≡ uart_hold self.old }
    {
        self.holds = self.holds.saturating_add(1);
    }

    /// The exit phase of a reset: the UART is ready.
    pub fn exit(&mut self)
        ensures { self.new ≡ uart_exit self.old }
    {
        self.ready = true;
    }

    /// What register `reg` reads, where `ring` says whether a ring is claimed and `period` is that of
    /// the device's clock. `None` is a register that is absent.
    pub fn read(&self, reg: u8, ring: bool, period: u64) -> Option<u32>
        ensures { result ≡ uart_read self.now reg ring period }
    {
        match reg {
            DATA => Some(0),
            DIVISOR => Some(self.divisor),
            STATUS => Some(self.status(ring, period)),
            SCRATCH => Some(self.scratch),
            SENT => Some(self.sent),
            HOLDS => Some(self.holds),
            _ => None,
        }
    }

    /// What STATUS reads.
    fn status(&self, ring: bool, period: u64) -> u32
        ensures { result ≡ uart_status self.now ring period }
    {
        let ring = if ring { STATUS_RING } else { 0 };
        let clock = if period == 0 { 0 } else { STATUS_CLOCK };
        let ready = if self.ready { STATUS_READY } else { 0 };
        ring + clock + ready
    }

    /// Writes `value` to register `reg`, where `ring` says whether a ring is claimed. `None` is a
    /// register that is absent; the UART is then as before.
    pub fn write(&mut self, reg: u8, value: u32, ring: bool) -> Option<UartOut>
        ensures written { option_map (λ out. (self.new, out.byte)) result
            ≡ uart_write self.old reg value ring }
        ensures absent { IfNone result (self.new ≡ self.old) }
    {
        let byte = match reg {
            DATA => self.send(value, ring),
            DIVISOR => {
                self.divisor = value;
                None
            }
            SCRATCH => {
                self.scratch = value;
                None
            }
            STATUS | SENT | HOLDS => None,
            _ => return None,
        };
        Some(UartOut { byte })
    }

    /// The byte that a write to DATA sends: the low byte, where ready and a ring is claimed.
    fn send(&mut self, value: u32, ring: bool) -> Option<u8>
        ensures { (self.new, result) ≡ uart_send self.old value ring }
    {
        if !self.ready || !ring {
            return None;
        }
        self.sent = self.sent.saturating_add(1);
        Some((value % 256) as u8)
    }
}
