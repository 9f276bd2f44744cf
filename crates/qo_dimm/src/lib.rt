//! The body of a DIMM: its registers as a guest reads them.
#![tactic(auto)]

ghost use Rattle.std.specs.Prelude.{◌≡◌, ◌%◌, ◌/◌, ◌^◌};
ghost use Rattle.qo_values.specs.Dimm.{dimm_read};

use std::marker::Model;

/// Register 0: the low half of the address.
const ADDRESS_LOW: u8 = 0;
/// Register 1: the high half of the address.
const ADDRESS_HIGH: u8 = 1;
/// Register 2: the low half of the size.
const SIZE_LOW: u8 = 2;
/// Register 3: the high half of the size.
const SIZE_HIGH: u8 = 3;

/// Bits of a register.
const REGISTER_BITS: u32 = 32;

/// The body of a DIMM: the range of memory that it stands on, which a guest reads and never writes.
#[derive(Clone, Copy, Debug, PartialEq, Eq)]
pub struct Dimm {
    /// Where the range begins, in bytes.
    pub addr: u64,
    /// The size of the range, in bytes.
    pub size: u64,
}

impl Model for Dimm {
    ghost use Rattle.qo_values.specs.Registers.{DimmRegisters};

    ghost Value = { DimmRegisters };

    ghost view = { λ d. record { address = d.addr; size = d.size } };

    ghost inverse = { λ d. record { addr = d.address; size = d.size } };
}

impl Dimm {
    /// What register `reg` reads. `None` is a register that is absent.
    pub fn read(&self, reg: u8) -> Option<u32>
        ensures { result ≡ dimm_read self.now reg }
    {
        match reg {
            ADDRESS_LOW => Some(low_half(self.addr)),
            ADDRESS_HIGH => Some(high_half(self.addr)),
            SIZE_LOW => Some(low_half(self.size)),
            SIZE_HIGH => Some(high_half(self.size)),
            _ => None,
        }
    }
}

/// The low half of a number.
fn low_half(number: u64) -> u32
    ensures { result ≡ number % 2 ^ 32 }
{
    (number % (1 << REGISTER_BITS)) as u32
}

/// The high half of a number.
fn high_half(number: u64) -> u32
    ensures { result ≡ number / 2 ^ 32 }
{
    (number >> REGISTER_BITS) as u32
}
