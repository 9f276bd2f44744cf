//! A removal that is asked for.

use qo_slots::Key as Oid;
use qo_values::ASK_AGAIN_AFTER;
use std::marker::Model;

/// A removal of a device that is asked for, and when it was last asked for, in ns of the virtual time. The key may
/// dangle: contracts see the birth alone.
#[derive(Debug, Drop)]
pub struct Removal {
    device: Oid,
    asked: u64,
}

impl Model for Removal {
    ghost use Rattle.qo_model.specs.Board as board;

    ghost Value = { board.Removal };

    ghost view = { λ r. record { birth = r.device.birth; asked = r.asked } };
}

impl Removal {
    ghost use Rattle.std.specs.Prelude.{◌≡◌, ◌==◌, ◌+◌, nat_lt};
    ghost use Rattle.qo_values.specs.declared.limits.TheConstants.{ASK_AGAIN_AFTER};
    ghost use Rattle.qo_model.specs.Board.{is_of_device};
    ghost use Rattle.qo_model.specs.Hotplug.{asked_at};

    /// The removal of a device, asked for at a moment. It takes no memory.
    pub(crate) fn new(device: Oid, now: u64) -> Removal
        ensures { result ≡ record { birth = device.birth; asked = now } }
    {
        Removal { device, asked: now }
    }

    /// The device. It takes no memory.
    pub fn device(&self) -> Oid
        ensures { result.birth ≡ self.now.birth }
    {
        self.device
    }

    /// Whether it is of a device. It takes no memory.
    pub(crate) fn is_of(&self, device: Oid) -> bool
        ensures { result ≡ is_of_device device.birth self.now }
    {
        self.device.birth == device.birth
    }

    /// Whether it was asked for less than `ASK_AGAIN_AFTER` ns before a moment. It takes no memory.
    pub(crate) fn is_early(&self, now: u64) -> bool
        ensures { result ≡ nat_lt now (self.now.asked + ASK_AGAIN_AFTER) }
    {
        now.saturating_sub(self.asked) < ASK_AGAIN_AFTER
    }

    /// It is asked for again, where it is of a device. It takes no memory.
    pub(crate) fn ask_again(&mut self, device: Oid, now: u64)
        ensures { self.new ≡ asked_at device.birth now self.old }
    {
        if self.is_of(device) {
            self.asked = now;
        }
    }
}
