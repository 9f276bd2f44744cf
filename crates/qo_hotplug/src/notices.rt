//! A notice to the guest.

use qo_slots::Key as Oid;
use std::marker::Model;

/// A notice to the guest of a device: that it was plugged in, or that its removal is asked for
/// (include/hw/hotplug.h). The key may dangle: contracts see the birth alone.
#[derive(Debug, Drop)]
pub struct Notice {
    plug: bool,
    device: Oid,
}

impl Model for Notice {
    ghost use Rattle.qo_model.specs.Board as board;

    ghost Value = { board.Notice };

    ghost view = { λ n. record { plug = n.plug; birth = n.device.birth } };
}

impl Notice {
    ghost use Rattle.std.specs.Prelude.{◌≡◌, true, false};

    /// That a device was plugged in. It takes no memory.
    pub(crate) fn plugged(device: Oid) -> Notice
        ensures { result ≡ record { plug = true; birth = device.birth } }
    {
        Notice { plug: true, device }
    }

    /// That the removal of a device is asked for. It takes no memory.
    pub(crate) fn unplug(device: Oid) -> Notice
        ensures { result ≡ record { plug = false; birth = device.birth } }
    {
        Notice {
            plug: false,
            device,
        }
    }

    /// Whether the device was plugged in; if not, its removal is asked for. It takes no memory.
    pub fn is_plug(&self) -> bool
        ensures { result ≡ self.now.plug }
    {
        self.plug
    }

    /// The device. It takes no memory.
    pub fn device(&self) -> Oid
        ensures { result.birth ≡ self.now.birth }
    {
        self.device
    }
}
