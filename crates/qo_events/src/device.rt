//! An event on a device.

use qo_values::{Id, Text};
use std::marker::Model;

/// An event on a device: that it was deleted, or that the guest refused its removal
/// (qapi/qdev.json, `DEVICE_DELETED` and `DEVICE_UNPLUG_GUEST_ERROR`).
#[derive(Debug, Drop)]
pub struct DeviceEvent {
    deleted: bool,
    id: Option<Id>,
    path: Text,
}

impl Model for DeviceEvent {
    ghost use Rattle.qo_model.specs.Board as board;

    ghost Value = { board.DeviceEvent };

    ghost view = { λ e. record { deleted = e.deleted; id = e.id; path = e.path } };
}

impl DeviceEvent {
    ghost use Rattle.std.specs.Prelude.{◌≡◌, true, false, option_map};

    /// That a device of an id, if it has one, which stood at a path, was deleted. It takes no
    /// memory.
    pub fn deleted(id: Option<Id>, path: Text) -> DeviceEvent
        ensures { result ≡ record { deleted = true; id = id; path = path } }
    {
        DeviceEvent {
            deleted: true,
            id,
            path,
        }
    }

    /// That the guest refused the removal of a device of an id, if it has one, at a path. It takes
    /// no memory.
    pub fn refused(id: Option<Id>, path: Text) -> DeviceEvent
        ensures { result ≡ record { deleted = false; id = id; path = path } }
    {
        DeviceEvent {
            deleted: false,
            id,
            path,
        }
    }

    /// Whether the device was deleted; if not, the guest refused its removal. It takes no memory.
    pub fn is_deleted(&self) -> bool
        ensures { result ≡ self.now.deleted }
    {
        self.deleted
    }

    /// The id of the device, if it has one. It takes no memory.
    pub fn id(&self) -> Option<&Id>
        ensures { option_map (λ i. i.now) result ≡ self.now.id }
    {
        self.id.as_ref()
    }

    /// The path of the device. It takes no memory.
    pub fn path(&self) -> &str
        ensures { result.now ≡ self.now.path }
    {
        self.path.as_str()
    }
}
