//! What a description says of a board.

use qo_values::{PropList, Text};

/// The numbers of the system clock.
#[derive(Clone, Copy, Debug)]
pub struct ClockNumbers {
    /// By what it divides its period for the clocks that go by it.
    pub div: u64,
    /// By what it multiplies it.
    pub mul: u64,
    /// Its period, in units of 2^-32 ns.
    pub period: u64,
}

/// How another clock divides and multiplies.
#[derive(Debug, Drop)]
pub struct ClockItem {
    /// By what it divides its period.
    pub div: u64,
    /// By what it multiplies it.
    pub mul: u64,
    /// Its path.
    pub path: Text,
}

/// A device.
#[derive(Debug, Drop)]
pub struct DeviceItem {
    /// The path of its bus.
    pub bus: Text,
    /// The name of its type.
    pub driver: Text,
    /// Its id.
    pub id: Text,
    /// Its properties but its slot, in byte order of their names.
    pub props: PropList,
    /// Its slot on the bus.
    pub slot: u64,
}

/// A link.
#[derive(Debug, Drop)]
pub struct LinkItem {
    /// The path of the object that has it.
    pub path: Text,
    /// Its name.
    pub property: Text,
    /// The path of its target.
    pub value: Text,
}

/// A user's object.
#[derive(Debug, Drop)]
pub struct ObjectItem {
    /// Its id.
    pub id: Text,
    /// Its properties, in byte order of their names.
    pub props: PropList,
    /// The name of its type, the member `type`.
    pub kind: Text,
}

/// A ring.
#[derive(Debug, Drop)]
pub struct RingItem {
    /// Its id.
    pub id: Text,
    /// Its size, in bytes.
    pub size: u64,
}

/// A board, as far as commands make it.
#[derive(Drop)]
pub struct Description {
    /// The numbers of the system clock.
    pub clock: ClockNumbers,
    /// How the clocks of devices divide and multiply, where they do.
    pub clocks: Vec<ClockItem>,
    /// The devices, each after what it hangs on.
    pub devices: Vec<DeviceItem>,
    /// The links that are not empty.
    pub links: Vec<LinkItem>,
    /// The users' objects.
    pub objects: Vec<ObjectItem>,
    /// The rings.
    pub rings: Vec<RingItem>,
}
