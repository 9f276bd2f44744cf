//! The types of the object model by name, and the acts that are done to an object's body.

ghost use Rattle.std.specs.Prelude.{◌≡◌};
ghost use Rattle.qo_values.specs.Kinds.{entering, type_name};

/// A row of the type table, in its order (QEMU's object model: docs/devel/qom.rst, "The QEMU Object
/// Model"; the types themselves are the profile's).
#[derive(Clone, Copy, Debug, PartialEq, Eq)]
pub enum TypeId {
    /// `object`, the root of the hierarchy.
    Object,
    /// `container`.
    Container,
    /// `machine`.
    Machine,
    /// `device`.
    Device,
    /// `slot-device`.
    SlotDevice,
    /// `slot-uart`.
    SlotUart,
    /// `slot-timer`.
    SlotTimer,
    /// `slot-bridge`.
    SlotBridge,
    /// `mem-dimm`.
    MemDimm,
    /// `bus`.
    Bus,
    /// `slot-bus`.
    SlotBus,
    /// `mem-bus`.
    MemBus,
    /// `clock`.
    Clock,
    /// `memory-backend`.
    MemoryBackend,
    /// `memory-backend-ram`.
    MemoryBackendRam,
    /// `tag`.
    Tag,
}

/// The type of a reset (docs/devel/reset.rst, "Reset types"; which registers a wakeup keeps is the profile's).
#[derive(Clone, Copy, Debug, PartialEq, Eq)]
pub enum ResetKind {
    /// All begins anew.
    Cold,
    /// What a device keeps while it sleeps stays.
    Wakeup,
}

/// What is done to an object's body, and noted (phases: docs/devel/reset.rst, "Multi-phase
/// mechanism"; clock callbacks: docs/devel/clocks.rst, "Clock callbacks").
#[derive(Clone, Copy, Debug, PartialEq, Eq)]
pub enum Act {
    /// The initializer of one type of the object's chain.
    Init(TypeId),
    /// Realize.
    Realize,
    /// Unrealize.
    Unrealize,
    /// The enter phase of a cold reset.
    Enter,
    /// The enter phase of a wakeup.
    Wake,
    /// The hold phase of a reset.
    Hold,
    /// The exit phase of a reset.
    Exit,
    /// A clock's callback before its period changes.
    Pre,
    /// A clock's callback after its period changed.
    Update,
}

impl ResetKind {
    /// The act of the enter phase.
    pub fn entering(self) -> Act
        ensures { result ≡ entering self }
    {
        match self {
            ResetKind::Cold => Act::Enter,
            ResetKind::Wakeup => Act::Wake,
        }
    }
}

impl TypeId {
    /// The type's name, as commands and replies spell it.
    pub fn name(self) -> &'static str
        ensures { result.now ≡ type_name self }
    {
        match self {
            TypeId::Object => "object",
            TypeId::Container => "container",
            TypeId::Machine => "machine",
            TypeId::Device => "device",
            TypeId::SlotDevice => "slot-device",
            TypeId::SlotUart => "slot-uart",
            TypeId::SlotTimer => "slot-timer",
            TypeId::SlotBridge => "slot-bridge",
            TypeId::MemDimm => "mem-dimm",
            TypeId::Bus => "bus",
            TypeId::SlotBus => "slot-bus",
            TypeId::MemBus => "mem-bus",
            TypeId::Clock => "clock",
            TypeId::MemoryBackend => "memory-backend",
            TypeId::MemoryBackendRam => "memory-backend-ram",
            TypeId::Tag => "tag",
        }
    }
}
