//! The table of the types: a record for each, as QEMU's `TypeInfo` is.

ghost use Rattle.std.specs.Prelude.{◌≡◌, codes, find};
ghost use Rattle.std.specs.List.{list_any};
ghost use Rattle.std.specs.Str.{bytes_eq};
ghost use Rattle.qo_values.specs.Kinds.{type_name};
ghost use Rattle.qo_model.specs.RowNames.{interface_name};
ghost use Rattle.qo_model.specs.Types.{answers_to, chain, interfaces_of, is_a, slots_of};
ghost use Rattle.qo_types.specs.Rows.{is_abstract, type_ids};

use crate::slots::{
    CLOCK, DEVICE, MEM_DIMM, MEMORY_BACKEND, OBJECT, SLOT_BRIDGE, SLOT_DEVICE, SLOT_UART, TAG,
};
use qo_model::{Interface, Property};
use qo_values::TypeId;

/// What the table says of a type.
#[derive(Clone, Copy)]
pub(crate) struct TypeInfo {
    /// The type, its parent and so on to `object`.
    pub(crate) ancestry: &'static [TypeId],
    /// The interfaces that it adds to those of its parent.
    pub(crate) interfaces: &'static [Interface],
    /// Whether it has no objects of its own.
    pub(crate) is_abstract: bool,
    /// Whether it is one of buses.
    pub(crate) is_bus: bool,
    /// Whether it is one of devices.
    pub(crate) is_device: bool,
    /// Whether it is one of devices that go into a slot.
    pub(crate) is_slot_device: bool,
    /// The properties of its objects, in slot order.
    pub(crate) properties: &'static [Property],
}

/// All types, in row order.
#[tactic(auto, unfolding(qo_model::specs::Types::types))]
pub(crate) fn all_types() -> &'static [TypeId]
    ensures { result.now ≡ type_ids }
{
    &[
        TypeId::Object,
        TypeId::Container,
        TypeId::Machine,
        TypeId::Device,
        TypeId::SlotDevice,
        TypeId::SlotUart,
        TypeId::SlotTimer,
        TypeId::SlotBridge,
        TypeId::MemDimm,
        TypeId::Bus,
        TypeId::SlotBus,
        TypeId::MemBus,
        TypeId::Clock,
        TypeId::MemoryBackend,
        TypeId::MemoryBackendRam,
        TypeId::Tag,
    ]
}

/// What the table says of a type: its one record.
#[tactic(auto, unfolding(qo_model::specs::Types::types))]
pub(crate) fn info(t: TypeId) -> TypeInfo
    ensures ancestry { result.ancestry.now ≡ chain t }
    ensures interfaces { result.interfaces.now ≡ interfaces_of t }
    ensures is_abstract { result.is_abstract ≡ is_abstract t }
    ensures is_bus { result.is_bus ≡ is_a t (codes "bus") }
    ensures is_device { result.is_device ≡ is_a t (codes "device") }
    ensures is_slot_device { result.is_slot_device ≡ is_a t (codes "slot-device") }
    ensures properties { result.properties.now ≡ slots_of t }
{
    match t {
        TypeId::Object => TypeInfo {
            ancestry: &[TypeId::Object],
            interfaces: &[],
            is_abstract: true,
            is_bus: false,
            is_device: false,
            is_slot_device: false,
            properties: &OBJECT,
        },
        TypeId::Container => TypeInfo {
            ancestry: &[TypeId::Container, TypeId::Object],
            interfaces: &[],
            is_abstract: false,
            is_bus: false,
            is_device: false,
            is_slot_device: false,
            properties: &OBJECT,
        },
        TypeId::Machine => TypeInfo {
            ancestry: &[TypeId::Machine, TypeId::Object],
            interfaces: &[Interface::HotplugHandler, Interface::Resettable],
            is_abstract: false,
            is_bus: false,
            is_device: false,
            is_slot_device: false,
            properties: &OBJECT,
        },
        TypeId::Device => TypeInfo {
            ancestry: &[TypeId::Device, TypeId::Object],
            interfaces: &[Interface::Resettable],
            is_abstract: true,
            is_bus: false,
            is_device: true,
            is_slot_device: false,
            properties: &DEVICE,
        },
        TypeId::SlotDevice => TypeInfo {
            ancestry: &[TypeId::SlotDevice, TypeId::Device, TypeId::Object],
            interfaces: &[],
            is_abstract: true,
            is_bus: false,
            is_device: true,
            is_slot_device: true,
            properties: &SLOT_DEVICE,
        },
        TypeId::SlotUart => TypeInfo {
            ancestry: &[
                TypeId::SlotUart,
                TypeId::SlotDevice,
                TypeId::Device,
                TypeId::Object,
            ],
            interfaces: &[],
            is_abstract: false,
            is_bus: false,
            is_device: true,
            is_slot_device: true,
            properties: &SLOT_UART,
        },
        TypeId::SlotTimer => TypeInfo {
            ancestry: &[
                TypeId::SlotTimer,
                TypeId::SlotDevice,
                TypeId::Device,
                TypeId::Object,
            ],
            interfaces: &[],
            is_abstract: false,
            is_bus: false,
            is_device: true,
            is_slot_device: true,
            properties: &SLOT_DEVICE,
        },
        TypeId::SlotBridge => TypeInfo {
            ancestry: &[
                TypeId::SlotBridge,
                TypeId::SlotDevice,
                TypeId::Device,
                TypeId::Object,
            ],
            interfaces: &[Interface::HotplugHandler],
            is_abstract: false,
            is_bus: false,
            is_device: true,
            is_slot_device: true,
            properties: &SLOT_BRIDGE,
        },
        TypeId::MemDimm => TypeInfo {
            ancestry: &[TypeId::MemDimm, TypeId::Device, TypeId::Object],
            interfaces: &[],
            is_abstract: false,
            is_bus: false,
            is_device: true,
            is_slot_device: false,
            properties: &MEM_DIMM,
        },
        TypeId::Bus => TypeInfo {
            ancestry: &[TypeId::Bus, TypeId::Object],
            interfaces: &[Interface::Resettable],
            is_abstract: true,
            is_bus: true,
            is_device: false,
            is_slot_device: false,
            properties: &OBJECT,
        },
        TypeId::SlotBus => TypeInfo {
            ancestry: &[TypeId::SlotBus, TypeId::Bus, TypeId::Object],
            interfaces: &[],
            is_abstract: false,
            is_bus: true,
            is_device: false,
            is_slot_device: false,
            properties: &OBJECT,
        },
        TypeId::MemBus => TypeInfo {
            ancestry: &[TypeId::MemBus, TypeId::Bus, TypeId::Object],
            interfaces: &[],
            is_abstract: false,
            is_bus: true,
            is_device: false,
            is_slot_device: false,
            properties: &OBJECT,
        },
        TypeId::Clock => TypeInfo {
            ancestry: &[TypeId::Clock, TypeId::Object],
            interfaces: &[],
            is_abstract: false,
            is_bus: false,
            is_device: false,
            is_slot_device: false,
            properties: &CLOCK,
        },
        TypeId::MemoryBackend => TypeInfo {
            ancestry: &[TypeId::MemoryBackend, TypeId::Object],
            interfaces: &[Interface::UserCreatable],
            is_abstract: true,
            is_bus: false,
            is_device: false,
            is_slot_device: false,
            properties: &MEMORY_BACKEND,
        },
        TypeId::MemoryBackendRam => TypeInfo {
            ancestry: &[
                TypeId::MemoryBackendRam,
                TypeId::MemoryBackend,
                TypeId::Object,
            ],
            interfaces: &[],
            is_abstract: false,
            is_bus: false,
            is_device: false,
            is_slot_device: false,
            properties: &MEMORY_BACKEND,
        },
        TypeId::Tag => TypeInfo {
            ancestry: &[TypeId::Tag, TypeId::Object],
            interfaces: &[Interface::UserCreatable],
            is_abstract: false,
            is_bus: false,
            is_device: false,
            is_slot_device: false,
            properties: &TAG,
        },
    }
}

/// Whether a name is that of one of some interfaces.
fn is_among(interfaces: &[Interface], name: &str) -> bool
    ensures { result ≡ list_any (λ i. bytes_eq name.now (interface_name i)) interfaces.now }
{
    interfaces.iter().any(|interface| name == interface.name())
}

/// Whether a name is a type's own, or one of the interfaces that it adds.
pub(crate) fn answers_to(t: TypeId, name: &str) -> bool
    ensures { result ≡ answers_to name.now t }
{
    t.name() == name || is_among(info(t).interfaces, name)
}

/// Whether two texts are the same. Most differ in length, which is told without a look at their bytes.
#[inline(always)]
pub(crate) fn is_same(one: &str, other: &str) -> bool
    ensures { result ≡ bytes_eq one.now other.now }
{
    one.len() == other.len() && one == other
}

/// The first of some types that has a name.
pub(crate) fn first_named(types: &[TypeId], name: &str) -> Option<TypeId>
    ensures { result ≡ find (λ t. bytes_eq (type_name t) name.now) types.now }
{
    types.iter().copied().find(|t| is_same(t.name(), name))
}
