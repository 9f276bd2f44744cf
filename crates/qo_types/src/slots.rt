//! The properties in the table of types, and which of them the objects of a type have, base first.

ghost use Rattle.std.specs.Prelude.{◌≡◌, find};
ghost use Rattle.std.specs.Str.{bytes_eq};
ghost use Rattle.qo_model.specs.RowNames.{property_name};

use crate::types::is_same;
use qo_model::{Access, First, Property, PropertyName, PropertyRole};
use qo_values::{BACKEND_SIZE_AT_FIRST, BACKEND_SIZE_MAX, DIMM_ALIGN, PropType, TypeId};

const TYPE: Property = Property {
    name: PropertyName::Type,
    role: PropertyRole::Plain(PropType::Text, First::TypeName),
    access: Access::Never,
};

const REALIZED: Property = Property {
    name: PropertyName::Realized,
    role: PropertyRole::Plain(PropType::Bool, First::Bool(false)),
    access: Access::Never,
};

const PARENT_BUS: Property = Property {
    name: PropertyName::ParentBus,
    role: PropertyRole::Link {
        ty: TypeId::Bus,
        strong: true,
    },
    access: Access::Never,
};

const SLOT: Property = Property {
    name: PropertyName::Slot,
    role: PropertyRole::Plain(
        PropType::Uint {
            lo: 0,
            hi: 255,
            step: 1,
        },
        First::Nothing,
    ),
    access: Access::Add,
};

const PEER: Property = Property {
    name: PropertyName::Peer,
    role: PropertyRole::Link {
        ty: TypeId::Device,
        strong: true,
    },
    access: Access::Both,
};

const WATCH: Property = Property {
    name: PropertyName::Watch,
    role: PropertyRole::Link {
        ty: TypeId::Device,
        strong: false,
    },
    access: Access::Both,
};

const CLK: Property = Property {
    name: PropertyName::Clk,
    role: PropertyRole::Child(TypeId::Clock),
    access: Access::Never,
};

const CLOCK_PERIOD: Property = Property {
    name: PropertyName::ClockPeriod,
    role: PropertyRole::Alias {
        child: PropertyName::Clk,
        of: PropertyName::Period,
    },
    access: Access::Set,
};

const CHARDEV: Property = Property {
    name: PropertyName::Chardev,
    role: PropertyRole::Plain(PropType::Text, First::NoText),
    access: Access::Add,
};

const BUS: Property = Property {
    name: PropertyName::Bus0,
    role: PropertyRole::Child(TypeId::SlotBus),
    access: Access::Never,
};

const MEMDEV: Property = Property {
    name: PropertyName::Memdev,
    role: PropertyRole::Link {
        ty: TypeId::MemoryBackend,
        strong: true,
    },
    access: Access::Add,
};

const ADDR: Property = Property {
    name: PropertyName::Addr,
    role: PropertyRole::Plain(
        PropType::Uint {
            lo: 0,
            hi: u64::MAX,
            step: DIMM_ALIGN,
        },
        First::Nothing,
    ),
    access: Access::Add,
};

const PERIOD: Property = Property {
    name: PropertyName::Period,
    role: PropertyRole::Plain(
        PropType::Uint {
            lo: 0,
            hi: u64::MAX,
            step: 1,
        },
        First::Uint(0),
    ),
    access: Access::Set,
};

const MUL: Property = Property {
    name: PropertyName::Mul,
    role: PropertyRole::Plain(
        PropType::Uint {
            lo: 0,
            hi: 4_294_967_295,
            step: 1,
        },
        First::Uint(1),
    ),
    access: Access::Set,
};

const DIV: Property = Property {
    name: PropertyName::Div,
    role: PropertyRole::Plain(
        PropType::Uint {
            lo: 0,
            hi: 4_294_967_295,
            step: 1,
        },
        First::Uint(1),
    ),
    access: Access::Set,
};

const SOURCE: Property = Property {
    name: PropertyName::Source,
    role: PropertyRole::Link {
        ty: TypeId::Clock,
        strong: false,
    },
    access: Access::Never,
};

const SIZE: Property = Property {
    name: PropertyName::Size,
    role: PropertyRole::Plain(
        PropType::Uint {
            lo: DIMM_ALIGN,
            hi: BACKEND_SIZE_MAX,
            step: DIMM_ALIGN,
        },
        First::Uint(BACKEND_SIZE_AT_FIRST),
    ),
    access: Access::Add,
};

const TEXT: Property = Property {
    name: PropertyName::Text,
    role: PropertyRole::Plain(PropType::Text, First::NoText),
    access: Access::Both,
};

const NUMBER: Property = Property {
    name: PropertyName::Number,
    role: PropertyRole::Plain(
        PropType::Int {
            lo: i64::MIN,
            hi: i64::MAX,
        },
        First::Uint(0),
    ),
    access: Access::Both,
};

const FLAG: Property = Property {
    name: PropertyName::Flag,
    role: PropertyRole::Plain(PropType::Bool, First::Bool(false)),
    access: Access::Both,
};

const NEXT: Property = Property {
    name: PropertyName::Next,
    role: PropertyRole::Link {
        ty: TypeId::Object,
        strong: true,
    },
    access: Access::Both,
};

const SEEN: Property = Property {
    name: PropertyName::Seen,
    role: PropertyRole::Link {
        ty: TypeId::Object,
        strong: false,
    },
    access: Access::Both,
};

pub(crate) static OBJECT: [Property; 1] = [TYPE];

pub(crate) static DEVICE: [Property; 6] = [TYPE, REALIZED, PARENT_BUS, SLOT, PEER, WATCH];

pub(crate) static SLOT_DEVICE: [Property; 8] = [
    TYPE,
    REALIZED,
    PARENT_BUS,
    SLOT,
    PEER,
    WATCH,
    CLK,
    CLOCK_PERIOD,
];

pub(crate) static SLOT_UART: [Property; 9] = [
    TYPE,
    REALIZED,
    PARENT_BUS,
    SLOT,
    PEER,
    WATCH,
    CLK,
    CLOCK_PERIOD,
    CHARDEV,
];

pub(crate) static SLOT_BRIDGE: [Property; 9] = [
    TYPE,
    REALIZED,
    PARENT_BUS,
    SLOT,
    PEER,
    WATCH,
    CLK,
    CLOCK_PERIOD,
    BUS,
];

pub(crate) static MEM_DIMM: [Property; 8] = [
    TYPE, REALIZED, PARENT_BUS, SLOT, PEER, WATCH, MEMDEV, ADDR,
];

pub(crate) static CLOCK: [Property; 5] = [TYPE, PERIOD, MUL, DIV, SOURCE];

pub(crate) static MEMORY_BACKEND: [Property; 2] = [TYPE, SIZE];

pub(crate) static TAG: [Property; 6] = [TYPE, TEXT, NUMBER, FLAG, NEXT, SEEN];

/// The first of some properties that has a name.
pub(crate) fn first_named(rows: &[Property], name: &str) -> Option<Property>
    ensures { result ≡ find (λ row. bytes_eq (property_name row.name) name.now) rows.now }
{
    rows.iter()
        .copied()
        .find(|row| is_same(row.name.as_str(), name))
}
