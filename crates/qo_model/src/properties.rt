//! What a row of the type table says of a property, and the names that rows have.

ghost use Rattle.std.specs.Prelude.{◌≡◌};
ghost use Rattle.qo_model.specs.RowNames.{interface_name, property_name};

use qo_values::{PropType, TypeId};

/// What a plain property holds at first.
#[derive(Clone, Copy, Debug, PartialEq, Eq)]
pub enum First {
    /// The name of the object's type.
    TypeName,
    /// No value yet.
    Nothing,
    /// A truth value.
    Bool(bool),
    /// A number from 0 up, also where the property takes signed numbers.
    Uint(u64),
    /// The text without characters.
    NoText,
}

/// Who may write a property.
#[derive(Clone, Copy, Debug, PartialEq, Eq)]
pub enum Access {
    /// Nobody.
    Never,
    /// The command that adds the object.
    Add,
    /// That command and `qom-set`.
    Both,
    /// `qom-set`.
    Set,
}

/// What a property is.
#[derive(Clone, Copy, Debug)]
pub enum PropertyRole {
    /// A value of a type, and what it is at first.
    Plain(PropType, First),
    /// A child of a type, which is made with the object.
    Child(TypeId),
    /// A link, empty at first.
    Link {
        /// What its target must be.
        ty: TypeId,
        /// Whether it keeps its target alive.
        strong: bool,
    },
    /// Another name for a property of a child.
    Alias {
        /// The child's name.
        child: PropertyName,
        /// The property's name there.
        of: PropertyName,
    },
}

/// A row of properties: a slot that each object of a type has.
#[derive(Clone, Copy, Debug)]
pub struct Property {
    /// The property's name.
    pub name: PropertyName,
    /// What the property is.
    pub role: PropertyRole,
    /// Who may write it.
    pub access: Access,
}

/// The name of a property in a row, in the order of the rows.
#[derive(Clone, Copy, Debug, PartialEq, Eq)]
pub enum PropertyName {
    /// `type`.
    Type,
    /// `realized`.
    Realized,
    /// `parent_bus`.
    ParentBus,
    /// `slot`.
    Slot,
    /// `peer`.
    Peer,
    /// `watch`.
    Watch,
    /// `clk`.
    Clk,
    /// `clock-period`.
    ClockPeriod,
    /// `chardev`.
    Chardev,
    /// `bus.0`.
    Bus0,
    /// `memdev`.
    Memdev,
    /// `addr`.
    Addr,
    /// `period`.
    Period,
    /// `mul`.
    Mul,
    /// `div`.
    Div,
    /// `source`.
    Source,
    /// `size`.
    Size,
    /// `text`.
    Text,
    /// `number`.
    Number,
    /// `flag`.
    Flag,
    /// `next`.
    Next,
    /// `seen`.
    Seen,
}

/// An interface that a row of types names (docs/devel/qom.rst, "Interfaces").
#[derive(Clone, Copy, Debug, PartialEq, Eq)]
pub enum Interface {
    /// `hotplug-handler`.
    HotplugHandler,
    /// `resettable`.
    Resettable,
    /// `user-creatable`.
    UserCreatable,
}

impl PropertyName {
    /// The name's text, as commands and replies spell it.
    pub fn as_str(self) -> &'static str
        ensures { result.now ≡ property_name self }
    {
        match self {
            PropertyName::Type => "type",
            PropertyName::Realized => "realized",
            PropertyName::ParentBus => "parent_bus",
            PropertyName::Slot => "slot",
            PropertyName::Peer => "peer",
            PropertyName::Watch => "watch",
            PropertyName::Clk => "clk",
            PropertyName::ClockPeriod => "clock-period",
            PropertyName::Chardev => "chardev",
            PropertyName::Bus0 => "bus.0",
            PropertyName::Memdev => "memdev",
            PropertyName::Addr => "addr",
            PropertyName::Period => "period",
            PropertyName::Mul => "mul",
            PropertyName::Div => "div",
            PropertyName::Source => "source",
            PropertyName::Size => "size",
            PropertyName::Text => "text",
            PropertyName::Number => "number",
            PropertyName::Flag => "flag",
            PropertyName::Next => "next",
            PropertyName::Seen => "seen",
        }
    }
}

impl Interface {
    /// The interface's name, as commands spell it.
    pub fn name(self) -> &'static str
        ensures { result.now ≡ interface_name self }
    {
        match self {
            Interface::HotplugHandler => "hotplug-handler",
            Interface::Resettable => "resettable",
            Interface::UserCreatable => "user-creatable",
        }
    }
}
