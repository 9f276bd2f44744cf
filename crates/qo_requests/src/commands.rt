//! The commands by name, and what they take.

ghost use Rattle.std.specs.Prelude.{◌≡◌, ◌≤◌, find, length};
ghost use Rattle.std.specs.Str.{bytes_eq};
ghost use Rattle.qo_requests.specs.Commands.{command_name, commands, command_of, arguments, is_open};
ghost use Rattle.qo_requests.specs.Messages.{backend_members, payload_members};

use crate::arguments::Argument::{self, Needed, Optional};
use crate::arguments::ArgumentType::{
    Form, Number, Object, Plain, ResetType, RingBytes, Text, Texts, Truth,
};
use crate::fields::{Field, is_same};

/// A command, in byte order of the names.
#[derive(Clone, Copy, Debug, PartialEq, Eq)]
pub enum Command {
    /// `chardev-add`.
    ChardevAdd,
    /// `chardev-remove`.
    ChardevRemove,
    /// `cont`.
    Cont,
    /// `device-list-properties`.
    DeviceListProperties,
    /// `device_add`.
    DeviceAdd,
    /// `device_del`.
    DeviceDel,
    /// `human-monitor-command`.
    HumanMonitorCommand,
    /// `object-add`.
    ObjectAdd,
    /// `object-del`.
    ObjectDel,
    /// `qmp_capabilities`.
    QmpCapabilities,
    /// `qom-get`.
    QomGet,
    /// `qom-list`.
    QomList,
    /// `qom-list-types`.
    QomListTypes,
    /// `qom-set`.
    QomSet,
    /// `query-commands`.
    QueryCommands,
    /// `query-status`.
    QueryStatus,
    /// `query-version`.
    QueryVersion,
    /// `quit`.
    Quit,
    /// `ringbuf-read`.
    RingbufRead,
    /// `ringbuf-write`.
    RingbufWrite,
    /// `stop`.
    Stop,
    /// `system_reset`.
    SystemReset,
    /// `x-describe`.
    XDescribe,
    /// `x-guest`.
    XGuest,
    /// `x-memmap`.
    XMemmap,
    /// `x-query-detached`.
    XQueryDetached,
    /// `x-query-notes`.
    XQueryNotes,
    /// `x-reset-hold`.
    XResetHold,
    /// `x-reset-release`.
    XResetRelease,
    /// `x-sever`.
    XSever,
    /// `x-step`.
    XStep,
    /// `x-wakeup`.
    XWakeup,
}

impl Command {
    /// The command's name, as messages spell it.
    pub fn name(self) -> &'static str
        ensures { result.now ≡ command_name self }
    {
        match self {
            Command::ChardevAdd => "chardev-add",
            Command::ChardevRemove => "chardev-remove",
            Command::Cont => "cont",
            Command::DeviceListProperties => "device-list-properties",
            Command::DeviceAdd => "device_add",
            Command::DeviceDel => "device_del",
            Command::HumanMonitorCommand => "human-monitor-command",
            Command::ObjectAdd => "object-add",
            Command::ObjectDel => "object-del",
            Command::QmpCapabilities => "qmp_capabilities",
            Command::QomGet => "qom-get",
            Command::QomList => "qom-list",
            Command::QomListTypes => "qom-list-types",
            Command::QomSet => "qom-set",
            Command::QueryCommands => "query-commands",
            Command::QueryStatus => "query-status",
            Command::QueryVersion => "query-version",
            Command::Quit => "quit",
            Command::RingbufRead => "ringbuf-read",
            Command::RingbufWrite => "ringbuf-write",
            Command::Stop => "stop",
            Command::SystemReset => "system_reset",
            Command::XDescribe => "x-describe",
            Command::XGuest => "x-guest",
            Command::XMemmap => "x-memmap",
            Command::XQueryDetached => "x-query-detached",
            Command::XQueryNotes => "x-query-notes",
            Command::XResetHold => "x-reset-hold",
            Command::XResetRelease => "x-reset-release",
            Command::XSever => "x-sever",
            Command::XStep => "x-step",
            Command::XWakeup => "x-wakeup",
        }
    }

    /// All commands.
    pub fn all() -> &'static [Command]
        ensures { result.now ≡ commands }
    {
        &[
            Command::ChardevAdd,
            Command::ChardevRemove,
            Command::Cont,
            Command::DeviceListProperties,
            Command::DeviceAdd,
            Command::DeviceDel,
            Command::HumanMonitorCommand,
            Command::ObjectAdd,
            Command::ObjectDel,
            Command::QmpCapabilities,
            Command::QomGet,
            Command::QomList,
            Command::QomListTypes,
            Command::QomSet,
            Command::QueryCommands,
            Command::QueryStatus,
            Command::QueryVersion,
            Command::Quit,
            Command::RingbufRead,
            Command::RingbufWrite,
            Command::Stop,
            Command::SystemReset,
            Command::XDescribe,
            Command::XGuest,
            Command::XMemmap,
            Command::XQueryDetached,
            Command::XQueryNotes,
            Command::XResetHold,
            Command::XResetRelease,
            Command::XSever,
            Command::XStep,
            Command::XWakeup,
        ]
    }

    /// The first of some commands that has a name.
    fn first_named(commands: &[Command], name: &str) -> Option<Command>
        ensures { result ≡ find (λ command. bytes_eq (command_name command) name.now) commands.now }
    {
        commands
            .iter()
            .copied()
            .find(|command| is_same(command.name(), name))
    }

    /// The command of a name. The commands stand in byte order, so those before the first letters of a name
    /// are passed over.
    pub fn named(name: &str) -> Option<Command>
        ensures { result ≡ command_of name.now }
    {
        match name.as_bytes() {
            [b'o', ..] => Command::first_named(&Command::all()[7..], name),
            [b'q', b'u', ..] => Command::first_named(&Command::all()[14..], name),
            [b'q', ..] => Command::first_named(&Command::all()[9..], name),
            [b'x', ..] => Command::first_named(&Command::all()[22..], name),
            _ => Command::first_named(Command::all(), name),
        }
    }

    /// The arguments that the command takes.
    pub(crate) fn arguments(self) -> &'static [Argument]
        ensures arguments { result.now ≡ arguments self }
        ensures few { length result.now ≤ 3 }
    {
        match self {
            Command::ChardevAdd => &[Needed(Field::Id, Text), Needed(Field::Backend, Object)],
            Command::ChardevRemove | Command::DeviceDel | Command::ObjectDel => &[Needed(
                Field::Id,
                Text,
            )],
            Command::DeviceListProperties => &[Needed(Field::Typename, Text)],
            Command::DeviceAdd => &[
                Needed(Field::Driver, Text),
                Optional(Field::Id, Text),
                Optional(Field::Bus, Text),
            ],
            Command::HumanMonitorCommand => &[Needed(Field::CommandLine, Text)],
            Command::ObjectAdd => &[Needed(Field::QomType, Text), Needed(Field::Id, Text)],
            Command::QmpCapabilities => &[Optional(Field::Enable, Texts)],
            Command::QomGet => &[Needed(Field::Path, Text), Needed(Field::Property, Text)],
            Command::QomList | Command::XResetRelease => &[Needed(Field::Path, Text)],
            Command::QomListTypes => &[
                Optional(Field::Implements, Text),
                Optional(Field::Abstract, Truth),
            ],
            Command::QomSet => &[
                Needed(Field::Path, Text),
                Needed(Field::Property, Text),
                Needed(Field::Value, Plain),
            ],
            Command::RingbufRead => &[
                Needed(Field::Device, Text),
                Needed(Field::Size, RingBytes),
                Optional(Field::Format, Form),
            ],
            Command::RingbufWrite => &[
                Needed(Field::Device, Text),
                Needed(Field::Payload, Text),
                Optional(Field::Format, Form),
            ],
            Command::XGuest => &[Needed(Field::Line, Text)],
            Command::XQueryNotes => &[Needed(Field::From, Number)],
            Command::XResetHold => &[Needed(Field::Path, Text), Optional(Field::Kind, ResetType)],
            Command::XSever => &[Needed(Field::Birth, Number)],
            Command::XStep => &[Needed(Field::Ns, Number)],
            _ => &[],
        }
    }

    /// Whether each further argument is a property.
    pub(crate) fn is_open(self) -> bool
        ensures { result ≡ is_open self }
    {
        matches!(self, Command::DeviceAdd | Command::ObjectAdd)
    }
}

/// The members of `backend` of `chardev-add`.
pub(crate) fn backend_members() -> &'static [Argument]
    ensures members { result.now ≡ backend_members }
    ensures few { length result.now ≤ 3 }
{
    &[Needed(Field::Kind, Text), Needed(Field::Payload, Object)]
}

/// The members of the `data` of `backend`.
pub(crate) fn payload_members() -> &'static [Argument]
    ensures members { result.now ≡ payload_members }
    ensures few { length result.now ≤ 3 }
{
    &[Optional(Field::Size, Number)]
}
