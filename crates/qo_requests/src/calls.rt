//! The commands of a session that has negotiated, told apart by what they do to the board.

use qo_values::{Form, PropList, ResetKind, Text, Val};

/// A command with its arguments. An optional argument is `None` where it is absent.
#[derive(Debug, Drop)]
pub enum Call {
    /// It leaves the board.
    Query(Query),
    /// It changes the board, or is refused.
    Change(Change),
    /// `human-monitor-command`: what it does is said by its line.
    Monitor {
        /// The line, the argument `command-line`.
        command_line: Text,
    },
}

/// A command that leaves the board.
#[derive(Debug, Drop)]
pub enum Query {
    /// `query-version`.
    QueryVersion,
    /// `query-commands`.
    QueryCommands,
    /// `query-status`.
    QueryStatus,
    /// `quit`.
    Quit,
    /// `qom-list`.
    QomList {
        /// The object's path.
        path: Text,
    },
    /// `qom-get`.
    QomGet {
        /// The object's path.
        path: Text,
        /// The property's name.
        property: Text,
    },
    /// `qom-list-types`.
    QomListTypes {
        /// The name that the types are to be of.
        implements: Option<Text>,
        /// Whether abstract types are listed, the argument `abstract`.
        with_abstract: Option<bool>,
    },
    /// `device-list-properties`.
    DeviceListProperties {
        /// The type's name.
        typename: Text,
    },
    /// `x-query-notes`.
    XQueryNotes {
        /// The number of the first note, counted from 0.
        from: u64,
    },
    /// `x-query-detached`.
    XQueryDetached,
    /// `x-describe`.
    XDescribe,
    /// `x-memmap`.
    XMemmap,
}

/// A command that changes the board, or is refused.
#[derive(Debug, Drop)]
pub enum Change {
    /// It makes objects; where it is refused these may have been made and ended.
    Add(Addition),
    /// It makes none; where it is refused the board is as it was.
    Alter(Alteration),
}

/// A command that makes objects.
#[derive(Debug, Drop)]
pub enum Addition {
    /// `object-add`.
    ObjectAdd {
        /// The type's name, the argument `qom-type`.
        driver: Text,
        /// The object's id.
        id: Text,
        /// Its properties, in byte order of their names.
        props: PropList,
    },
    /// `device_add`.
    DeviceAdd {
        /// The type's name.
        driver: Text,
        /// The device's id.
        id: Option<Text>,
        /// The bus to put it on.
        bus: Option<Text>,
        /// Its properties, in byte order of their names.
        props: PropList,
    },
}

/// A command that changes the board and makes no object.
#[derive(Debug, Drop)]
pub enum Alteration {
    /// `stop`.
    Stop,
    /// `cont`.
    Cont,
    /// `system_reset`.
    SystemReset,
    /// `qom-set`.
    QomSet {
        /// The object's path.
        path: Text,
        /// The property's name.
        property: Text,
        /// What it is set to.
        value: Val,
    },
    /// `object-del`.
    ObjectDel {
        /// The object's id.
        id: Text,
    },
    /// `device_del`.
    DeviceDel {
        /// The device's id or path.
        id: Text,
    },
    /// `chardev-add`.
    ChardevAdd {
        /// The ring's id.
        id: Text,
        /// The backend's type, `type` of `backend`.
        kind: Text,
        /// The ring's size in bytes, `size` of `data` of `backend`.
        size: Option<u64>,
    },
    /// `chardev-remove`.
    ChardevRemove {
        /// The ring's id.
        id: Text,
    },
    /// `ringbuf-read`.
    RingbufRead {
        /// The ring's id.
        device: Text,
        /// The most bytes to take, at most 1,048,576.
        size: u64,
        /// How they are told.
        format: Option<Form>,
    },
    /// `ringbuf-write`.
    RingbufWrite {
        /// The ring's id.
        device: Text,
        /// What is written, the argument `data`.
        payload: Text,
        /// How the bytes stand in it.
        format: Option<Form>,
    },
    /// `x-reset-hold`.
    XResetHold {
        /// The object's path.
        path: Text,
        /// The type of the reset, the argument `type`.
        kind: Option<ResetKind>,
    },
    /// `x-reset-release`.
    XResetRelease {
        /// The object's path.
        path: Text,
    },
    /// `x-sever`.
    XSever {
        /// The object's birth number.
        birth: u64,
    },
    /// `x-guest`.
    XGuest {
        /// The guest line, without its line end.
        line: Text,
    },
    /// `x-step`.
    XStep {
        /// How far the virtual time goes on, in nanoseconds.
        ns: u64,
    },
    /// `x-wakeup`.
    XWakeup,
}
