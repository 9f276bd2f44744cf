//! Commands whose arguments stand there and are of their kinds, built into requests.

ghost use Rattle.std.specs.Prelude.{◌≡◌, IfOk};
ghost use Rattle.qo_json.specs.Order.{IsOrdered};
ghost use Rattle.qo_json.specs.View.{view};
ghost use Rattle.qo_requests.specs.declared.commands.Command.TheVariants as command;
ghost use Rattle.qo_requests.specs.Commands.{arguments, request_of, ring_on};
ghost use Rattle.qo_requests.specs.ArgumentMembers.{AreGiven};

use crate::argument_values::ArgumentValues;
use crate::calls::{Addition, Alteration, Call, Query};
use crate::commands::{Command, backend_members, payload_members};
use crate::fields::Field;
use crate::requests::Request;
use crate::values::{
    form_at, number_at, number_in, properties_beside, reset_type_at, text_at, text_in, texts_at,
    truth_at, value_in,
};
use qo_json::Json;
use std::alloc::{AllocError, Global};

/// `chardev-add` with this `backend`.
fn ring_on(
    alloc: Global,
    args: &ArgumentValues<'_, '_>,
    backend: &Json<'_>,
) -> Result<Request, AllocError>
    requires { AreGiven args.now }
    ensures { IfOk result (λ request. request ≡ ring_on (view args.now.place.now) (view backend.now)) }
{
    let backend = ArgumentValues::of(backend_members(), backend);
    let size = match backend.at(Field::Payload) {
        Some(payload) => number_at(&ArgumentValues::of(payload_members(), payload), Field::Size),
        None => None,
    };
    Ok(Request::alters(Alteration::ChardevAdd {
        id: text_in(alloc, args, Field::Id)?,
        kind: text_in(alloc, &backend, Field::Kind)?,
        size,
    }))
}

/// `chardev-add`.
fn ring_adding(alloc: Global, args: &ArgumentValues<'_, '_>) -> Result<Request, AllocError>
    requires { AreGiven args.now }
    ensures { IfOk result (λ request. request ≡ request_of command.ChardevAdd (view args.now.place.now)) }
{
    match args.at(Field::Backend) {
        Some(backend) => ring_on(alloc, args, backend),
        None => ring_on(alloc, args, &Json::Null),
    }
}

/// `object-add`.
fn object_adding(alloc: Global, args: &ArgumentValues<'_, '_>) -> Result<Request, AllocError>
    requires given { AreGiven args.now }
    requires rows { args.now.rows.now ≡ arguments command.ObjectAdd }
    requires ordered { IsOrdered (view args.now.place.now) }
    ensures { IfOk result (λ request. request ≡ request_of command.ObjectAdd (view args.now.place.now)) }
{
    Ok(Request::adds(Addition::ObjectAdd {
        driver: text_in(alloc, args, Field::QomType)?,
        id: text_in(alloc, args, Field::Id)?,
        props: properties_beside(alloc, args)?,
    }))
}

/// `device_add`.
fn device_adding(alloc: Global, args: &ArgumentValues<'_, '_>) -> Result<Request, AllocError>
    requires given { AreGiven args.now }
    requires rows { args.now.rows.now ≡ arguments command.DeviceAdd }
    requires ordered { IsOrdered (view args.now.place.now) }
    ensures { IfOk result (λ request. request ≡ request_of command.DeviceAdd (view args.now.place.now)) }
{
    Ok(Request::adds(Addition::DeviceAdd {
        driver: text_in(alloc, args, Field::Driver)?,
        id: text_at(alloc, args, Field::Id)?,
        bus: text_at(alloc, args, Field::Bus)?,
        props: properties_beside(alloc, args)?,
    }))
}

/// The request of a command with these arguments.
pub(crate) fn request_of(
    alloc: Global,
    command: Command,
    args: &ArgumentValues<'_, '_>,
) -> Result<Request, AllocError>
    requires given { AreGiven args.now }
    requires rows { args.now.rows.now ≡ arguments command }
    requires ordered { IsOrdered (view args.now.place.now) }
    ensures { IfOk result (λ request. request ≡ request_of command (view args.now.place.now)) }
{
    Ok(match command {
        Command::ChardevAdd => ring_adding(alloc, args)?,
        Command::ChardevRemove => Request::alters(Alteration::ChardevRemove {
            id: text_in(alloc, args, Field::Id)?,
        }),
        Command::Cont => Request::alters(Alteration::Cont),
        Command::DeviceListProperties => Request::queries(Query::DeviceListProperties {
            typename: text_in(alloc, args, Field::Typename)?,
        }),
        Command::DeviceAdd => device_adding(alloc, args)?,
        Command::DeviceDel => Request::alters(Alteration::DeviceDel {
            id: text_in(alloc, args, Field::Id)?,
        }),
        Command::HumanMonitorCommand => Request::Call(Call::Monitor {
            command_line: text_in(alloc, args, Field::CommandLine)?,
        }),
        Command::ObjectAdd => object_adding(alloc, args)?,
        Command::ObjectDel => Request::alters(Alteration::ObjectDel {
            id: text_in(alloc, args, Field::Id)?,
        }),
        Command::QmpCapabilities => Request::QmpCapabilities {
            enable: texts_at(alloc, args, Field::Enable)?,
        },
        Command::QomGet => Request::queries(Query::QomGet {
            path: text_in(alloc, args, Field::Path)?,
            property: text_in(alloc, args, Field::Property)?,
        }),
        Command::QomList => Request::queries(Query::QomList {
            path: text_in(alloc, args, Field::Path)?,
        }),
        Command::QomListTypes => Request::queries(Query::QomListTypes {
            implements: text_at(alloc, args, Field::Implements)?,
            with_abstract: truth_at(args, Field::Abstract),
        }),
        Command::QomSet => Request::alters(Alteration::QomSet {
            path: text_in(alloc, args, Field::Path)?,
            property: text_in(alloc, args, Field::Property)?,
            value: value_in(alloc, args, Field::Value)?,
        }),
        Command::QueryCommands => Request::queries(Query::QueryCommands),
        Command::QueryStatus => Request::queries(Query::QueryStatus),
        Command::QueryVersion => Request::queries(Query::QueryVersion),
        Command::Quit => Request::queries(Query::Quit),
        Command::RingbufRead => Request::alters(Alteration::RingbufRead {
            device: text_in(alloc, args, Field::Device)?,
            size: number_in(args, Field::Size),
            format: form_at(args, Field::Format),
        }),
        Command::RingbufWrite => Request::alters(Alteration::RingbufWrite {
            device: text_in(alloc, args, Field::Device)?,
            payload: text_in(alloc, args, Field::Payload)?,
            format: form_at(args, Field::Format),
        }),
        Command::Stop => Request::alters(Alteration::Stop),
        Command::SystemReset => Request::alters(Alteration::SystemReset),
        Command::XDescribe => Request::queries(Query::XDescribe),
        Command::XGuest => Request::alters(Alteration::XGuest {
            line: text_in(alloc, args, Field::Line)?,
        }),
        Command::XMemmap => Request::queries(Query::XMemmap),
        Command::XQueryDetached => Request::queries(Query::XQueryDetached),
        Command::XQueryNotes => Request::queries(Query::XQueryNotes {
            from: number_in(args, Field::From),
        }),
        Command::XResetHold => Request::alters(Alteration::XResetHold {
            path: text_in(alloc, args, Field::Path)?,
            kind: reset_type_at(args, Field::Kind),
        }),
        Command::XResetRelease => Request::alters(Alteration::XResetRelease {
            path: text_in(alloc, args, Field::Path)?,
        }),
        Command::XSever => Request::alters(Alteration::XSever {
            birth: number_in(args, Field::Birth),
        }),
        Command::XStep => Request::alters(Alteration::XStep {
            ns: number_in(args, Field::Ns),
        }),
        Command::XWakeup => Request::alters(Alteration::XWakeup),
    })
}
