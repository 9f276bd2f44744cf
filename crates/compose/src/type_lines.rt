//! The lines that tell the types.

ghost use Rattle.std.specs.Prelude.{◌≡◌, ◌≢◌, ◌≤◌, ◌++◌, [], ◌∷◌, IfOk, OnOk, flat_map, filter_map, map, string_bytes};
ghost use Rattle.qo_causes.specs.Cause.{Rose};
ghost use Rattle.qo_model.specs.RowNames.{interface_name};
ghost use Rattle.qo_model.specs.Types.{names_text, info_of, type_line};
ghost use Rattle.compose.specs.Types.{ToldTypes, line_told, type_lines};

use crate::statuses::Status;
use qo_causes::{Failed, Sink, put_all};
use qo_model::Interface;
use qo_types::TypeTable;
use qo_values::TypeId;
use std::alloc::{AllocError, Global};

/// The names with commas between them, or `-` where there are none.
fn names_of(alloc: Global, names: &[&str]) -> Result<String, AllocError>
    ensures { IfOk result (λ text. string_bytes text ≡ names_text (map (λ name. name.now) names.now)) }
{
    if names.is_empty() {
        return String::from_str(alloc, "-");
    }
    names.join(alloc, ",")
}

/// The names of interfaces.
fn interface_names(alloc: Global, interfaces: &[Interface]) -> Result<Vec<&'static str>, AllocError>
    ensures { IfOk result (λ names. map (λ name. name.now) names.items ≡ map interface_name interfaces.now) }
{
    let mut names = Vec::new(alloc);
    for interface in interfaces {
        names.push(interface.name())?;
    }
    Ok(names)
}

/// The line of a type, without its end.
fn line_of(alloc: Global, t: TypeId) -> Result<String, AllocError>
    ensures { IfOk result (λ text. string_bytes text ≡ line_told t) }
{
    let table = TypeTable::board();
    let parent = match table.parent(t) {
        Some(parent) => parent.name(),
        None => "-",
    };
    let kind = if table.is_abstract(t) {
        "abstract"
    } else {
        "plain"
    };
    let names = interface_names(alloc, table.interfaces(t))?;
    let interfaces = names_of(alloc, &names)?;
    [t.name(), parent, kind, interfaces.as_str()].join(alloc, " ")
}

/// Adds the line of a type.
fn add_line(alloc: Global, lines: &mut String, t: TypeId) -> Result<(), AllocError>
    ensures { OnOk result (string_bytes lines.new ≡ string_bytes lines.old ++ flat_map type_line (filter_map info_of (t ∷ []))) }
{
    let line = line_of(alloc, t)?;
    lines.push_str(line.as_str())?;
    lines.push('\n')
}

/// The lines of some types.
fn lines_of(alloc: Global, types: &[TypeId]) -> Result<String, AllocError>
    ensures { IfOk result (λ text. string_bytes text ≡ flat_map type_line (filter_map info_of types.now)) }
{
    let mut lines = String::new(alloc);
    for t in types {
        add_line(alloc, &mut lines, *t)?;
    }
    Ok(lines)
}

/// The lines of all types.
fn all_lines(alloc: Global) -> Result<String, AllocError>
    ensures { IfOk result (λ text. string_bytes text ≡ type_lines) }
{
    match TypeTable::board().list(alloc, "object", true) {
        Ok(types) => lines_of(alloc, types.as_slice()),
        Err(_) => Err(AllocError),
    }
}

/// Puts the lines of all types into a sink. For want of memory nothing is put.
pub(crate) fn tell_types<K: Sink>(alloc: Global, sink: &mut K) -> Status
    ensures told { ToldTypes result (K.held sink.old) (K.held sink.new) }
    ensures count { K.faults sink.old ≤ K.faults sink.new }
    ensures cause { result ≡ Status.WriteFault → Rose (K.faults sink.old) (K.faults sink.new) }
    ensures quiet { result ≢ Status.WriteFault → K.faults sink.new ≡ K.faults sink.old }
{
    let Ok(lines) = all_lines(alloc) else {
        return Status::Memory;
    };
    match put_all(sink, lines.as_bytes()) {
        Ok(()) => Status::Done,
        Err(Failed) => Status::WriteFault,
    }
}
