//! Types and the properties that they declare: `qom-list-types`, `device-list-properties`.

ghost use Rattle.std.specs.Prelude.{◌≡◌, ◌++◌, [], ◌∷◌, codes, map, filter_map, Some, option_map, string_bytes, IfOk, OnOk};
ghost use Rattle.std.specs.Option.{option_map_or};
ghost use Rattle.serde_json.specs.Data.{array};
ghost use Rattle.serde_json.specs.View.{items_of, view};
ghost use Rattle.qo_values.specs.TypeTexts.{around};
ghost use Rattle.qo_model.specs.Board.{Board as Tree};
ghost use Rattle.qo_model.specs.Objects.{may_add};
ghost use Rattle.qo_model.specs.Types.{type_named, info_of};
ghost use Rattle.qo_commands.specs.Commands.{adding_properties, device_properties, role_word, property_data, type_data, types_of};
ghost use Rattle.qo_commands.specs.Views.{done_of, row_data, words_for_adding};

use crate::commands::{Done, refused, returned_value};
use qo_model::{Access, Property, PropertyRole};
use qo_types::TypeTable;
use qo_values::{Code, Text, TypeId};
use serde_json::{Value, json};
use std::alloc::{AllocError, Global};

/// A type by its name, whether it is abstract, and its parent.
fn row_value(
    alloc: Global,
    t: TypeId,
    is_abstract: bool,
    parent: Option<TypeId>,
) -> Result<Value, AllocError>
    ensures { IfOk result (λ v. view v ≡ row_data t is_abstract parent) }
{
    let name = t.name();
    match (is_abstract, parent) {
        (true, Some(parent)) => {
            json!(in alloc; {"abstract": true, "name": name, "parent": parent.name()})
        }
        (true, None) => json!(in alloc; {"abstract": true, "name": name}),
        (false, Some(parent)) => json!(in alloc; {"name": name, "parent": parent.name()}),
        (false, None) => json!(in alloc; {"name": name}),
    }
}

/// A type, as `qom-list-types` tells of it.
#[tactic(auto, using(crate::proofs::ListingLemmas::row_told))]
fn type_value(alloc: Global, t: TypeId) -> Result<Value, AllocError>
    ensures { IfOk result (λ v. Some (view v) ≡ option_map type_data (info_of t)) }
{
    let types = TypeTable::board();
    row_value(alloc, t, types.is_abstract(t), types.parent(t))
}

/// Adds a type to a list.
fn push_type(alloc: Global, values: &mut Vec<Value>, t: TypeId) -> Result<(), AllocError>
    ensures { OnOk result (map view values.new.items ≡ map view values.old.items ++ map type_data (filter_map info_of (t ∷ []))) }
{
    let value = type_value(alloc, t)?;
    values.push(value)?;
    Ok(())
}

/// Types as a list.
fn type_listing(alloc: Global, types: &[TypeId]) -> Result<Value, AllocError>
    ensures { IfOk result (λ v. view v ≡ array (items_of (map type_data (filter_map info_of types.now)))) }
{
    let mut values = Vec::new(alloc);
    for t in types {
        push_type(alloc, &mut values, *t)?;
    }
    Ok(Value::Array(values))
}

/// The name that types are to be of: `object` where none is given.
fn name_given(implements: Option<&Text>) -> &str
    ensures { result.now ≡ option_map_or (λ name. name.now) implements.entry (codes "object") }
{
    match implements {
        Some(name) => name.as_str(),
        None => "object",
    }
}

/// The types of a name, `object` where none is given.
pub(crate) fn list_types(
    alloc: Global,
    implements: Option<&Text>,
    with_abstract: bool,
) -> Result<Value, AllocError>
    ensures { IfOk result (λ v. view v ≡ array (items_of (map type_data (types_of (option_map_or (λ name. name.now) implements.entry (codes "object")) with_abstract)))) }
{
    let types = TypeTable::board().list(alloc, name_given(implements), with_abstract)?;
    type_listing(alloc, &types)
}

/// A property, by its name and type text.
fn property_value(alloc: Global, name: &str, text: &str) -> Result<Value, AllocError>
    ensures { IfOk result (λ v. view v ≡ property_data (name.now, text.now)) }
{
    json!(in alloc; {"name": name, "type": text})
}

/// A word around a type's name, as `child<clock>`.
fn around(alloc: Global, word: &str, kind: TypeId) -> Result<String, AllocError>
    ensures { IfOk result (λ text. string_bytes text ≡ around word.now kind) }
{
    let mut text = String::from_str(alloc, word)?;
    text.push_str("<")?;
    text.push_str(kind.name())?;
    text.push_str(">")?;
    Ok(text)
}

/// The type text of a property with a row; that of an alias is the text of what it passes on to,
/// and is empty here.
fn role_text(alloc: Global, role: &PropertyRole) -> Result<String, AllocError>
    ensures { IfOk result (λ text. string_bytes text ≡ role_word role.now) }
{
    match role {
        PropertyRole::Plain(ty, _) => String::from_str(alloc, ty.word()),
        PropertyRole::Child(ty) => around(alloc, "child", *ty),
        PropertyRole::Link { ty, .. } => around(alloc, "link", *ty),
        PropertyRole::Alias { .. } => Ok(String::new(alloc)),
    }
}

/// Whether the adding command writes a property with this access.
fn is_for_adding(access: Access) -> bool
    ensures { result ≡ may_add access }
{
    match access {
        Access::Add => true,
        Access::Both => true,
        Access::Never => false,
        Access::Set => false,
    }
}

/// Adds a property to a list, where the adding command writes it.
fn push_row(alloc: Global, values: &mut Vec<Value>, row: &Property) -> Result<(), AllocError>
    ensures { OnOk result (map view values.new.items ≡ map view values.old.items ++ map property_data (words_for_adding row.now)) }
{
    if !is_for_adding(row.access) {
        return Ok(());
    }
    let text = role_text(alloc, &row.role)?;
    let value = property_value(alloc, row.name.as_str(), &text)?;
    values.push(value)?;
    Ok(())
}

/// The properties of a type that the adding command writes, as a list.
fn row_listing(alloc: Global, t: TypeId) -> Result<Value, AllocError>
    ensures { IfOk result (λ v. view v ≡ array (items_of (map property_data (adding_properties t)))) }
{
    let rows = TypeTable::board().props(t);
    let mut values = Vec::new(alloc);
    for row in rows {
        push_row(alloc, &mut values, row)?;
    }
    Ok(Value::Array(values))
}

/// The properties of a named type of devices that the adding command writes.
pub(crate) fn list_properties(alloc: Global, typename: &str) -> Result<Done, AllocError>
    ensures { (b : Tree) → IfOk result (λ d. done_of b d ≡ device_properties b (type_named typename.now)) }
{
    let types = TypeTable::board();
    let Some(t) = types.find(typename) else {
        return Ok(refused(Code::E20));
    };
    if !types.derives_from(t, TypeId::Device) {
        return Ok(refused(Code::E22));
    }
    let listing = row_listing(alloc, t)?;
    Ok(returned_value(listing))
}
