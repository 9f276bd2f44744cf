//! The rows of the arguments of commands, and whether a value is of the kind that a row asks for.

ghost use Rattle.std.specs.Prelude.{◌≡◌};
ghost use Rattle.qo_json.specs.View.{view, items_view};
ghost use Rattle.qo_requests.specs.declared.arguments.ArgumentType.TheVariants as kind;
ghost use Rattle.qo_requests.specs.Arguments.{field_of, type_of, all_texts, is_form, is_reset_type, fits, is_named};

use crate::fields::Field;
use qo_json::Json;
use qo_values::RING_SIZE_MAX;

/// What an argument is to be.
#[derive(Clone, Copy, Debug)]
pub enum ArgumentType {
    /// Anything.
    Any,
    /// An object.
    Object,
    /// A text.
    Text,
    /// A list of texts.
    Texts,
    /// A truth value.
    Truth,
    /// A number from 0 to 2^64 - 1.
    Number,
    /// How many bytes of a ring: a number from 0 to `RING_SIZE_MAX`.
    RingBytes,
    /// A form by its name.
    Form,
    /// A type of a reset by its name.
    ResetType,
    /// A truth value, a whole number of 64 bits or a text.
    Plain,
}

/// A row: an argument by its name and its kind, and whether it must stand there.
#[derive(Clone, Copy, Debug)]
pub enum Argument {
    /// It must stand there.
    Needed(Field, ArgumentType),
    /// It may stand there.
    Optional(Field, ArgumentType),
}

impl Argument {
    /// The argument's name.
    pub(crate) fn field(self) -> Field
        ensures { result ≡ field_of self }
    {
        match self {
            Argument::Needed(field, _) | Argument::Optional(field, _) => field,
        }
    }

    /// The argument's kind.
    pub(crate) fn kind(self) -> ArgumentType
        ensures { result ≡ type_of self }
    {
        match self {
            Argument::Needed(_, kind) | Argument::Optional(_, kind) => kind,
        }
    }
}

/// Whether all values of a list are texts.
fn all_texts(items: &[Json<'_>]) -> bool
    ensures { result ≡ all_texts (items_view items.now) }
{
    for item in items {
        if !item.is_string() {
            return false;
        }
    }
    true
}

/// Whether a text is the name of a form.
fn is_form(name: &str) -> bool
    ensures { result ≡ is_form name.now }
{
    name == "utf8" || name == "base64"
}

/// Whether a text is the name of a type of a reset.
fn is_reset_type(name: &str) -> bool
    ensures { result ≡ is_reset_type name.now }
{
    name == "cold" || name == "wakeup"
}

/// Whether a value is a truth value, a whole number of 64 bits or a text.
pub(crate) fn is_plain(value: &Json<'_>) -> bool
    ensures { result ≡ fits kind.Plain (view value.now) }
{
    match value {
        Json::Bool(_) | Json::String(_) => true,
        Json::Number(number) => !number.is_f64(),
        Json::Null | Json::Array(_) | Json::Object(_) => false,
    }
}

/// Whether a value is of a kind.
pub(crate) fn fits(kind: ArgumentType, value: &Json<'_>) -> bool
    ensures { result ≡ fits kind (view value.now) }
{
    match kind {
        ArgumentType::Any => true,
        ArgumentType::Object => value.is_object(),
        ArgumentType::Text => value.is_string(),
        ArgumentType::Texts => value.as_array().is_some_and(|items| all_texts(items)),
        ArgumentType::Truth => value.is_boolean(),
        ArgumentType::Number => value.as_u64().is_some(),
        ArgumentType::RingBytes => value.as_u64().is_some_and(|size| size <= RING_SIZE_MAX),
        ArgumentType::Form => value.as_str().is_some_and(is_form),
        ArgumentType::ResetType => value.as_str().is_some_and(is_reset_type),
        ArgumentType::Plain => is_plain(value),
    }
}

/// Whether a name is that of one of these.
pub(crate) fn is_named(rows: &[Argument], name: &str) -> bool
    ensures { result ≡ is_named rows.now name.now }
{
    rows.iter().any(|row| row.field().name() == name)
}
