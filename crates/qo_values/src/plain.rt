//! The values of properties as they stand in JSON.

ghost use Rattle.std.specs.Prelude.{◌≡◌, IfOk};
ghost use Rattle.serde_json.specs.View.{view, number_view};
ghost use Rattle.qo_values.specs.PlainValues.{ReadsPlain, whole_of, plain_of, data_of};

use crate::names::Text;
use crate::properties::Val;
use serde_json::{Number, Value};
use std::alloc::{AllocError, Global};
use thiserror::Error;

/// Why a JSON value was not read as the value of a property.
#[derive(Clone, Copy, Debug, PartialEq, Eq, Error)]
pub enum FromJson {
    /// It is null, a list, an object, or a number that is not whole in 64 bits.
    #[error("no truth value, whole number or text")]
    NotPlain,
    /// Want of memory.
    #[error("out of memory")]
    Memory,
}

impl From<AllocError> for FromJson {
    ghost use Rattle.std.specs.Prelude.{◌≡◌};
    ghost use Rattle.qo_values.specs.declared.plain.FromJson.TheVariants.{Memory};

    ghost from_gives = { λ _ e. e ≡ Memory };

    fn from(_refused: AllocError) -> FromJson {
        FromJson::Memory
    }
}

/// The value that a number is.
fn from_number(number: &Number) -> Result<Val, FromJson>
    ensures { ReadsPlain result (whole_of (number_view number.now)) }
{
    if let Some(whole) = number.as_u64() {
        return Ok(Val::Uint(whole));
    }
    match number.as_i64() {
        Some(whole) => Ok(Val::Int(whole)),
        None => Err(FromJson::NotPlain),
    }
}

/// The value of a property that a JSON value is: `NotPlain` exactly where it is null, a list, an
/// object, or a number that is not whole in 64 bits. What was read is told by `to_json` as it stood.
pub fn from_json(alloc: Global, value: &Value) -> Result<Val, FromJson>
    ensures read { ReadsPlain result (plain_of (view value.now)) }
    ensures told { IfOk result (λ val. data_of val ≡ view value.now) }
{
    match value {
        Value::Bool(truth) => Ok(Val::Bool(*truth)),
        Value::Number(number) => from_number(number),
        Value::String(text) => Ok(Val::Text(Text::from_string(String::from_str(
            alloc,
            text.as_str(),
        )?))),
        Value::Null | Value::Array(_) | Value::Object(_) => Err(FromJson::NotPlain),
    }
}

/// The value of a property as JSON; `Nothing` is null. The error is want of memory.
pub fn to_json(alloc: Global, val: &Val) -> Result<Value, AllocError>
    ensures { IfOk result (λ value. view value ≡ data_of val.now) }
{
    match val {
        Val::Bool(truth) => Ok(Value::from(*truth)),
        Val::Int(number) => Ok(Value::from(*number)),
        Val::Uint(number) => Ok(Value::from(*number)),
        Val::Text(text) => Value::try_from_str(alloc, text.as_str()),
        Val::Nothing => Ok(Value::Null),
    }
}
