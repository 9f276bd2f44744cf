//! JSON values in which no number has a fraction.

ghost use Rattle.std.specs.Prelude.{◌≡◌, false};
ghost use Rattle.serde_json.specs.View.{view};
ghost use Rattle.serde_json.specs.Written.{has_float};

use serde_json::Value;

/// A JSON value in which no number has a fraction, as in every reply: so what its text is, is known.
#[derive(Drop)]
pub struct IntegerJson {
    value: Value,
    ghost whole: { has_float (view value) ≡ false },
}

impl IntegerJson {
    /// A value in which no number has a fraction.
    pub(crate) fn new(value: Value) -> IntegerJson
        requires { has_float (view value) ≡ false }
        ensures { result.value ≡ value }
    {
        IntegerJson { value }
    }

    /// The value. It takes no memory.
    pub fn value(&self) -> &Value
        ensures { result.now ≡ self.now.value }
    {
        &self.value
    }
}
