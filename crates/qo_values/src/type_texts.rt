//! What is told of the type of a property (QEMU's QAPI, `ObjectPropertyInfo`; the texts are the
//! profile's).

ghost use Rattle.std.specs.Prelude.{◌≡◌};
ghost use Rattle.qo_values.specs.TypeTexts.{value_word};

use crate::kinds::TypeId;
use crate::properties::PropType;

/// What is told of the type of a property.
#[derive(Clone, Copy, Debug)]
pub enum TypeText {
    /// Of a value: `bool`, `int64`, `uint64` or `string`.
    Value(PropType),
    /// Of a child, around its type: `child<clock>`.
    Child(TypeId),
    /// Of a link, around the type that it declares: `link<device>`.
    Link(TypeId),
    /// Of an alias that passes on to no property: nothing.
    Nothing,
}

impl PropType {
    /// The word for the values of a type.
    pub fn word(self) -> &'static str
        ensures { result.now ≡ value_word self }
    {
        match self {
            PropType::Bool => "bool",
            PropType::Int { .. } => "int64",
            PropType::Uint { .. } => "uint64",
            PropType::Text => "string",
        }
    }
}
