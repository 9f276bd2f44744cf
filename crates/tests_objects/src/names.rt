//! Names for the objects of the tests.
ghost use Rattle.std.specs.Prelude.{◌≡◌};
ghost use Rattle.std.specs.List.{list_all};
ghost use Rattle.qo_values.specs.Names.{is_name_byte};

use qo_object::SlotName;
use qo_values::Name;
use std::alloc::Global;

/// Whether a byte may stand in a name.
fn is_name_byte(byte: u8) -> bool
    ensures { result ≡ is_name_byte byte }
{
    32 <= byte && byte <= 126 && byte != b'/'
}

/// Whether all bytes may.
fn are_name_bytes(bytes: &[u8]) -> bool
    ensures { result ≡ list_all is_name_byte bytes.now }
{
    bytes.iter().all(|byte| is_name_byte(*byte))
}

/// The name that a text is, if it is one.
pub(crate) fn name_of(alloc: Global, text: &str) -> Option<SlotName> {
    let text = String::from_str(alloc, text).ok()?;
    let bytes = text.as_bytes();
    let (few, fine) = (bytes.len() <= 140, are_name_bytes(bytes));
    if bytes.is_empty() || !few || !fine {
        return None;
    }
    Some(SlotName::own(Name::from_string(text)))
}
