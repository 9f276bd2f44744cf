//! The name under which a slot is added.

ghost use Rattle.std.specs.Prelude.{◌≡◌, ◌<◌};
ghost use Rattle.std.specs.Str.{bytes_eq};
ghost use Rattle.qo_values.specs.declared.limits.TheConstants.{BUS_SLOTS};
ghost use Rattle.qo_model.specs.Devices.{kid_name};
ghost use Rattle.qo_model.specs.RowNames.{property_name};

use qo_model::PropertyName;
use qo_values::Name;
use std::marker::Model;

/// Which name a slot has: one of a table, or a text of its own.
#[derive(Debug, Drop)]
enum NameKind {
    /// The name of a property in a row.
    Row(PropertyName),
    /// The name of the link of a bus to the kid in a slot.
    Kid(u8),
    /// Any other name.
    Own(Name),
}

/// So many lengths of texts are told apart.
const LENGTHS: usize = 0x1_0000_0000;

/// What is compared of two names before their texts: how many bytes they have, and the first.
#[derive(Clone, Copy, Debug)]
pub(crate) struct Fingerprint {
    /// How many bytes the text has, modulo 2^32.
    length: u32,
    /// The first of them; 0 of an empty text.
    first: u8,
}

impl Fingerprint {
    ghost use Rattle.std.specs.Prelude.{◌&&◌, ◌==◌};
    ghost use Rattle.qo_object.specs.Names.{fingerprint_of};

    /// That of a text.
    pub(crate) fn of(text: &str) -> Fingerprint
        ensures { result ≡ fingerprint_of text.now }
    {
        Fingerprint {
            length: (text.len() % LENGTHS) as u32,
            first: text.as_bytes().first().copied().unwrap_or(0),
        }
    }

    /// Whether it is like another.
    fn is_like(self, other: Fingerprint) -> bool
        ensures { result ≡ ((self.length == other.length) && (self.first == other.first)) }
    {
        self.length == other.length && self.first == other.first
    }
}

/// The name under which a slot is added: 1 to `NAME_MAX` printable ASCII bytes (32 to 126) without
/// `/`. One that is constant has no text of its own.
#[derive(Debug, Drop)]
pub struct SlotName {
    given: NameKind,
    fingerprint: Fingerprint,
}

impl Model for SlotName {
    ghost use Rattle.std.specs.Prelude.{◌≡◌, List, ℕ};
    ghost use Rattle.qo_object.specs.Names.{IsGiven, fingerprint_of, given_text};

    ghost Value = { List ℕ };

    ghost view = { λ n. given_text n.given };

    ghost invariant = { λ n. IsGiven n.given × (n.fingerprint ≡ fingerprint_of (given_text n.given)) };
}

/// The text of the name of the link of a bus to the kid in a slot.
fn kid_text(slot: u8) -> &'static str
    requires { slot < BUS_SLOTS }
    ensures { result.now ≡ kid_name slot }
{
    match slot {
        0 => "child[0]",
        1 => "child[1]",
        2 => "child[2]",
        3 => "child[3]",
        4 => "child[4]",
        5 => "child[5]",
        6 => "child[6]",
        _ => "child[7]",
    }
}

/// Whether a text is the name of the link of a bus to the kid in a slot.
fn is_kid_name(text: &str, slot: u8) -> bool
    ensures { result ≡ bytes_eq (kid_name slot) text.now }
{
    // A number that is no byte stands in no text.
    let Some(digit) = slot.checked_add(b'0') else {
        return false;
    };
    [b'c', b'h', b'i', b'l', b'd', b'[', digit, b']'].as_slice() == text.as_bytes()
}

impl SlotName {
    ghost use Rattle.qo_values.specs.Names.{IsName};
    ghost use Rattle.qo_object.specs.Names.{fingerprint_of};

    /// The name of a property in a row. It takes no memory.
    pub fn row(name: PropertyName) -> SlotName
        ensures { result ≡ property_name name }
    {
        let fingerprint = Fingerprint::of(name.as_str());
        SlotName {
            given: NameKind::Row(name),
            fingerprint,
        }
    }

    /// The name of the link of a bus to the kid in a slot. It takes no memory.
    pub fn kid(slot: u8) -> SlotName
        requires { slot < BUS_SLOTS }
        ensures { result ≡ kid_name slot }
    {
        let fingerprint = Fingerprint::of(kid_text(slot));
        SlotName {
            given: NameKind::Kid(slot),
            fingerprint,
        }
    }

    /// Any other name. It takes no memory.
    pub fn own(name: Name) -> SlotName
        ensures { result ≡ name }
    {
        let fingerprint = Fingerprint::of(name.as_str());
        SlotName {
            given: NameKind::Own(name),
            fingerprint,
        }
    }

    /// The name's text. It takes no memory.
    pub fn as_str(&self) -> &str
        ensures value { result.now ≡ self.now }
        ensures name { IsName self.now }
    {
        match &self.given {
            NameKind::Row(name) => name.as_str(),
            NameKind::Kid(slot) => kid_text(*slot),
            NameKind::Own(name) => name.as_str(),
        }
    }

    /// Whether it is the name of a property in a row. It takes no memory.
    pub(crate) fn is_row(&self, name: PropertyName) -> bool
        ensures { result ≡ bytes_eq (property_name name) self.now }
    {
        match &self.given {
            NameKind::Row(given) => *given == name,
            NameKind::Kid(_) => false,
            NameKind::Own(given) => given.as_str() == name.as_str(),
        }
    }

    /// Whether it is the name of the link of a bus to the kid in a slot. It takes no memory.
    pub(crate) fn is_kid(&self, slot: u8) -> bool
        ensures { result ≡ bytes_eq (kid_name slot) self.now }
    {
        match &self.given {
            NameKind::Row(_) => false,
            NameKind::Kid(given) => *given == slot,
            NameKind::Own(given) => is_kid_name(given.as_str(), slot),
        }
    }

    /// Whether it is this text, which has this fingerprint. It takes no memory.
    pub(crate) fn is(&self, text: &str, fingerprint: Fingerprint) -> bool
        requires { fingerprint ≡ fingerprint_of text.now }
        ensures { result ≡ bytes_eq text.now self.now }
    {
        fingerprint.is_like(self.fingerprint) && text == self.as_str()
    }
}
