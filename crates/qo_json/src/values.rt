//! JSON values, and what is asked of them.

ghost use Rattle.std.specs.Prelude.{◌≡◌, is_some, option_map, option_and_then};
ghost use Rattle.serde_json.specs.Find.{as_array, as_bool, as_number, as_object, as_str, as_u64, get, get_member};
ghost use Rattle.qo_json.specs.View.{view, items_view, members_view};

use serde_json::Number;

/// A JSON value, whose texts stand in the text that it was read from (RFC 8259, as the messages of
/// QMP are). What is read has the members of each object in byte order of their names, each name
/// once: of a name that comes twice, the last value stays.
#[derive(Drop)]
pub enum Json<'a> {
    /// `null`.
    Null,
    /// A truth value.
    Bool(bool),
    /// A number.
    Number(Number),
    /// A text, without its escapes.
    String(&'a str),
    /// A list.
    Array(Vec<Json<'a>>),
    /// An object, by its members.
    Object(Vec<(&'a str, Json<'a>)>),
}

/// The member of a name among these, where there is one.
fn member_named<'v, 'a>(members: &'v [(&'a str, Json<'a>)], name: &str) -> Option<&'v Json<'a>>
    ensures { option_map (λ member. view member.now) result ≡ get_member name.now (members_view members.now) }
{
    for member in members {
        if name == member.0 {
            return Some(&member.1);
        }
    }
    None
}

impl<'a> Json<'a> {
    /// The truth value that this is.
    pub fn as_bool(&self) -> Option<bool>
        ensures { result ≡ as_bool (view self.now) }
    {
        match self {
            Json::Bool(truth) => Some(*truth),
            _ => None,
        }
    }

    /// The number that this is, where it is one from 0 to 2^64 - 1.
    pub fn as_u64(&self) -> Option<u64>
        ensures { result ≡ option_and_then as_u64 (as_number (view self.now)) }
    {
        match self {
            Json::Number(number) => number.as_u64(),
            _ => None,
        }
    }

    /// The text that this is.
    pub fn as_str(&self) -> Option<&'a str>
        ensures { option_map (λ s. s.now) result ≡ as_str (view self.now) }
    {
        match self {
            Json::String(text) => Some(*text),
            _ => None,
        }
    }

    /// The items of the list that this is.
    pub fn as_array(&self) -> Option<&[Json<'a>]>
        ensures { option_map (λ items. items_view items.now) result ≡ as_array (view self.now) }
    {
        match self {
            Json::Array(items) => Some(items.as_slice()),
            _ => None,
        }
    }

    /// The members of the object that this is.
    pub fn as_object(&self) -> Option<&[(&'a str, Json<'a>)]>
        ensures { option_map (λ members. members_view members.now) result ≡ as_object (view self.now) }
    {
        match self {
            Json::Object(members) => Some(members.as_slice()),
            _ => None,
        }
    }

    /// The member of a name, where this is an object that has one.
    pub fn get(&self, name: &str) -> Option<&Json<'a>>
        ensures { option_map (λ member. view member.now) result ≡ get name.now (view self.now) }
    {
        match self {
            Json::Object(members) => member_named(members.as_slice(), name),
            _ => None,
        }
    }

    /// Whether this is a truth value.
    pub fn is_boolean(&self) -> bool
        ensures { result ≡ is_some (as_bool (view self.now)) }
    {
        matches!(self, Json::Bool(_))
    }

    /// Whether this is a text.
    pub fn is_string(&self) -> bool
        ensures { result ≡ is_some (as_str (view self.now)) }
    {
        matches!(self, Json::String(_))
    }

    /// Whether this is an object.
    pub fn is_object(&self) -> bool
        ensures { result ≡ is_some (as_object (view self.now)) }
    {
        matches!(self, Json::Object(_))
    }
}
