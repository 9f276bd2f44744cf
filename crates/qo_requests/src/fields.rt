//! The members of messages by name.

ghost use Rattle.std.specs.Prelude.{◌≡◌, ◌||◌, not, if◌then◌else◌, Some, option_map};
ghost use Rattle.std.specs.Option.{option_or};
ghost use Rattle.std.specs.Str.{bytes_eq};
ghost use Rattle.qo_json.specs.View.{view};
ghost use Rattle.qo_requests.specs.Fields.{field_name, argument};

use qo_json::Json;

/// A member of a message or of its arguments.
#[derive(Clone, Copy, Debug, PartialEq, Eq)]
pub enum Field {
    /// `abstract`.
    Abstract,
    /// `arguments`.
    Arguments,
    /// `backend`.
    Backend,
    /// `birth`.
    Birth,
    /// `bus`.
    Bus,
    /// `command-line`.
    CommandLine,
    /// `device`.
    Device,
    /// `driver`.
    Driver,
    /// `enable`.
    Enable,
    /// `execute`.
    Execute,
    /// `format`.
    Format,
    /// `from`.
    From,
    /// `id`.
    Id,
    /// `implements`.
    Implements,
    /// `type`.
    Kind,
    /// `line`.
    Line,
    /// `ns`.
    Ns,
    /// `path`.
    Path,
    /// `data`.
    Payload,
    /// `property`.
    Property,
    /// `qom-type`.
    QomType,
    /// `size`.
    Size,
    /// `typename`.
    Typename,
    /// `value`.
    Value,
}

/// Whether two texts are the same. Most differ in length, which is told without a look at their bytes.
#[inline(always)]
pub(crate) fn is_same(one: &str, other: &str) -> bool
    ensures { result ≡ bytes_eq one.now other.now }
{
    one.len() == other.len() && one == other
}

impl Field {
    /// The member's name, as messages spell it.
    pub fn name(self) -> &'static str
        ensures { result.now ≡ field_name self }
    {
        match self {
            Field::Abstract => "abstract",
            Field::Arguments => "arguments",
            Field::Backend => "backend",
            Field::Birth => "birth",
            Field::Bus => "bus",
            Field::CommandLine => "command-line",
            Field::Device => "device",
            Field::Driver => "driver",
            Field::Enable => "enable",
            Field::Execute => "execute",
            Field::Format => "format",
            Field::From => "from",
            Field::Id => "id",
            Field::Implements => "implements",
            Field::Kind => "type",
            Field::Line => "line",
            Field::Ns => "ns",
            Field::Path => "path",
            Field::Payload => "data",
            Field::Property => "property",
            Field::QomType => "qom-type",
            Field::Size => "size",
            Field::Typename => "typename",
            Field::Value => "value",
        }
    }

    /// Whether this is the member's name.
    #[inline(always)]
    pub(crate) fn is_named(self, name: &str) -> bool
        ensures { result ≡ bytes_eq (field_name self) name.now }
    {
        is_same(self.name(), name)
    }
}

/// The member of a name in an object; what is no object has none.
pub(crate) fn argument<'v, 'a>(place: &'v Json<'a>, field: Field) -> Option<&'v Json<'a>>
    ensures { option_map (λ v. view v.now) result ≡ argument field (view place.now) }
{
    place.get(field.name())
}

/// The member of a name: the one found before, or this one, where it has the name.
#[inline(always)]
pub(crate) fn found<'v, 'a>(
    before: Option<&'v Json<'a>>,
    is_it: bool,
    member: &'v Json<'a>,
) -> Option<&'v Json<'a>>
    ensures { option_map (λ v. view v.now) result ≡ (if is_it then option_or (option_map (λ v. view v.now) before.entry) (Some (view member.now)) else option_map (λ v. view v.now) before.entry) }
{
    if is_it {
        before.or(Some(member))
    } else {
        before
    }
}

/// Whether a member is one of three.
#[inline(always)]
pub(crate) fn is_one(first: bool, second: bool, third: bool) -> bool
    ensures { result ≡ ((first || second) || third) }
{
    first || second || third
}

/// Whether another member stands there: one did before, or this one has no name of those.
#[inline(always)]
pub(crate) fn is_beside(before: bool, named: bool) -> bool
    ensures { result ≡ (before || not named) }
{
    before || !named
}
