//! The members of an object, put in byte order of their names as they are read.

ghost use Rattle.std.specs.Prelude.{◌≡◌, ◌≢◌, ◌+◌, ◌≤◌, vec_len, Err, OnOk};
ghost use Rattle.serde_json.specs.Data.{put};
ghost use Rattle.qo_json.specs.Places.{place_of};
ghost use Rattle.qo_json.specs.View.{view, members_view};

use crate::errors::JsonError;
use crate::values::Json;
use std::cmp::Ordering;

/// How many names an object has at most. Each is looked for among those before it, so a wide object
/// would take as long as the square of its names.
pub const NAMES_MAX: usize = 64;

/// Where a name stands among members, or else where it goes.
fn place_of(members: &[(&str, Json<'_>)], name: &str) -> Result<usize, usize>
    ensures { result ≡ place_of name.now members.now }
{
    for (at, member) in members.iter().enumerate() {
        match name.cmp(member.0) {
            Ordering::Less => return Err(at),
            Ordering::Equal => return Ok(at),
            Ordering::Greater => {}
        }
    }
    Err(members.len())
}

/// Puts a member before the first whose name comes after its own; where one has its name, this value
/// takes the place of that one's.
pub(crate) fn put<'a>(
    members: &mut Vec<(&'a str, Json<'a>)>,
    name: &'a str,
    value: Json<'a>,
) -> Result<(), JsonError>
    ensures put { OnOk result (members_view members.new.items ≡ put name.entry.now (view value.entry) (members_view members.old.items)) }
    ensures one_more { OnOk result (vec_len members.new ≤ vec_len members.old + 1) }
    ensures never_invalid { result ≢ Err JsonError.Invalid }
    ensures wide { result ≡ Err JsonError.Wide → NAMES_MAX ≤ vec_len members.old }
{
    match place_of(members.as_slice(), name) {
        Ok(at) => members[at].1 = value,
        Err(_) if members.len() >= NAMES_MAX => return Err(JsonError::Wide),
        Err(at) if at == members.len() => members.push((name, value))?,
        Err(at) => members.insert(at, (name, value))?,
    }
    Ok(())
}
