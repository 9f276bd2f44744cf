//! The members of an object that some rows name, read in one pass.

ghost use Rattle.std.specs.Prelude.{◌≡◌, ◌≤◌, ◌&&◌, ◌||◌, length, slice_get, true, Some, option_map};
ghost use Rattle.qo_json.specs.View.{view, members_view};
ghost use Rattle.qo_requests.specs.Arguments.{field_of, fits, all_stand, has_only, all_fit, plain_beside};
ghost use Rattle.qo_requests.specs.declared.arguments.ArgumentType.TheVariants as kind;
ghost use Rattle.qo_requests.specs.Fields.{argument};
ghost use Rattle.qo_requests.specs.ArgumentMembers.{names, stands_by, is_fit_by, AreRead, AreGiven};

use crate::arguments::{Argument, fits, is_plain};
use crate::fields::{Field, argument, found, is_beside, is_one};
use qo_json::Json;

/// The members of an object that at most three rows name, and what stands beside them.
#[derive(Clone, Copy)]
pub(crate) struct ArgumentValues<'v, 'a> {
    /// The rows.
    pub(crate) rows: &'static [Argument],
    /// The object; what is none has no members.
    pub(crate) place: &'v Json<'a>,
    /// The member that the first row names, where it stands there.
    first: Option<&'v Json<'a>>,
    /// That of the second.
    second: Option<&'v Json<'a>>,
    /// That of the third.
    third: Option<&'v Json<'a>>,
    /// Whether a member stands there that no row names.
    others: bool,
    /// Whether each of those is a plain value.
    plain: bool,
}

/// Whether a name is that of the row at a place, where there is one.
#[inline(always)]
fn is_at(rows: &[Argument], at: usize, name: &str) -> bool
    ensures { result ≡ names (slice_get rows.now at) name.now }
{
    match rows.get(at) {
        Some(row) => row.field().is_named(name),
        None => false,
    }
}

/// Whether the row at a place, where there is one, is of this member.
#[inline(always)]
fn is_of(rows: &[Argument], at: usize, field: Field) -> bool
    ensures { result ≡ true → option_map field_of (slice_get rows.now at) ≡ Some field }
{
    match rows.get(at) {
        Some(row) => row.field() == field,
        None => false,
    }
}

/// Whether all members that no row names are plain values: those before, and this one.
#[inline(always)]
fn stays_plain(before: bool, named: bool, member: &Json<'_>) -> bool
    ensures { result ≡ (before && (named || fits kind.Plain (view member.now))) }
{
    before && (named || is_plain(member))
}

/// Whether three things hold.
#[inline(always)]
fn are_all(first: bool, second: bool, third: bool) -> bool
    ensures { result ≡ ((first && second) && third) }
{
    first && second && third
}

/// Whether a member stands there, if the row, where there is one, asks for it.
#[inline(always)]
fn stands(rows: &[Argument], at: usize, part: Option<&Json<'_>>) -> bool
    ensures { result ≡ stands_by (slice_get rows.now at) (option_map (λ v. view v.now) part.entry) }
{
    match rows.get(at) {
        Some(Argument::Needed(_, _)) => part.is_some(),
        Some(Argument::Optional(_, _)) | None => true,
    }
}

/// Whether a member, where it stands there, is of the kind of the row, where there is one.
#[inline(always)]
fn is_fit(rows: &[Argument], at: usize, part: Option<&Json<'_>>) -> bool
    ensures { result ≡ is_fit_by (slice_get rows.now at) (option_map (λ v. view v.now) part.entry) }
{
    match (rows.get(at), part) {
        (Some(row), Some(value)) => fits(row.kind(), value),
        _ => true,
    }
}

impl<'v, 'a> ArgumentValues<'v, 'a> {
    /// The members that some rows name in an object, which has these members.
    fn among(
        rows: &'static [Argument],
        place: &'v Json<'a>,
        members: &'v [(&'a str, Json<'a>)],
    ) -> ArgumentValues<'v, 'a>
        requires { length rows.now ≤ 3 }
        ensures read { AreRead result (members_view members.now) }
        ensures rows { result.rows.now ≡ rows.now }
        ensures place { view result.place.now ≡ view place.now }
    {
        let mut first = None;
        let mut second = None;
        let mut third = None;
        let mut others = false;
        let mut plain = true;
        for member in members {
            let name = member.0;
            let is_first = is_at(rows, 0, name);
            let is_second = is_at(rows, 1, name);
            let is_third = is_at(rows, 2, name);
            let named = is_one(is_first, is_second, is_third);
            first = found(first, is_first, &member.1);
            second = found(second, is_second, &member.1);
            third = found(third, is_third, &member.1);
            others = is_beside(others, named);
            plain = stays_plain(plain, named, &member.1);
        }
        ArgumentValues {
            rows,
            place,
            first,
            second,
            third,
            others,
            plain,
        }
    }

    /// The members that some rows name in a value, which has none where it is no object.
    #[inline(always)]
    pub(crate) fn of(rows: &'static [Argument], place: &'v Json<'a>) -> ArgumentValues<'v, 'a>
        requires { length rows.now ≤ 3 }
        ensures given { AreGiven result }
        ensures rows { result.rows.now ≡ rows.now }
        ensures place { view result.place.now ≡ view place.now }
    {
        match place.as_object() {
            Some(members) => ArgumentValues::among(rows, place, members),
            None => ArgumentValues {
                rows,
                place,
                first: None,
                second: None,
                third: None,
                others: false,
                plain: true,
            },
        }
    }

    /// The member of a name, where it stands there. One that no row names is looked for.
    #[tactic(auto, using(crate::proofs::ArgumentMemberLemmas::part_named))]
    pub(crate) fn at(&self, field: Field) -> Option<&'v Json<'a>>
        requires { AreGiven self.now }
        ensures { option_map (λ v. view v.now) result ≡ argument field (view self.now.place.now) }
    {
        if is_of(self.rows, 0, field) {
            self.first
        } else if is_of(self.rows, 1, field) {
            self.second
        } else if is_of(self.rows, 2, field) {
            self.third
        } else {
            argument(self.place, field)
        }
    }

    /// Whether each member that must stand there does.
    pub(crate) fn all_stand(&self) -> bool
        requires { AreGiven self.now }
        ensures { result ≡ all_stand self.now.rows.now (view self.now.place.now) }
    {
        let first = stands(self.rows, 0, self.first);
        let second = stands(self.rows, 1, self.second);
        let third = stands(self.rows, 2, self.third);
        are_all(first, second, third)
    }

    /// Whether no other member stands there than the rows name.
    pub(crate) fn has_only(&self) -> bool
        requires { AreGiven self.now }
        ensures { result ≡ has_only self.now.rows.now (view self.now.place.now) }
    {
        !self.others
    }

    /// Whether each member that a row names is of its kind.
    pub(crate) fn all_fit(&self) -> bool
        requires { AreGiven self.now }
        ensures { result ≡ all_fit self.now.rows.now (view self.now.place.now) }
    {
        let first = is_fit(self.rows, 0, self.first);
        let second = is_fit(self.rows, 1, self.second);
        let third = is_fit(self.rows, 2, self.third);
        are_all(first, second, third)
    }

    /// Whether each member that no row names is a plain value.
    pub(crate) fn plain_beside(&self) -> bool
        requires { AreGiven self.now }
        ensures { result ≡ plain_beside self.now.rows.now (view self.now.place.now) }
    {
        self.plain
    }
}
