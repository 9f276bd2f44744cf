//! The members of a message, read in one pass.

ghost use Rattle.std.specs.Prelude.{◌≡◌, option_and_then, option_map};
ghost use Rattle.serde_json.specs.Find.{as_str};
ghost use Rattle.qo_json.specs.View.{view, members_view};
ghost use Rattle.qo_requests.specs.Commands.{command_of};
ghost use Rattle.qo_requests.specs.Members.{AreMembers, AreOf, is_whole};

use crate::commands::Command;
use crate::fields::{Field, found, is_beside, is_one};
use qo_json::Json;

/// The members of a message that have a meaning, and whether there are others (QMP specification,
/// 2.3 "Issuing Commands").
#[derive(Clone, Copy)]
pub(crate) struct Members<'v, 'a> {
    /// `execute`, where it stands there.
    pub(crate) execute: Option<&'v Json<'a>>,
    /// `arguments`, where it stands there.
    pub(crate) arguments: Option<&'v Json<'a>>,
    /// `id`, where it stands there.
    pub(crate) id: Option<&'v Json<'a>>,
    /// Whether another member stands there.
    others: bool,
}

impl<'v, 'a> Members<'v, 'a> {
    /// The members of an object.
    fn among(members: &'v [(&'a str, Json<'a>)]) -> Members<'v, 'a>
        ensures { AreMembers result (members_view members.now) }
    {
        let mut execute = None;
        let mut arguments = None;
        let mut id = None;
        let mut others = false;
        for member in members {
            let name = member.0;
            let is_execute = Field::Execute.is_named(name);
            let is_arguments = Field::Arguments.is_named(name);
            let is_id = Field::Id.is_named(name);
            execute = found(execute, is_execute, &member.1);
            arguments = found(arguments, is_arguments, &member.1);
            id = found(id, is_id, &member.1);
            others = is_beside(others, is_one(is_execute, is_arguments, is_id));
        }
        Members {
            execute,
            arguments,
            id,
            others,
        }
    }

    /// The members of a value, which has none where it is no object.
    pub(crate) fn of(value: &'v Json<'a>) -> Members<'v, 'a>
        ensures { AreOf result (view value.now) }
    {
        match value.as_object() {
            Some(members) => Members::among(members),
            None => Members {
                execute: None,
                arguments: None,
                id: None,
                others: false,
            },
        }
    }

    /// The text of `execute`, where it is one.
    pub(crate) fn name(self) -> Option<&'a str>
        ensures { option_map (λ s. s.now) result ≡ option_and_then as_str (option_map (λ v. view v.now) self.entry.execute) }
    {
        self.execute.and_then(Json::as_str)
    }

    /// The command of the name that `execute` says, where there is one.
    pub(crate) fn command(self) -> Option<Command>
        ensures { result ≡ option_and_then command_of (option_and_then as_str (option_map (λ v. view v.now) self.entry.execute)) }
    {
        self.name().and_then(Command::named)
    }

    /// Whether `execute` is a text, `arguments`, where it stands there, an object, and no other member
    /// but `id` stands there.
    pub(crate) fn is_message(self) -> bool
        ensures { result ≡ is_whole self.entry.others (option_map (λ v. view v.now) self.entry.execute) (option_map (λ v. view v.now) self.entry.arguments) }
    {
        !self.others
            && self.execute.is_some_and(Json::is_string)
            && self.arguments.is_none_or(Json::is_object)
    }
}
