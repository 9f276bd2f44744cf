//! The commands by name: `query-commands`.

ghost use Rattle.std.specs.Prelude.{◌≡◌, ◌++◌, [], ◌∷◌, map, IfOk, OnOk};
ghost use Rattle.serde_json.specs.Data.{array};
ghost use Rattle.serde_json.specs.View.{items_of, view};
ghost use Rattle.qo_requests.specs.Commands.{commands};
ghost use Rattle.qo_commands.specs.Commands.{command_data};

use qo_requests::Command;
use serde_json::{Value, json};
use std::alloc::{AllocError, Global};

/// Adds a command to a list.
fn push_command(alloc: Global, values: &mut Vec<Value>, command: Command) -> Result<(), AllocError>
    ensures { OnOk result (map view values.new.items ≡ map view values.old.items ++ command_data command ∷ []) }
{
    let value = json!(in alloc; {"name": command.name()})?;
    values.push(value)?;
    Ok(())
}

/// All commands, in byte order of their names.
pub(crate) fn commands(alloc: Global) -> Result<Value, AllocError>
    ensures { IfOk result (λ v. view v ≡ array (items_of (map command_data commands))) }
{
    let all = Command::all();
    let mut values = Vec::new(alloc);
    for command in all {
        push_command(alloc, &mut values, *command)?;
    }
    Ok(Value::Array(values))
}
