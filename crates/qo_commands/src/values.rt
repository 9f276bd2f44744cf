//! The values of properties: `qom-get`.

ghost use Rattle.std.specs.Prelude.{◌≡◌, IfOk};
ghost use Rattle.qo_values.specs.PlainValues.{data_of};
ghost use Rattle.qo_model.specs.Board.{Board as Tree};
ghost use Rattle.qo_model.specs.Access.{read};
ghost use Rattle.qo_realize.specs.Representation.{Stands};
ghost use Rattle.qo_commands.specs.Commands.{answered};
ghost use Rattle.qo_commands.specs.Views.{done_of};

use crate::commands::{Done, refused, returned_value};
use qo_heap::Steps;
use qo_properties::Refusal;
use qo_realize::Board;
use qo_values::to_json;
use std::alloc::{AllocError, Global};
use std::sync::ledger::Ledger;

/// The value of the property of a name of the object at a path.
pub(crate) fn get<L: Ledger>(
    alloc: Global,
    board: &Board,
    path: &str,
    name: &str,
    steps: &mut Steps<L>,
) -> Result<Done, AllocError>
    ensures { (b : Tree) → Stands b board.now → IfOk result (λ d. done_of b d ≡ answered b data_of (read b path.now name.now)) }
{
    match board.qom_get(path, name, alloc, steps) {
        Ok(val) => {
            let value = to_json(alloc, &val)?;
            Ok(returned_value(value))
        }
        Err(Refusal::Refused(code)) => Ok(refused(code)),
        Err(Refusal::Memory) => Err(AllocError),
    }
}
