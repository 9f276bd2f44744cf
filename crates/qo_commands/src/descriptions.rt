//! What a description says of the board: `x-describe`.

ghost use Rattle.std.specs.Prelude.{◌≡◌, option_map, IfOk};
ghost use Rattle.serde_json.specs.View.{view};
ghost use Rattle.qo_save.specs.Described.{described};
ghost use Rattle.qo_save.specs.Description.{description_data};
ghost use Rattle.qo_model.specs.Board.{Board as Tree};
ghost use Rattle.qo_realize.specs.Representation.{Stands};
ghost use Rattle.qo_commands.specs.Commands.{returned, told_as};
ghost use Rattle.qo_commands.specs.Views.{done_of};

use crate::commands::{Done, returned_value};
use qo_describe::describe;
use qo_heap::Steps;
use qo_realize::Board;
use serde_json::{Map, Value};
use std::alloc::{AllocError, Global};
use std::sync::ledger::Ledger;

/// The description of the board; `None` exactly where it has none.
fn description<L: Ledger>(
    alloc: Global,
    board: &Board,
    steps: &mut Steps<L>,
) -> Result<Option<Value>, AllocError>
    ensures { (b : Tree) → Stands b board.now → IfOk result (λ told. option_map view told ≡ option_map description_data (described b)) }
{
    let rings = board.ring_rows(alloc)?;
    describe(
        board.heap(),
        rings.as_slice(),
        board.any_pending(),
        alloc,
        steps,
    )
}

/// The description of the board as JSON; an object without members where it has none. The error is want of
/// memory.
pub fn board_value<L: Ledger>(
    alloc: Global,
    board: &Board,
    steps: &mut Steps<L>,
) -> Result<Value, AllocError>
    ensures { (b : Tree) → Stands b board.now → IfOk result (λ v. view v ≡ told_as (described b)) }
{
    match description(alloc, board, steps)? {
        Some(value) => Ok(value),
        None => Ok(Value::Object(Map::new(alloc))),
    }
}

/// What a description says of the board.
pub(crate) fn query_description<L: Ledger>(
    alloc: Global,
    board: &Board,
    steps: &mut Steps<L>,
) -> Result<Done, AllocError>
    ensures { (b : Tree) → Stands b board.now → IfOk result (λ d. done_of b d ≡ returned b (told_as (described b))) }
{
    board.reveal_board();
    let value = board_value(alloc, board, steps)?;
    Ok(returned_value(value))
}
