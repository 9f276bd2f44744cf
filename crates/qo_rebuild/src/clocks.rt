//! The numbers of clocks are written.

ghost use Rattle.std.specs.Prelude.{flat_map, map};
ghost use Rattle.qo_model.specs.Board.{Board as Tree};
ghost use Rattle.qo_realize.specs.Answers.{Writes};
ghost use Rattle.qo_realize.specs.Representation.{Stands};
ghost use Rattle.qo_save.specs.Rebuilding.{all_done, clock_steps, factor_steps, set_number};
ghost use Rattle.qo_shape.specs.Said.{clock_said, numbers_said};

use qo_heap::Steps;
use qo_properties::Refusal;
use qo_realize::Board;
use qo_shape::{ClockItem, ClockNumbers};
use qo_values::Val;
use std::alloc::Global;
use std::sync::ledger::Ledger;

/// Writes a number of the clock at a path.
fn set_number<L: Ledger>(
    board: &mut Board,
    path: &str,
    name: &str,
    number: u64,
    alloc: Global,
    steps: &mut Steps<L>,
) -> Result<(), Refusal>
    ensures { (b : Tree) → Stands b board.old → Writes board.new result (set_number path.now name.now number b) }
{
    board.qom_set(path, name, &Val::Uint(number), alloc, steps)
}

/// Writes the numbers of the system clock: its divider first, so that no period is too long on the way.
pub(crate) fn set_clock<L: Ledger>(
    board: &mut Board,
    clock: ClockNumbers,
    alloc: Global,
    steps: &mut Steps<L>,
) -> Result<(), Refusal>
    ensures { (b : Tree) → Stands b board.old → Writes board.new result (all_done (clock_steps (numbers_said clock)) b) }
{
    let path = "/machine/sysclk";
    set_number(board, path, "div", clock.div, alloc, steps)?;
    set_number(board, path, "period", clock.period, alloc, steps)?;
    set_number(board, path, "mul", clock.mul, alloc, steps)
}

/// Writes how another clock divides and multiplies.
fn scale_clock<L: Ledger>(
    board: &mut Board,
    clock: &ClockItem,
    alloc: Global,
    steps: &mut Steps<L>,
) -> Result<(), Refusal>
    ensures { (b : Tree) → Stands b board.old → Writes board.new result (all_done (factor_steps (clock_said clock.now)) b) }
{
    set_number(board, clock.path.as_str(), "div", clock.div, alloc, steps)?;
    set_number(board, clock.path.as_str(), "mul", clock.mul, alloc, steps)
}

/// Writes how clocks divide and multiply, one after another.
pub(crate) fn scale_clocks<L: Ledger>(
    board: &mut Board,
    clocks: &[ClockItem],
    alloc: Global,
    steps: &mut Steps<L>,
) -> Result<(), Refusal>
    ensures { (b : Tree) → Stands b board.old → Writes board.new result (all_done (flat_map factor_steps (map clock_said clocks.now)) b) }
{
    for clock in clocks {
        scale_clock(board, clock, alloc, steps)?;
    }
    Ok(())
}
