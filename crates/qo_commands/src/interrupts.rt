//! The interrupt lines of a board (hw/core/irq.c).

ghost use Rattle.std.specs.Prelude.{IfOk, OnOk};
ghost use Rattle.qo_commands.specs.Interrupts.{HasLines};
ghost use Rattle.qo_commands.specs.Touched.{HasShape, IsLeft};

use crate::touched::Touched;
use qo_heap::Steps;
use qo_layout::Lines;
use qo_realize::Board;
use std::alloc::{AllocError, Global};
use std::mem::replace;
use std::sync::ledger::Ledger;

/// The interrupt lines of a board, made anew in the memory of those before. The board is sound, so that the one
/// error is want of memory.
fn lines_anew<L: Ledger>(
    before: Lines,
    alloc: Global,
    board: &Board,
    steps: &mut Steps<L>,
) -> Result<Lines, AllocError>
    ensures { IfOk result (HasLines board.now) }
{
    board.reveal_board();
    match before.remade(alloc, board.heap(), steps) {
        Ok(lines) => Ok(lines),
        Err(_) => Err(AllocError),
    }
}

/// The interrupt lines of a board. The board is sound, so that the one error is want of memory.
pub fn interrupt_lines<L: Ledger>(
    alloc: Global,
    board: &Board,
    steps: &mut Steps<L>,
) -> Result<Lines, AllocError>
    ensures { IfOk result (HasLines board.now) }
{
    lines_anew(Lines::none(alloc), alloc, board, steps)
}

/// Reads all registers that interrupt lines hang on again, where the lines are made for the objects of a
/// board. It takes no memory.
pub fn refresh_lines<L: Ledger>(lines: &mut Lines, board: &Board, steps: &mut Steps<L>)
    requires { HasShape board.now lines.old }
    ensures { HasLines board.now lines.new }
{
    board.reveal_board();
    lines.refresh(board.heap(), steps);
}

/// The interrupt lines of the board before are those of the board again, where this was touched since. They
/// stay, or their registers are read again, or they are made anew. The error is want of memory for that.
pub fn settle_lines<L: Ledger>(
    alloc: Global,
    lines: &mut Lines,
    board: &Board,
    touched: Touched,
    steps: &mut Steps<L>,
) -> Result<(), AllocError>
    requires { IsLeft touched board.now lines.old }
    ensures { OnOk result (HasLines board.now lines.new) }
{
    match touched {
        Touched::Nothing => Ok(()),
        Touched::Registers => {
            refresh_lines(lines, board, steps);
            Ok(())
        }
        Touched::Devices => {
            let before = replace(lines, Lines::none(alloc));
            *lines = lines_anew(before, alloc, board, steps)?;
            Ok(())
        }
    }
}
