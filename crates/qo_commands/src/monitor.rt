//! What lines of the text monitor are told (QEMU's QAPI, human-monitor-command; the texts are the
//! profile's).

ghost use Rattle.std.specs.Prelude.{◌≡◌, None, Some, IfOk, string_bytes};
ghost use Rattle.qo_commands.specs.Commands.{monitored, refusal_line};
ghost use Rattle.qo_commands.specs.Views.{done_of};
ghost use Rattle.qo_model.specs.Board.{Board as Tree};
ghost use Rattle.qo_realize.specs.Representation.{Stands};
ghost use Rattle.qo_text.specs.declared.lines.Line.TheVariants as line;

use crate::commands::{Done, ReplyBody, returned};
use qo_heap::Steps;
use qo_realize::Board;
use qo_text::{bus_tree, qom_tree};
use qo_values::{Code, Text};
use std::alloc::{AllocError, Global};
use std::sync::ledger::Ledger;

/// What a text that is no line is told.
const UNREADABLE: &str = "Error: line unreadable\n";

/// The text that tells a line of the code that refuses its command. The error is want of memory.
pub fn refusal_line(alloc: Global, code: Code) -> Result<String, AllocError>
    ensures { IfOk result (λ text. string_bytes text ≡ refusal_line code) }
{
    let mut text = String::from_str(alloc, "Error: ")?;
    text.push_str(code.description())?;
    text.push('\n')?;
    Ok(text)
}

/// What `info qom-tree` comes to. The error is want of memory.
pub fn tell_tree<L: Ledger>(
    alloc: Global,
    board: &Board,
    steps: &mut Steps<L>,
) -> Result<Done, AllocError>
    ensures { (b : Tree) → Stands b board.now → IfOk result (λ d. done_of b d ≡ monitored b (Some line.Tree)) }
{
    let text = qom_tree(board.heap(), alloc, steps)?;
    Ok(returned(ReplyBody::Told(Text::from_string(text))))
}

/// What `info qtree` comes to. The error is want of memory.
pub fn tell_buses<L: Ledger>(
    alloc: Global,
    board: &Board,
    steps: &mut Steps<L>,
) -> Result<Done, AllocError>
    ensures { (b : Tree) → Stands b board.now → IfOk result (λ d. done_of b d ≡ monitored b (Some line.Bus)) }
{
    let text = bus_tree(board.heap(), alloc, steps)?;
    Ok(returned(ReplyBody::Told(Text::from_string(text))))
}

/// What a text that is no line comes to. The error is want of memory.
pub fn tell_unreadable(alloc: Global) -> Result<Done, AllocError>
    ensures { IfOk result (λ d. (b : Tree) → done_of b d ≡ monitored b None) }
{
    let text = String::from_str(alloc, UNREADABLE)?;
    Ok(returned(ReplyBody::Told(Text::from_string(text))))
}
