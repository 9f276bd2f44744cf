//! A whole board is rebuilt.

ghost use Rattle.std.specs.Prelude.{Some};
ghost use Rattle.qo_model.specs.Board.{Board as Tree};
ghost use Rattle.qo_realize.specs.Answers.{Writes};
ghost use Rattle.qo_realize.specs.Representation.{Stands};
ghost use Rattle.qo_save.specs.Rebuilding.{all_done, rebuilt, steps_of};
ghost use Rattle.qo_shape.specs.Said.{said};
ghost use Rattle.qo_rebuild.specs.Answers.{Rebuilds};
ghost use Rattle.qo_rebuild.specs.Texts.{rebuilt_of_text};

use crate::clocks::{scale_clocks, set_clock};
use crate::devices::add_devices;
use crate::errors::SaveError;
use crate::links::set_links;
use crate::objects::add_objects;
use crate::rings::add_rings;
use qo_heap::Steps;
use qo_properties::Refusal;
use qo_realize::Board;
use qo_shape::{Description, read_description};
use std::alloc::Global;
use std::sync::ledger::Ledger;

/// Makes of a board what a description says, call by call, up to the first that is refused.
fn restore<L: Ledger>(
    board: &mut Board,
    description: &Description,
    alloc: Global,
    steps: &mut Steps<L>,
) -> Result<(), Refusal>
    ensures { (b : Tree) → Stands b board.old → Writes board.new result (all_done (steps_of (said description.now)) b) }
{
    set_clock(board, description.clock, alloc, steps)?;
    add_rings(board, description.rings.as_slice(), alloc)?;
    add_objects(board, description.objects.as_slice(), alloc, steps)?;
    add_devices(board, description.devices.as_slice(), alloc, steps)?;
    scale_clocks(board, description.clocks.as_slice(), alloc, steps)?;
    set_links(board, description.links.as_slice(), alloc, steps)
}

/// The board of a description: the opening board, after the calls that the description stands for
/// (docs/PROFILE.md, descriptions). `Refused` comes exactly where one of them is refused, with the code
/// of the first; `Shape` never. The other error is want of memory.
pub fn rebuild<L: Ledger>(
    description: &Description,
    alloc: Global,
    steps: &mut Steps<L>,
) -> Result<Board, SaveError>
    ensures { Rebuilds (Some (rebuilt (said description.now))) result }
{
    let mut board = Board::start(alloc, steps)?;
    restore(&mut board, description, alloc, steps)?;
    Ok(board)
}

/// The board that a text describes. `Shape` comes exactly where the text is no description, and else
/// `Refused` exactly where a call is refused, with the code of the first. The other error is want of
/// memory.
pub fn rebuild_text<L: Ledger>(
    text: &[u8],
    alloc: Global,
    steps: &mut Steps<L>,
) -> Result<Board, SaveError>
    ensures { Rebuilds (rebuilt_of_text text.now) result }
{
    let description = read_description(alloc, text)?;
    rebuild(&description, alloc, steps)
}
