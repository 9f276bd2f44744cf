//! Links are written.

ghost use Rattle.std.specs.Prelude.{map};
ghost use Rattle.qo_model.specs.Board.{Board as Tree};
ghost use Rattle.qo_realize.specs.Answers.{Writes};
ghost use Rattle.qo_realize.specs.Representation.{Stands};
ghost use Rattle.qo_save.specs.Rebuilding.{all_done, set_link};
ghost use Rattle.qo_shape.specs.Said.{link_said};

use qo_heap::Steps;
use qo_properties::Refusal;
use qo_realize::Board;
use qo_shape::LinkItem;
use qo_values::{Text, Val};
use std::alloc::Global;
use std::sync::ledger::Ledger;

/// Writes a link.
fn set_link<L: Ledger>(
    board: &mut Board,
    link: &LinkItem,
    alloc: Global,
    steps: &mut Steps<L>,
) -> Result<(), Refusal>
    ensures { (b : Tree) → Stands b board.old → Writes board.new result (set_link (link_said link.now) b) }
{
    let value = String::from_str(alloc, link.value.as_str())?;
    board.qom_set(
        link.path.as_str(),
        link.property.as_str(),
        &Val::Text(Text::from_string(value)),
        alloc,
        steps,
    )
}

/// Writes links, one after another.
pub(crate) fn set_links<L: Ledger>(
    board: &mut Board,
    links: &[LinkItem],
    alloc: Global,
    steps: &mut Steps<L>,
) -> Result<(), Refusal>
    ensures { (b : Tree) → Stands b board.old → Writes board.new result (all_done (map set_link (map link_said links.now)) b) }
{
    for link in links {
        set_link(board, link, alloc, steps)?;
    }
    Ok(())
}
