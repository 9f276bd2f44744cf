//! The properties of objects as lists: `qom-list`.

ghost use Rattle.std.specs.Prelude.{◌≡◌, [], IfOk, OnOk};
ghost use Rattle.qo_model.specs.Access.{listing_at};
ghost use Rattle.qo_model.specs.Board.{Board as Tree};
ghost use Rattle.qo_model.specs.Listing.{listing};
ghost use Rattle.qo_realize.specs.Representation.{Stands};
ghost use Rattle.qo_replies.specs.Json.{json};
ghost use Rattle.qo_replies.specs.Properties.{HasWritten, properties_data};
ghost use Rattle.qo_heap.specs.Rows.{IsLive};
ghost use Rattle.qo_commands.specs.Commands.{answered};
ghost use Rattle.qo_commands.specs.Views.{done_of};

use crate::commands::{Done, ReplyBody, refused, returned};
use qo_heap::{Oid, Steps};
use qo_realize::Board;
use qo_replies::PropertyList;
use qo_values::Text;
use std::alloc::{AllocError, Global};
use std::sync::ledger::Ledger;

/// The listing of the object at a path.
pub(crate) fn list<L: Ledger>(board: &Board, path: &str, steps: &mut Steps<L>) -> Done
    ensures { (b : Tree) → Stands b board.now → done_of b result ≡ answered b properties_data (listing_at b path.now) }
{
    match board.qom_list(path, steps) {
        Ok(birth) => returned(ReplyBody::Listing(birth)),
        Err(code) => refused(code),
    }
}

/// Writes the slots of an object into a list.
fn push_all<L: Ledger>(
    alloc: Global,
    board: &Board,
    o: Oid,
    list: &mut PropertyList,
    steps: &mut Steps<L>,
) -> Result<(), AllocError>
    requires { IsLive board.now.objects.rows o }
    ensures { (b : Tree) → Stands b board.now → HasWritten [] list.old → OnOk result (HasWritten (listing b o.birth) list.new) }
{
    let mut at = 0;
    while let Some((name, ty)) = board.property_at(o, at, steps) {
        list.push(alloc, name, ty)?;
        at += 1;
    }
    Ok(())
}

/// The text of the listing of the object of a birth, which is written slot by slot as the board shows
/// them. The error is want of memory.
pub fn listing_text<L: Ledger>(
    alloc: Global,
    board: &Board,
    birth: u64,
    steps: &mut Steps<L>,
) -> Result<Text, AllocError>
    ensures { (b : Tree) → Stands b board.now → IfOk result (λ text. text ≡ json (properties_data (listing b birth))) }
{
    let mut list = PropertyList::new(alloc)?;
    if let Some(o) = board.object(birth) {
        push_all(alloc, board, o, &mut list, steps)?;
    }
    list.into_text()
}
