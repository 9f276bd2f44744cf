//! What no clause says: that the calls on a board succeed where there is enough memory. What they
//! give and leave is said by their clauses.
ghost use Rattle.std.specs.Prelude.{◌≡◌, ◌<◌};

use qo_heap::Steps;
use qo_properties::Refusal;
use qo_realize::Board;
use qo_values::{Code, PropList, Text, Val};
use std::alloc::Global;
use std::marker::Brand;
use std::sync::ledger::{Blank, Ledger};
use std::test::Fail;

/// A text as a value.
fn text(of: &str, alloc: Global) -> Result<Val, Refusal> {
    Ok(Val::Text(Text::from_string(String::from_str(alloc, of)?)))
}

/// One property with a text.
fn one(name: &str, of: &str, alloc: Global) -> Result<PropList, Refusal> {
    let name = Text::from_string(String::from_str(alloc, name)?);
    let val = text(of, alloc)?;
    let mut props = PropList::new(alloc);
    match props.push(name, val) {
        Ok(()) => Ok(props),
        Err(_) => Err(Refusal::Memory),
    }
}

/// Whether a property that a tag does not have is refused, after an attempt.
fn refuses<L: Ledger>(
    board: &mut Board,
    alloc: Global,
    steps: &mut Steps<L>,
) -> Result<bool, Refusal> {
    let colour = one("colour", "red", alloc)?;
    let refused = board.object_add("tag", "b", &colour, alloc, steps);
    Ok(matches!(refused, Err(Refusal::Refused(Code::E17))))
}

/// Adds a tag that holds itself, and answers whether its text is read.
fn ties<L: Ledger>(
    board: &mut Board,
    alloc: Global,
    steps: &mut Steps<L>,
) -> Result<bool, Refusal> {
    board.object_add("tag", "a", &one("text", "first", alloc)?, alloc, steps)?;
    board.qom_set("a", "next", &text("a", alloc)?, alloc, steps)?;
    let read = board.qom_get("a", "text", alloc, steps)?;
    Ok(matches!(read, Val::Text(_)))
}

/// Whether the tag is removed, is detached then, and is severed.
fn ends<L: Ledger>(
    board: &mut Board,
    alloc: Global,
    steps: &mut Steps<L>,
) -> Result<bool, Refusal> {
    let removed = board.object_del("a", steps).is_ok();
    let detached = board.detached(alloc, steps)?.len() == 1;
    let severed = board.sever(9, steps).is_ok();
    Ok(removed && detached && severed)
}

/// Whether a tag is added, read, listed, written, removed and severed; it holds itself meanwhile.
fn call_all<L: Ledger>(alloc: Global, blank: Blank) -> Result<bool, Refusal>
    requires name { blank.name ≡ L.name }
    requires parts { blank.parts ≡ L.parts }
    requires some { 0 < blank.parts }
{
    let mut steps = Steps::<L>::from_blank(blank);
    let mut board = Board::start(alloc, &mut steps)?;
    let tied = ties(&mut board, alloc, &mut steps)?;
    let listed = matches!(board.qom_list("a", &mut steps), Ok(9));
    let refused = refuses(&mut board, alloc, &mut steps)?;
    let ended = ends(&mut board, alloc, &mut steps)?;
    let noted = board.notes(board.notes_first(0), alloc)?.len() == 4;
    Ok(tied && listed && refused && ended && noted)
}

#[test]
fn calls_succeed(rt: HostRuntime) -> Result<(), Fail> {
    assert!(rt; call_all::<Brand>(rt.alloc(), Blank::new(1))?);
    Ok(())
}
