//! What no clause says: that commands are answered where there is enough memory. What they tell is
//! compared with texts written by hand.
ghost use Rattle.std.specs.Prelude.{◌≡◌, ◌<◌};

use qo_commands::{Done, ReplyBody, ask, change, interrupt_lines, listing_text, no_view};
use qo_heap::Steps;
use qo_realize::Board;
use qo_requests::{Addition, Alteration, Change, Query};
use qo_values::{Code, PropList, Text, Val};
use std::alloc::{AllocError, Global};
use std::marker::Brand;
use std::sync::ledger::{Blank, Ledger};
use std::test::Fail;

/// A text of a request.
fn text(alloc: Global, of: &str) -> Result<Text, AllocError> {
    Ok(Text::from_string(String::from_str(alloc, of)?))
}

/// Whether a command tells this.
fn tells<L: Ledger>(
    alloc: Global,
    board: &Board,
    query: &Query,
    want: &str,
    steps: &mut Steps<L>,
) -> Result<bool, AllocError> {
    let Done {
        result,
        event: _,
        ends: _,
        touched: _,
    } = ask(alloc, board, query, steps)?;
    match result {
        Ok(ReplyBody::Value(whole)) => Ok(whole.value().to_string(alloc)?.as_str() == want),
        _ => Ok(false),
    }
}

/// Whether a listing has one property, the text `type`.
fn lists_type<L: Ledger>(
    alloc: Global,
    board: &Board,
    query: &Query,
    steps: &mut Steps<L>,
) -> Result<bool, AllocError> {
    let Done {
        result,
        event: _,
        ends: _,
        touched: _,
    } = ask(alloc, board, query, steps)?;
    let Ok(ReplyBody::Listing(birth)) = result else {
        return Ok(false);
    };
    let listed = listing_text(alloc, board, birth, steps)?;
    Ok(listed.as_str() == "[{\"name\":\"type\",\"type\":\"string\"}]")
}

/// Whether the users' objects are listed.
fn lists_objects<L: Ledger>(
    alloc: Global,
    board: &Board,
    steps: &mut Steps<L>,
) -> Result<bool, AllocError> {
    let path = text(alloc, "/objects")?;
    lists_type(alloc, board, &Query::QomList { path }, steps)
}

/// Whether the period of the system clock is told.
fn tells_period<L: Ledger>(
    alloc: Global,
    board: &Board,
    steps: &mut Steps<L>,
) -> Result<bool, AllocError> {
    let path = text(alloc, "sysclk")?;
    let property = text(alloc, "period")?;
    let read = Query::QomGet { path, property };
    tells(alloc, board, &read, "42949672960", steps)
}

/// Whether no note is told.
fn tells_no_note<L: Ledger>(
    alloc: Global,
    board: &Board,
    steps: &mut Steps<L>,
) -> Result<bool, AllocError> {
    let read = Query::XQueryNotes { from: 7 };
    tells(
        alloc,
        board,
        &read,
        "{\"first\":0,\"notes\":[],\"total\":0}",
        steps,
    )
}

/// Whether the map is told.
fn tells_map<L: Ledger>(
    alloc: Global,
    board: &Board,
    steps: &mut Steps<L>,
) -> Result<bool, AllocError> {
    tells(
        alloc,
        board,
        &Query::XMemmap,
        "[{\"at\":0,\"name\":\"boot\",\"offset\":0,\"size\":65536}]",
        steps,
    )
}

/// Whether the description of the opening board is told.
fn tells_description<L: Ledger>(
    alloc: Global,
    board: &Board,
    steps: &mut Steps<L>,
) -> Result<bool, AllocError> {
    tells(
        alloc,
        board,
        &Query::XDescribe,
        "{\"clock\":{\"div\":1,\"mul\":1,\"period\":42949672960},\"clocks\":[],\"devices\":[],\"links\":[],\"objects\":[],\"rings\":[],\"version\":1}",
        steps,
    )
}

/// Whether the opening board is read.
fn reads<L: Ledger>(alloc: Global, blank: Blank) -> Result<bool, AllocError>
    requires name { blank.name ≡ L.name }
    requires parts { blank.parts ≡ L.parts }
    requires some { 0 < blank.parts }
{
    let mut steps = Steps::<L>::from_blank(blank);
    let board = Board::start(alloc, &mut steps)?;
    let is_listed = lists_objects(alloc, &board, &mut steps)?;
    let is_timed = tells_period(alloc, &board, &mut steps)?;
    let is_quiet = tells_no_note(alloc, &board, &mut steps)?;
    let is_attached = tells(alloc, &board, &Query::XQueryDetached, "[]", &mut steps)?;
    let is_mapped = tells_map(alloc, &board, &mut steps)?;
    let is_described = tells_description(alloc, &board, &mut steps)?;
    Ok(is_listed && is_timed && is_quiet && is_attached && is_mapped && is_described)
}

#[test]
fn the_opening_board_is_read(rt: HostRuntime) -> Result<(), Fail> {
    assert!(rt; reads::<Brand>(rt.alloc(), Blank::new(1))?);
    Ok(())
}

/// What a change is refused with, or nothing.
fn answer<L: Ledger>(
    alloc: Global,
    board: &mut Board,
    wanted: &Change,
    steps: &mut Steps<L>,
) -> Result<Option<Code>, AllocError> {
    let lines = interrupt_lines(alloc, board, steps)?;
    let mut view = no_view();
    let Done {
        result,
        event: _,
        ends: _,
        touched: _,
    } = change(alloc, board, &lines, &mut view, wanted, steps)?;
    Ok(result.err())
}

/// Adds a tag `t`.
fn adds<L: Ledger>(
    alloc: Global,
    board: &mut Board,
    steps: &mut Steps<L>,
) -> Result<Option<Code>, AllocError> {
    let driver = text(alloc, "tag")?;
    let id = text(alloc, "t")?;
    let props = PropList::new(alloc);
    answer(
        alloc,
        board,
        &Change::Add(Addition::ObjectAdd { driver, id, props }),
        steps,
    )
}

/// Writes the text of the tag.
fn writes<L: Ledger>(
    alloc: Global,
    board: &mut Board,
    steps: &mut Steps<L>,
) -> Result<Option<Code>, AllocError> {
    let path = text(alloc, "/objects/t")?;
    let property = text(alloc, "text")?;
    let value = Val::Text(text(alloc, "seen")?);
    let written = Change::Alter(Alteration::QomSet {
        path,
        property,
        value,
    });
    answer(alloc, board, &written, steps)
}

/// Whether the text of the tag is read.
fn reads_text<L: Ledger>(
    alloc: Global,
    board: &Board,
    steps: &mut Steps<L>,
) -> Result<bool, AllocError> {
    let path = text(alloc, "t")?;
    let property = text(alloc, "text")?;
    let read = Query::QomGet { path, property };
    tells(alloc, board, &read, "\"seen\"", steps)
}

/// Removes the tag.
fn removes<L: Ledger>(
    alloc: Global,
    board: &mut Board,
    steps: &mut Steps<L>,
) -> Result<Option<Code>, AllocError> {
    let id = text(alloc, "t")?;
    answer(
        alloc,
        board,
        &Change::Alter(Alteration::ObjectDel { id }),
        steps,
    )
}

/// Whether the last note on the tag is told.
fn tells_end<L: Ledger>(
    alloc: Global,
    board: &Board,
    steps: &mut Steps<L>,
) -> Result<bool, AllocError> {
    tells(
        alloc,
        board,
        &Query::XQueryNotes { from: 1 },
        "{\"first\":1,\"notes\":[\"final 9 tag\"],\"total\":2}",
        steps,
    )
}

/// Severs what is not there.
fn severs<L: Ledger>(
    alloc: Global,
    board: &mut Board,
    steps: &mut Steps<L>,
) -> Result<Option<Code>, AllocError> {
    answer(
        alloc,
        board,
        &Change::Alter(Alteration::XSever { birth: 9 }),
        steps,
    )
}

/// Whether a tag is added, written, read and removed, and is not there to be severed.
fn changes<L: Ledger>(alloc: Global, blank: Blank) -> Result<bool, AllocError>
    requires name { blank.name ≡ L.name }
    requires parts { blank.parts ≡ L.parts }
    requires some { 0 < blank.parts }
{
    let mut steps = Steps::<L>::from_blank(blank);
    let mut board = Board::start(alloc, &mut steps)?;
    let is_added = adds(alloc, &mut board, &mut steps)?.is_none();
    let is_written = writes(alloc, &mut board, &mut steps)?.is_none();
    let is_read = reads_text(alloc, &board, &mut steps)?;
    let is_removed = removes(alloc, &mut board, &mut steps)?.is_none();
    let is_noted = tells_end(alloc, &board, &mut steps)?;
    let is_gone = severs(alloc, &mut board, &mut steps)? == Some(Code::E33);
    Ok(is_added && is_written && is_read && is_removed && is_noted && is_gone)
}

#[test]
fn a_tag_comes_and_goes(rt: HostRuntime) -> Result<(), Fail> {
    assert!(rt; changes::<Brand>(rt.alloc(), Blank::new(1))?);
    Ok(())
}
