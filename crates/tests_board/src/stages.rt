//! What no clause says: that a device is added in stages where there is enough memory.
ghost use Rattle.std.specs.Prelude.{◌≡◌, ◌<◌};

use qo_heap::Steps;
use qo_plug::{AddRefusal, Added, DeviceOptions};
use qo_realize::{Board, Draft, NotAdded};
use qo_values::{BUS_SLOTS, Code, PropList, Text, Val};
use std::alloc::{AllocError, Global};
use std::marker::Brand;
use std::sync::ledger::{Blank, Ledger};
use std::test::Fail;

/// The bridges that fill the root bus, and the buses of all of them but the last.
const IDS: [&str; 8] = ["a", "b", "c", "d", "e", "f", "g", "h"];

const BUSES: [&str; 7] = [
    "a/bus.0", "b/bus.0", "c/bus.0", "d/bus.0", "e/bus.0", "f/bus.0", "g/bus.0",
];

/// A slot as the one property.
fn slot(at: u8, alloc: Global) -> Result<PropList, AllocError> {
    let mut props = PropList::new(alloc);
    let name = Text::from_string(String::from_str(alloc, "slot")?);
    match props.push(name, Val::Uint(u64::from(at))) {
        Ok(()) => Ok(props),
        Err(_) => Err(AllocError),
    }
}

/// A bridge that is asked for.
fn bridge<'a>(id: Option<&'a str>, bus: Option<&'a str>, props: &'a PropList) -> DeviceOptions<'a> {
    DeviceOptions {
        driver: "slot-bridge",
        id,
        bus,
        props,
    }
}

/// A bridge is begun, with an id.
fn begun<L: Ledger>(
    board: Board,
    id: &str,
    bus: Option<&str>,
    props: &PropList,
    alloc: Global,
    steps: &mut Steps<L>,
) -> Result<Draft, NotAdded> {
    board.begin(&bridge(Some(id), bus, props), alloc, steps)
}

/// The board after a refusal at a stage by a code.
fn refused(why: NotAdded, at: u8, by: Code) -> Result<Board, AddRefusal> {
    match why.refusal {
        AddRefusal::Refused { stage, code } if stage == at && code == by => Ok(why.board),
        refusal => Err(refusal),
    }
}

/// What a stage made, or what refused it, without the board.
fn passed<T>(stage: Result<T, NotAdded>) -> Result<T, AddRefusal> {
    match stage {
        Ok(made) => Ok(made),
        Err(why) => Err(why.refusal),
    }
}

/// On the opening board a bridge is begun and abandoned, and begun again, placed and finished.
fn added<L: Ledger>(alloc: Global, steps: &mut Steps<L>) -> Result<Added, AddRefusal> {
    let props = slot(3, alloc)?;
    let board = Board::start(alloc, steps)?;
    let board = passed(begun(board, "x", None, &props, alloc, steps))?.abandon(steps);
    let draft = passed(begun(board, "x", None, &props, alloc, steps))?;
    let plugged = passed(draft.place(alloc, steps))?;
    let (_board, added) = passed(plugged.finish(steps))?;
    Ok(added)
}

/// On the opening board one is refused as its id is none, and one as its slot is none.
fn refused_early<L: Ledger>(alloc: Global, steps: &mut Steps<L>) -> Result<Board, AddRefusal> {
    let props = slot(BUS_SLOTS, alloc)?;
    let board = Board::start(alloc, steps)?;
    let board = match begun(board, "", None, &props, alloc, steps) {
        Ok(draft) => draft.abandon(steps),
        Err(why) => refused(why, 2, Code::E23)?,
    };
    let draft = passed(begun(board, "x", None, &props, alloc, steps))?;
    match draft.place(alloc, steps) {
        Ok(plugged) => match plugged.finish(steps) {
            Ok(_) => Err(AddRefusal::Memory),
            Err(why) => Err(why.refusal),
        },
        Err(why) => refused(why, 5, Code::E28),
    }
}

/// As many bridges are added as notices may wait, on the root bus and on the buses there.
fn fill<L: Ledger>(
    board: &mut Board,
    alloc: Global,
    steps: &mut Steps<L>,
) -> Result<(), AddRefusal> {
    let props = PropList::new(alloc);
    for id in IDS {
        board.add(&bridge(Some(id), None, &props), alloc, steps)?;
    }
    for bus in BUSES {
        for _ in 0..BUS_SLOTS {
            board.add(&bridge(None, Some(bus), &props), alloc, steps)?;
        }
    }
    Ok(())
}

/// Then one is refused where it is finished.
fn refused_late<L: Ledger>(
    mut board: Board,
    alloc: Global,
    steps: &mut Steps<L>,
) -> Result<Board, AddRefusal> {
    fill(&mut board, alloc, steps)?;
    let props = slot(0, alloc)?;
    let draft = passed(begun(board, "x", Some("h/bus.0"), &props, alloc, steps))?;
    let plugged = passed(draft.place(alloc, steps))?;
    match plugged.finish(steps) {
        Ok((board, _added)) => Ok(board),
        Err(why) => refused(why, 8, Code::E44),
    }
}

/// Whether all of this comes.
fn staged<L: Ledger>(alloc: Global, blank: Blank) -> Result<bool, AddRefusal>
    requires name { blank.name ≡ L.name }
    requires parts { blank.parts ≡ L.parts }
    requires some { 0 < blank.parts }
{
    let mut steps = Steps::<L>::from_blank(blank);
    let added = added(alloc, &mut steps)?;
    let board = refused_early(alloc, &mut steps)?;
    let early = board.notes_total() == 12;
    let board = refused_late(board, alloc, &mut steps)?;
    let late = board.events().is_empty();
    let told = added.birth == 12
        && added.slot == 3
        && added.path.as_str() == "/machine/peripheral/x";
    Ok(told && early && late)
}

#[test]
fn a_bridge_is_added_in_stages(rt: HostRuntime) -> Result<(), Fail> {
    assert!(rt; staged::<Brand>(rt.alloc(), Blank::new(1))?);
    Ok(())
}
