//! What no clause says: that the interrupt lines of a board are made where there is enough memory. The numbers were
//! written by hand.
ghost use Rattle.std.specs.Prelude.{◌≡◌, ◌<◌};

use qo_heap::Steps;
use qo_layout::Lines;
use qo_plug::{AddRefusal, Added, DeviceOptions};
use qo_realize::Board;
use qo_values::PropList;
use std::alloc::Global;
use std::marker::Brand;
use std::sync::ledger::{Blank, Ledger};
use std::test::Fail;

/// Adds a device, and answers its birth.
fn plug<L: Ledger>(
    board: &mut Board,
    driver: &str,
    id: &str,
    bus: Option<&str>,
    alloc: Global,
    steps: &mut Steps<L>,
) -> Result<u64, AddRefusal> {
    let props = PropList::new(alloc);
    let options = DeviceOptions {
        driver,
        id: Some(id),
        bus,
        props: &props,
    };
    let Added { birth, .. } = board.add(&options, alloc, steps)?;
    Ok(birth)
}

/// Writes to a register of the device of a birth, and answers whether it has that register.
fn write<L: Ledger>(
    board: &mut Board,
    birth: u64,
    reg: u8,
    value: u32,
    steps: &mut Steps<L>,
) -> bool {
    match board.object(birth) {
        Some(dev) => board.guest_write(dev, reg, value, steps).is_some(),
        None => false,
    }
}

/// The interrupt lines of a board.
fn lines<L: Ledger>(
    board: &Board,
    alloc: Global,
    steps: &mut Steps<L>,
) -> Result<Lines, AddRefusal> {
    board.reveal_board();
    match Lines::make(alloc, board.heap(), steps) {
        Ok(lines) => Ok(lines),
        Err(_) => Err(AddRefusal::Memory),
    }
}

/// Reads the registers again, and answers the number of the lines.
fn irq<L: Ledger>(lines: &mut Lines, board: &Board, steps: &mut Steps<L>) -> u32 {
    board.reveal_board();
    lines.refresh(board.heap(), steps);
    lines.irq()
}

/// Adds a UART, and answers whether its line rises where its SCRATCH is written.
fn uart_rises<L: Ledger>(
    board: &mut Board,
    alloc: Global,
    steps: &mut Steps<L>,
) -> Result<bool, AddRefusal> {
    let uart = plug(board, "slot-uart", "u0", None, alloc, steps)?;
    let quiet = lines(board, alloc, steps)?.irq() == 0;
    let written = write(board, uart, 3, 1, steps);
    let asked = lines(board, alloc, steps)?.irq() == 1;
    Ok(quiet && written && asked)
}

/// Writes 1 to the timer's RELOAD, and begins it.
fn begin<L: Ledger>(board: &mut Board, timer: u64, steps: &mut Steps<L>) -> bool {
    write(board, timer, 1, 1, steps) && write(board, timer, 0, 1, steps)
}

/// Lets 10 ns go by, and answers the number of the lines then.
fn after_ten<L: Ledger>(board: &mut Board, kept: &mut Lines, steps: &mut Steps<L>) -> Option<u32> {
    board.advance(10).ok()?;
    Some(irq(kept, board, steps))
}

/// Adds a bridge and a timer behind it, and answers whether the timer's line rises where it has counted down, and falls
/// where the bridge hides it.
fn timer_rises<L: Ledger>(
    board: &mut Board,
    alloc: Global,
    steps: &mut Steps<L>,
) -> Result<bool, AddRefusal> {
    let bridge = plug(board, "slot-bridge", "br", None, alloc, steps)?;
    let timer = plug(board, "slot-timer", "t", Some("br/bus.0"), alloc, steps)?;
    let mut kept = lines(board, alloc, steps)?;
    let begun = begin(board, timer, steps) && irq(&mut kept, board, steps) == 1;
    let on = after_ten(board, &mut kept, steps) == Some(3);
    let off = after_ten(board, &mut kept, steps) == Some(1);
    let gone = board.advance(10).is_ok() && write(board, bridge, 0, 1, steps);
    let hidden = irq(&mut kept, board, steps) == 1;
    Ok(begun && on && off && gone && hidden)
}

/// Whether the lines of a UART and of a timer behind a bridge rise and fall.
fn rise_and_fall<L: Ledger>(alloc: Global, blank: Blank) -> Result<bool, AddRefusal>
    requires name { blank.name ≡ L.name }
    requires parts { blank.parts ≡ L.parts }
    requires some { 0 < blank.parts }
{
    let mut steps = Steps::<L>::from_blank(blank);
    let mut board = Board::start(alloc, &mut steps)?;
    let uart = uart_rises(&mut board, alloc, &mut steps)?;
    let timer = timer_rises(&mut board, alloc, &mut steps)?;
    Ok(uart && timer)
}

#[test]
fn lines_rise_and_fall(rt: HostRuntime) -> Result<(), Fail> {
    assert!(rt; rise_and_fall::<Brand>(rt.alloc(), Blank::new(1))?);
    Ok(())
}
