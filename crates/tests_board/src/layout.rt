//! What no clause says: that the memory map of a board is made where there is enough memory.
ghost use Rattle.std.specs.Prelude.{◌≡◌, ◌<◌};

use qo_heap::Steps;
use qo_layout::{BOOT_LEAF, BOOT_SIZE, DEVICE_SIZE, MEMORY_AT, SLOTS_AT, memory_map};
use qo_memmap::{MapError, Span};
use qo_plug::{AddRefusal, Added, DeviceOptions};
use qo_properties::Refusal;
use qo_realize::Board;
use qo_values::{PropList, Text, Val};
use std::alloc::{AllocError, Global};
use std::marker::Brand;
use std::sync::ledger::{Blank, Ledger};
use std::test::Fail;

/// Bytes of the memory backend.
const SIZE: u64 = 1_048_576;

/// One property.
fn property(name: &str, val: Val, alloc: Global) -> Result<PropList, AllocError> {
    let mut props = PropList::new(alloc);
    match props.push(Text::from_string(String::from_str(alloc, name)?), val) {
        Ok(()) => Ok(props),
        Err(_) => Err(AllocError),
    }
}

/// A device of a type is added with these properties; its birth, or nothing where it is refused.
fn device<'x, L: Ledger>(
    board: &mut Board,
    driver: &'x str,
    props: &'x PropList,
    alloc: Global,
    steps: &mut Steps<L>,
) -> Result<Option<u64>, AllocError> {
    let options = DeviceOptions {
        driver,
        id: None,
        bus: None,
        props,
    };
    match board.add(&options, alloc, steps) {
        Ok(Added { birth, .. }) => Ok(Some(birth)),
        Err(AddRefusal::Refused { .. }) => Ok(None),
        Err(AddRefusal::Memory) => Err(AllocError),
    }
}

/// A memory backend is made; whether it was.
fn backend<L: Ledger>(
    board: &mut Board,
    alloc: Global,
    steps: &mut Steps<L>,
) -> Result<bool, AllocError> {
    let size = property("size", Val::Uint(SIZE), alloc)?;
    match board.object_add("memory-backend-ram", "m0", &size, alloc, steps) {
        Ok(()) => Ok(true),
        Err(Refusal::Refused(_)) => Ok(false),
        Err(Refusal::Memory) => Err(AllocError),
    }
}

/// A span.
fn span(at: u64, size: u64, leaf: u64, offset: u64) -> Span {
    Span {
        at,
        size,
        leaf,
        offset,
    }
}

/// On a board with a DIMM and a UART the DIMM shows in the window and from address 0 on, but where the
/// board boots from; the UART shows at its slot.
fn mapped<L: Ledger>(alloc: Global, blank: Blank) -> Result<bool, MapError>
    requires name { blank.name ≡ L.name }
    requires parts { blank.parts ≡ L.parts }
    requires some { 0 < blank.parts }
{
    let mut steps = Steps::<L>::from_blank(blank);
    let mut board = Board::start(alloc, &mut steps)?;
    let made = backend(&mut board, alloc, &mut steps)?;
    let text = Val::Text(Text::from_string(String::from_str(alloc, "m0")?));
    let memdev = property("memdev", text, alloc)?;
    let slot = property("slot", Val::Uint(0), alloc)?;
    let dimm = device(&mut board, "mem-dimm", &memdev, alloc, &mut steps)?;
    let uart = device(&mut board, "slot-uart", &slot, alloc, &mut steps)?;
    let (Some(dimm), Some(uart)) = (dimm, uart) else {
        return Ok(false);
    };
    let mapped = memory_map(alloc, board.heap(), &mut steps)?;
    let spans = mapped.map.flat(alloc, mapped.root)?;
    let wanted = [
        span(0, BOOT_SIZE, BOOT_LEAF, 0),
        span(BOOT_SIZE, SIZE - BOOT_SIZE, dimm, BOOT_SIZE),
        span(MEMORY_AT, SIZE, dimm, 0),
        span(SLOTS_AT, DEVICE_SIZE, uart, 0),
    ];
    Ok(made && spans.as_slice() == wanted.as_slice())
}

#[test]
fn a_board_has_its_map(rt: HostRuntime) -> Result<(), Fail> {
    assert!(rt; mapped::<Brand>(rt.alloc(), Blank::new(1))?);
    Ok(())
}
