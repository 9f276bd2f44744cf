//! What no clause says: lines and texts of the monitor that were written by hand, where there is enough
//! memory.
ghost use Rattle.std.specs.Prelude.{◌≡◌, ◌<◌};

use qo_heap::Steps;
use qo_plug::DeviceOptions;
use qo_properties::Refusal;
use qo_realize::Board;
use qo_text::{bus_tree, line_request, qom_tree};
use qo_values::{PropList, Text, Val};
use std::alloc::Global;
use std::marker::Brand;
use std::process::Abort;
use std::sync::ledger::{Blank, Ledger};
use std::test::Fail;

/// What each line asks for, written by hand.
const LINES: [(&str, &str); 9] = [
    ("info qom-tree", "Tree"),
    ("info qtree", "Bus"),
    ("info  qtree", "none"),
    ("system_reset", "Do(Alter(SystemReset))"),
    (
        "device_del u0",
        "Do(Alter(DeviceDel { id: Text { text: \"u0\" } }))",
    ),
    (
        "device_add slot-uart,slot=3,id=u0",
        "Do(Add(DeviceAdd { driver: Text { text: \"slot-uart\" }, id: Some(Text { text: \"u0\" }), bus: None, props: PropList { pairs: [(Text { text: \"slot\" }, Uint(3))] } }))",
    ),
    (
        "device_add tag,text=a,,b,bus=br/bus.0,flag=on,number=-7",
        "Do(Add(DeviceAdd { driver: Text { text: \"tag\" }, id: None, bus: Some(Text { text: \"br/bus.0\" }), props: PropList { pairs: [(Text { text: \"flag\" }, Bool(true)), (Text { text: \"number\" }, Int(-7)), (Text { text: \"text\" }, Text(Text { text: \"a,b\" }))] } }))",
    ),
    ("device_add slot-uart,id=a,id=b", "none"),
    ("device_add", "none"),
];

/// What `info qom-tree` tells of a board with a UART.
const TREE: &str =
    "/ (container)\n  /machine (machine)\n    /peripheral (container)\n      /u0 (slot-uart)\n        /clk (clock)\n    /peripheral-anon (container)\n    /sysclk (clock)\n    /root.0 (slot-bus)\n    /mem.0 (mem-bus)\n  /objects (container)\n";

/// What `info qtree` tells of it.
const BUSES: &str =
    "bus: root.0\n  type slot-bus\n  dev: slot-uart, id \"u0\"\nbus: mem.0\n  type mem-bus\n";

/// What a line asks for, in short.
fn told(alloc: Global, line: &str) -> Result<String, Fail> {
    Ok(match line_request(alloc, line)? {
        Some(asked) => format!(in alloc; "{asked:?}")?,
        None => String::from_str(alloc, "none")?,
    })
}

fn gives(rt: &impl Abort, alloc: Global, line: &str, want: &str) -> Result<(), Fail> {
    let given = told(alloc, line)?;
    assert!(rt; given.as_str() == want, "{line}: {given}");
    Ok(())
}

#[test]
fn lines_are_read(rt: HostRuntime) -> Result<(), Fail> {
    for (line, want) in &LINES {
        gives(&rt, rt.alloc(), line, want)?;
    }
    Ok(())
}

/// The property that puts a device into a slot.
fn in_slot(slot: u64, alloc: Global) -> Result<PropList, Refusal> {
    let name = Text::from_string(String::from_str(alloc, "slot")?);
    let mut props = PropList::new(alloc);
    match props.push(name, Val::Uint(slot)) {
        Ok(()) => Ok(props),
        Err(_) => Err(Refusal::Memory),
    }
}

/// Whether the texts on a board with a UART are those.
fn tells<L: Ledger>(alloc: Global, blank: Blank) -> Result<bool, Refusal>
    requires name { blank.name ≡ L.name }
    requires parts { blank.parts ≡ L.parts }
    requires some { 0 < blank.parts }
{
    let mut steps = Steps::<L>::from_blank(blank);
    let mut board = Board::start(alloc, &mut steps)?;
    let props = in_slot(3, alloc)?;
    let options = DeviceOptions {
        driver: "slot-uart",
        id: Some("u0"),
        bus: None,
        props: &props,
    };
    let added = board.add(&options, alloc, &mut steps).is_ok();
    let tree = qom_tree(board.heap(), alloc, &mut steps)?;
    let buses = bus_tree(board.heap(), alloc, &mut steps)?;
    Ok(added && tree.as_str() == TREE && buses.as_str() == BUSES)
}

#[test]
fn a_board_is_told(rt: HostRuntime) -> Result<(), Fail> {
    assert!(rt; tells::<Brand>(rt.alloc(), Blank::new(1))?);
    Ok(())
}
