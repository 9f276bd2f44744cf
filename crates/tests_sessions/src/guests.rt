//! Worked sessions in which the guest reads and writes registers at hardware addresses, and reads interrupt lines,
//! and of the text monitor, byte for byte through the top call. Expected texts are written out by hand.

use crate::objects::{add_row, gives, greeted, opening};
use std::alloc::Global;
use std::test::Fail;

/// Adds an entry of a line of the guest, and its answer.
fn add_line(
    alloc: Global,
    record: &mut Vec<u8>,
    want: &mut String,
    line: &str,
    answer: &str,
) -> Result<(), Fail> {
    let text = format!(in alloc; "{}\n", line)?;
    let head = format!(in alloc; "guest 1.000000 {}\n", text.len())?;
    record.extend_from_slice(head.as_bytes())?;
    record.extend_from_slice(text.as_bytes())?;
    record.push(b'\n')?;
    let answered = format!(in alloc; "g {}\n", answer)?;
    want.push_str(&answered)?;
    Ok(())
}

/// Adds an entry of a step of time, in ns, for which nothing is sent.
fn add_step(alloc: Global, record: &mut Vec<u8>, span: &str) -> Result<(), Fail> {
    let entry = format!(in alloc; "step 1.000000 {}\n", span)?;
    record.extend_from_slice(entry.as_bytes())?;
    Ok(())
}

/// Adds an input and what is sent for it: `guest` and a line, `step` and a span, or a command.
fn add_input(
    alloc: Global,
    record: &mut Vec<u8>,
    want: &mut String,
    input: &str,
    sent: &str,
) -> Result<(), Fail> {
    let Some((word, rest)) = input.split_once(" ") else {
        return add_row(alloc, record, want, input, sent);
    };
    match word {
        "guest" => add_line(alloc, record, want, rest, sent),
        "step" => add_step(alloc, record, rest),
        _ => add_row(alloc, record, want, input, sent),
    }
}

/// Whether inputs on a fresh board are answered so, in order.
fn holds(alloc: Global, rows: &[(&str, &str)]) -> Result<bool, Fail> {
    let mut record = opening(alloc)?;
    let mut want = greeted(alloc)?;
    for (input, sent) in rows {
        add_input(alloc, &mut record, &mut want, input, sent)?;
    }
    gives(alloc, record.as_slice(), want.as_bytes())
}

/// A UART and a DIMM, what shows at all addresses, and registers at theirs.
const SHOWN: [(&str, &str); 12] = [
    ("device_add {\"driver\":\"slot-uart\",\"id\":\"u0\"}", "R"),
    (
        "object-add {\"qom-type\":\"memory-backend-ram\",\"id\":\"mem0\",\"size\":1048576}",
        "R",
    ),
    (
        "device_add {\"driver\":\"mem-dimm\",\"id\":\"d0\",\"memdev\":\"/objects/mem0\"}",
        "R",
    ),
    (
        "x-memmap",
        "[{\"at\":0,\"name\":\"boot\",\"offset\":0,\"size\":65536},{\"at\":65536,\"name\":\"/machine/peripheral/d0\",\"offset\":65536,\"size\":983040},{\"at\":4294967296,\"name\":\"/machine/peripheral/d0\",\"offset\":0,\"size\":1048576},{\"at\":17592186044416,\"name\":\"/machine/peripheral/u0\",\"offset\":0,\"size\":4096}]",
    ),
    ("guest peek 0x100000000004", "ok 0x00000001"),
    ("guest peek 0x2", "no address"),
    ("guest peek 0x200000", "no address"),
    ("guest peek 0x0", "no register"),
    ("guest peek 0x100000000400", "no register"),
    ("guest poke 0x10000000000c 0x5", "ok"),
    ("guest read 0 3", "ok 0x00000005"),
    (
        "x-guest {\"line\":\"peek 0x10000000000C\"}",
        "{\"answer\":\"ok 0x00000005\"}",
    ),
];

#[test]
fn registers_show_at_their_addresses(rt: HostRuntime) -> Result<(), Fail> {
    assert!(rt; holds(rt.alloc(), &SHOWN)?);
    Ok(())
}

/// The lines of a UART, and of a bridge with a timer on its bus, which runs out every second tick.
const RAISED: [(&str, &str); 19] = [
    ("device_add {\"driver\":\"slot-uart\",\"id\":\"u0\"}", "R"),
    ("guest irq", "ok 0x00000000"),
    ("guest write 0 3 0x1", "ok"),
    ("guest irq", "ok 0x00000001"),
    (
        "device_add {\"driver\":\"slot-bridge\",\"id\":\"br\",\"slot\":1}",
        "R",
    ),
    (
        "device_add {\"driver\":\"slot-timer\",\"id\":\"t\",\"bus\":\"br/bus.0\"}",
        "R",
    ),
    ("guest write 1.0 1 0x1", "ok"),
    ("guest write 1.0 0 0x1", "ok"),
    ("guest irq", "ok 0x00000001"),
    ("step 10", ""),
    ("guest irq", "ok 0x00000003"),
    ("step 10", ""),
    ("guest irq", "ok 0x00000001"),
    ("step 10", ""),
    ("guest write 1 0 0x1", "ok"),
    ("guest irq", "ok 0x00000001"),
    (
        "x-guest {\"line\":\"irq\"}",
        "{\"answer\":\"ok 0x00000001\"}",
    ),
    ("guest irq 0", "no line"),
    ("guest peek 0x10000000000c", "ok 0x00000001"),
];

#[test]
fn interrupt_lines_rise_and_fall(rt: HostRuntime) -> Result<(), Fail> {
    assert!(rt; holds(rt.alloc(), &RAISED)?);
    Ok(())
}

/// Lines of the text monitor: what they do, and what they are told.
const MONITORED: [(&str, &str); 7] = [
    (
        "human-monitor-command {\"command-line\":\"info qom-tree\"}",
        "\"/ (container)\\n  /machine (machine)\\n    /peripheral (container)\\n    /peripheral-anon (container)\\n    /sysclk (clock)\\n    /root.0 (slot-bus)\\n    /mem.0 (mem-bus)\\n  /objects (container)\\n\"",
    ),
    (
        "human-monitor-command {\"command-line\":\"info  qtree\"}",
        "\"Error: line unreadable\\n\"",
    ),
    (
        "human-monitor-command {\"command-line\":\"device_add slot-uart,id=u0,slot=3\"}",
        "\"\"",
    ),
    (
        "human-monitor-command {\"command-line\":\"device_add slot-uart,id=u0,slot=3\"}",
        "\"Error: E24 id taken\\n\"",
    ),
    (
        "human-monitor-command {\"command-line\":\"info qtree\"}",
        "\"bus: root.0\\n  type slot-bus\\n  dev: slot-uart, id \\\"u0\\\"\\nbus: mem.0\\n  type mem-bus\\n\"",
    ),
    (
        "human-monitor-command {\"command-line\":\"device_del u0\"}",
        "\"\"",
    ),
    (
        "human-monitor-command {\"command-line\":\"device_del u0\"}",
        "\"Error: E34 removal pending\\n\"",
    ),
];

#[test]
fn monitor_is_told(rt: HostRuntime) -> Result<(), Fail> {
    assert!(rt; holds(rt.alloc(), &MONITORED)?);
    Ok(())
}

/// The opening board, a UART with a ring and a link to itself, and the same while it is to go.
const DESCRIBED: [(&str, &str); 7] = [
    (
        "x-describe",
        "{\"clock\":{\"div\":1,\"mul\":1,\"period\":42949672960},\"clocks\":[],\"devices\":[],\"links\":[],\"objects\":[],\"rings\":[],\"version\":1}",
    ),
    (
        "chardev-add {\"id\":\"r0\",\"backend\":{\"type\":\"ringbuf\",\"data\":{\"size\":16}}}",
        "R",
    ),
    (
        "device_add {\"driver\":\"slot-uart\",\"id\":\"u0\",\"chardev\":\"r0\"}",
        "R",
    ),
    (
        "qom-set {\"path\":\"/machine/peripheral/u0\",\"property\":\"peer\",\"value\":\"/machine/peripheral/u0\"}",
        "R",
    ),
    (
        "x-describe",
        "{\"clock\":{\"div\":1,\"mul\":1,\"period\":42949672960},\"clocks\":[],\"devices\":[{\"bus\":\"/machine/root.0\",\"driver\":\"slot-uart\",\"id\":\"u0\",\"props\":{\"chardev\":\"r0\"},\"slot\":0}],\"links\":[{\"path\":\"/machine/peripheral/u0\",\"property\":\"peer\",\"value\":\"/machine/peripheral/u0\"}],\"objects\":[],\"rings\":[{\"id\":\"r0\",\"size\":16}],\"version\":1}",
    ),
    ("device_del {\"id\":\"u0\"}", "R"),
    ("x-describe", "{}"),
];

#[test]
fn boards_are_described(rt: HostRuntime) -> Result<(), Fail> {
    assert!(rt; holds(rt.alloc(), &DESCRIBED)?);
    Ok(())
}

/// A bridge whose clock divides, a DIMM with its memory, a tag that names both, and what has no description: a
/// device without an id, and an object that a link alone holds.
const DESCRIBED_PARTS: [(&str, &str); 12] = [
    (
        "device_add {\"driver\":\"slot-bridge\",\"id\":\"br\",\"slot\":5}",
        "R",
    ),
    (
        "object-add {\"qom-type\":\"memory-backend-ram\",\"id\":\"m\",\"size\":8192}",
        "R",
    ),
    (
        "device_add {\"driver\":\"mem-dimm\",\"id\":\"d\",\"memdev\":\"/objects/m\"}",
        "R",
    ),
    (
        "object-add {\"qom-type\":\"tag\",\"id\":\"t\",\"text\":\"\u{e9}\",\"number\":-3,\"next\":\"/objects/m\"}",
        "R",
    ),
    (
        "qom-set {\"path\":\"/machine/peripheral/br/clk\",\"property\":\"div\",\"value\":2}",
        "R",
    ),
    (
        "x-describe",
        "{\"clock\":{\"div\":1,\"mul\":1,\"period\":42949672960},\"clocks\":[{\"div\":2,\"mul\":1,\"path\":\"/machine/peripheral/br/clk\"}],\"devices\":[{\"bus\":\"/machine/root.0\",\"driver\":\"slot-bridge\",\"id\":\"br\",\"props\":{},\"slot\":5},{\"bus\":\"/machine/mem.0\",\"driver\":\"mem-dimm\",\"id\":\"d\",\"props\":{\"addr\":4294967296,\"memdev\":\"/objects/m\"},\"slot\":0}],\"links\":[{\"path\":\"/objects/t\",\"property\":\"next\",\"value\":\"/objects/m\"}],\"objects\":[{\"id\":\"m\",\"props\":{\"size\":8192},\"type\":\"memory-backend-ram\"},{\"id\":\"t\",\"props\":{\"flag\":false,\"number\":-3,\"text\":\"\\u00e9\"},\"type\":\"tag\"}],\"rings\":[],\"version\":1}",
    ),
    ("object-add {\"qom-type\":\"tag\",\"id\":\"s\"}", "R"),
    (
        "qom-set {\"path\":\"/objects/t\",\"property\":\"next\",\"value\":\"/objects/s\"}",
        "R",
    ),
    ("object-del {\"id\":\"s\"}", "R"),
    ("x-describe", "{}"),
    ("device_add {\"driver\":\"slot-timer\"}", "R"),
    ("x-describe", "{}"),
];

#[test]
fn parts_of_boards_are_described(rt: HostRuntime) -> Result<(), Fail> {
    assert!(rt; holds(rt.alloc(), &DESCRIBED_PARTS)?);
    Ok(())
}
