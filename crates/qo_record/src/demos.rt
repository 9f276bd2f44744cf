//! The demo record: a recorded stream that is made of a seed.

ghost use Rattle.std.specs.Prelude.{◌≡◌, ◌<◌, ◌+◌, ◌%◌, ◌∷◌, [], ◌++◌, decimal, IfOk, OnOk};
ghost use Rattle.qo_causes.specs.declared.inputs.What.TheVariants as What;
ghost use Rattle.qo_record.specs.Demo.{at_second, demo_bytes, demo_start, demo_step, demo_what, drawn, next_number, numbered, numbered_all, plugging, unplugging, with_number};
ghost use Rattle.qo_record.specs.Names.{header_of};
ghost use Rattle.qo_record.specs.Spelling.{entries_text, entry_text, moment_text, piece_text};

use crate::versions::{Version, header_of};
use itoa::Buffer;
use std::alloc::{AllocError, Global};

/// The numbers that follow each other from a seed on.
#[derive(Drop)]
struct Draws {
    number: u64,
}

impl Draws {
    /// The next draw, modulo 8.
    fn below_eight(&mut self) -> u64
        ensures number { self.new.number ≡ next_number self.old.number }
        ensures drawn { result ≡ drawn self.new.number % 8 }
    {
        self.number = self
            .number
            .wrapping_mul(6_364_136_223_846_793_005)
            .wrapping_add(1_442_695_040_888_963_407);
        (self.number >> 33) % 8
    }
}

/// Adds a number in digits.
fn add_number(stream: &mut Vec<u8>, number: u64) -> Result<(), AllocError>
    ensures { OnOk result (stream.new.items ≡ stream.old.items ++ decimal number) }
{
    let mut digits = Buffer::new();
    stream.extend_from_slice(digits.format(number).as_bytes())
}

/// A text with a number in it.
fn with_number(
    alloc: Global,
    before: &[u8],
    number: u64,
    after: &[u8],
) -> Result<Vec<u8>, AllocError>
    ensures { IfOk result (λ text. text.items ≡ with_number before.now number after.now) }
{
    let mut text = Vec::from_slice(alloc, before)?;
    add_number(&mut text, number)?;
    text.extend_from_slice(after)?;
    Ok(text)
}

/// The command that plugs a device of a driver.
fn plugging(alloc: Global, driver: &[u8], number: u64) -> Result<Vec<u8>, AllocError>
    ensures { IfOk result (λ text. text.items ≡ plugging driver.now number) }
{
    let head = b"{\"execute\":\"device_add\",\"arguments\":{\"driver\":\"";
    let id = with_number(alloc, b"\",\"id\":\"d", number, b"\",\"slot\":")?;
    let slot = with_number(alloc, b"", number, b"}}\n")?;
    let mut text = Vec::from_slice(alloc, head)?;
    text.extend_from_slice(driver)?;
    text.extend_from_slice(&id)?;
    text.extend_from_slice(&slot)?;
    Ok(text)
}

/// Adds the word of an entry with its space, and its moment, which is a whole second.
fn add_start(stream: &mut Vec<u8>, word: &[u8], second: u64) -> Result<(), AllocError>
    ensures { OnOk result (stream.new.items ≡ stream.old.items ++ (word.now ++ (moment_text (record { seconds = second; micros = 0 }) ++ 32 ∷ []))) }
{
    stream.extend_from_slice(word)?;
    add_number(stream, second)?;
    stream.extend_from_slice(b".000000 ")
}

/// Adds bytes after their number.
fn add_piece(stream: &mut Vec<u8>, piece: &[u8]) -> Result<(), AllocError>
    ensures { OnOk result (stream.new.items ≡ stream.old.items ++ piece_text piece.now) }
{
    add_number(stream, piece.len() as u64)?;
    stream.push(b'\n')?;
    stream.extend_from_slice(piece)?;
    stream.push(b'\n')?;
    Ok(())
}

/// Adds the entry that opens session 0.
fn add_opening(stream: &mut Vec<u8>, second: u64) -> Result<(), AllocError>
    ensures { OnOk result (stream.new.items ≡ stream.old.items ++ entry_text (numbered (at_second second (What.Open 0)))) }
{
    add_start(stream, b"open ", second)?;
    stream.extend_from_slice(b"0\n")
}

/// Adds an entry of bytes of session 0.
fn add_bytes(stream: &mut Vec<u8>, second: u64, piece: &[u8]) -> Result<(), AllocError>
    ensures { OnOk result (stream.new.items ≡ stream.old.items ++ entry_text (numbered (at_second second (What.Bytes 0 piece.now)))) }
{
    add_start(stream, b"bytes ", second)?;
    stream.extend_from_slice(b"0 ")?;
    add_piece(stream, piece)
}

/// Adds an entry of the guest.
fn add_guest(stream: &mut Vec<u8>, second: u64, piece: &[u8]) -> Result<(), AllocError>
    ensures { OnOk result (stream.new.items ≡ stream.old.items ++ entry_text (numbered (at_second second (What.Guest piece.now)))) }
{
    add_start(stream, b"guest ", second)?;
    add_piece(stream, piece)
}

/// Adds an entry by which time goes on.
fn add_time(stream: &mut Vec<u8>, second: u64, nanos: u64) -> Result<(), AllocError>
    ensures { OnOk result (stream.new.items ≡ stream.old.items ++ entry_text (numbered (at_second second (What.Step nanos)))) }
{
    add_start(stream, b"step ", second)?;
    add_number(stream, nanos)?;
    stream.push(b'\n')?;
    Ok(())
}

/// Adds the entry in which session 0 plugs a device of a driver.
fn add_plugging(
    alloc: Global,
    stream: &mut Vec<u8>,
    second: u64,
    driver: &[u8],
    number: u64,
) -> Result<(), AllocError>
    ensures { OnOk result (stream.new.items ≡ stream.old.items ++ entry_text (numbered (at_second second (What.Bytes 0 (plugging driver.now number))))) }
{
    let text = plugging(alloc, driver, number)?;
    add_bytes(stream, second, &text)
}

/// Adds an entry of the guest that is a text with a number in it.
fn add_line(
    alloc: Global,
    stream: &mut Vec<u8>,
    second: u64,
    before: &[u8],
    number: u64,
    after: &[u8],
) -> Result<(), AllocError>
    ensures { OnOk result (stream.new.items ≡ stream.old.items ++ entry_text (numbered (at_second second (What.Guest (with_number before.now number after.now))))) }
{
    let text = with_number(alloc, before, number, after)?;
    add_guest(stream, second, &text)
}

/// Adds the entry in which session 0 unplugs a device.
fn add_unplugging(
    alloc: Global,
    stream: &mut Vec<u8>,
    second: u64,
    number: u64,
) -> Result<(), AllocError>
    ensures { OnOk result (stream.new.items ≡ stream.old.items ++ entry_text (numbered (at_second second (What.Bytes 0 (unplugging number))))) }
{
    let before = b"{\"execute\":\"device_del\",\"arguments\":{\"id\":\"d";
    let text = with_number(alloc, before, number, b"\"}}\n")?;
    add_bytes(stream, second, &text)
}

/// Adds the entry of a step, by its two draws.
fn add_entry(
    alloc: Global,
    stream: &mut Vec<u8>,
    second: u64,
    kind: u64,
    number: u64,
) -> Result<(), AllocError>
    requires { number < 8 }
    ensures { OnOk result (stream.new.items ≡ stream.old.items ++ entry_text (numbered (at_second second (demo_what kind number)))) }
{
    match kind {
        0 => add_plugging(alloc, stream, second, b"slot-uart", number),
        1 => add_plugging(alloc, stream, second, b"slot-timer", number),
        2 => add_unplugging(alloc, stream, second, number),
        3 => add_line(alloc, stream, second, b"ack ", number, b"\n"),
        4 => add_line(alloc, stream, second, b"nack ", number, b"\n"),
        5 => add_line(alloc, stream, second, b"write ", number, b" 1 0x10\n"),
        6 => add_time(stream, second, 1_000 * (number + 1)),
        _ => {
            if number == 0 {
                add_bytes(stream, second, b"{\"execute\":\"system_reset\"}\n")
            } else {
                add_guest(stream, second, b"poll\n")
            }
        }
    }
}

/// Adds the entry of the next step.
fn add_step(
    alloc: Global,
    stream: &mut Vec<u8>,
    second: u64,
    draws: &mut Draws,
) -> Result<(), AllocError>
    ensures entry { OnOk result (stream.new.items ≡ stream.old.items ++ entry_text (numbered (demo_step draws.old.number second))) }
    ensures draws { draws.new.number ≡ next_number (next_number draws.old.number) }
{
    let kind = draws.below_eight();
    let number = draws.below_eight();
    add_entry(alloc, stream, second, kind, number)
}

/// The entries by which session 0 opens and negotiates, after the header.
fn started(alloc: Global) -> Result<Vec<u8>, AllocError>
    ensures { IfOk result (λ stream. stream.items ≡ header_of Version.One ++ entries_text (numbered_all demo_start)) }
{
    let mut stream = Vec::from_slice(alloc, header_of(Version::One))?;
    add_opening(&mut stream, 0)?;
    add_bytes(&mut stream, 0, b"{\"execute\":\"qmp_capabilities\"}\n")?;
    Ok(stream)
}

/// The demo record of a seed, with so many steps after the opening and the negotiation of session 0.
///
/// Each step stands at a whole second, the first at 1, and takes two draws modulo 8: what it does, and a number. It
/// plugs or unplugs a device, resets the machine, lets time go on, or is a line of the guest. The memory is that of the
/// record, which is of the first version.
pub fn demo_record(alloc: Global, seed: u64, steps: u32) -> Result<Vec<u8>, AllocError>
    ensures { IfOk result (λ stream. stream.items ≡ demo_bytes seed steps) }
{
    let mut stream = started(alloc)?;
    let mut draws = Draws { number: seed };
    for step in 0..steps {
        add_step(alloc, &mut stream, u64::from(step) + 1, &mut draws)?;
    }
    Ok(stream)
}
