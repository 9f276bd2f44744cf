//! The lines in the bytes of a guest.

ghost use Rattle.std.specs.Prelude.{◌≡◌, ◌∷◌, [], IfOk, OnOk};
ghost use Rattle.qo_commands.specs.Lines.{lines_of, lines_on, without_return};

use qo_values::{Chars, GUEST_LINE_MAX};
use std::alloc::{AllocError, Global};
use std::mem;

/// A line ends at a line feed.
const LINE_FEED: u8 = 10;

/// One carriage return before it is no part of the line.
const CARRIAGE_RETURN: u8 = 13;

/// Of a line no more bytes are kept: they tell that it is too long, even after a carriage return.
const KEPT_MAX: usize = GUEST_LINE_MAX as usize + 2;

/// Adds a byte to the front of an unfinished line, or ends that line.
fn add_byte(
    alloc: Global,
    lines: &mut Vec<Chars>,
    kept: &mut Vec<u8>,
    byte: u8,
) -> Result<(), AllocError>
    ensures { OnOk result (record { lines = lines.new.items; rest = kept.new.items } ≡ lines_on (record { lines = lines.old.items; rest = kept.old.items }) (byte ∷ [])) }
{
    if byte == LINE_FEED {
        let line = mem::replace(kept, Vec::new(alloc));
        lines.push(Chars::from_vec(line))?;
    } else if kept.len() < KEPT_MAX {
        kept.push(byte)?;
    }
    Ok(())
}

/// The lines that end in a piece of bytes, after the front that was kept of an unfinished one, each
/// without its line feed. The front after the piece is kept in its place, and of a line longer than
/// `GUEST_LINE_MAX` only so much that it is known for one. After an error the kept front is no matter.
pub fn cut_lines(alloc: Global, kept: &mut Vec<u8>, piece: &[u8]) -> Result<Vec<Chars>, AllocError>
    ensures lines { IfOk result (λ lines. lines.items ≡ (lines_of kept.old.items piece.now).lines) }
    ensures rest { OnOk result (kept.new.items ≡ (lines_of kept.old.items piece.now).rest) }
{
    let mut lines = Vec::new(alloc);
    for byte in piece {
        add_byte(alloc, &mut lines, kept, *byte)?;
    }
    Ok(lines)
}

/// A line without the one carriage return at its end, if it has one.
pub fn without_return(line: &[u8]) -> &[u8]
    ensures { result.now ≡ without_return line.now }
{
    let size = line.len();
    if size != 0 && line[size - 1] == CARRIAGE_RETURN {
        &line[..size - 1]
    } else {
        line
    }
}
