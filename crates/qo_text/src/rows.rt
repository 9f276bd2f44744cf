//! Lines that are put to a text. The error of each call is want of memory.

ghost use Rattle.std.specs.Prelude.{◌≡◌, ◌++◌, [], string_bytes, replicate, OnOk};
ghost use Rattle.qo_text.specs.Buses.{line_in};

use std::alloc::AllocError;

/// Puts so many spaces to a text.
fn put_spaces(text: &mut String, spaces: usize) -> Result<(), AllocError>
    ensures { OnOk result (string_bytes text.new ≡ string_bytes text.old ++ replicate spaces 32) }
{
    for _space in 0..spaces {
        text.push(' ')?;
    }
    Ok(())
}

/// Puts a line of a word and a name to a text, so many spaces in.
pub(crate) fn put_line(
    text: &mut String,
    spaces: usize,
    word: &str,
    name: &str,
) -> Result<(), AllocError>
    ensures { OnOk result (string_bytes text.new ≡ string_bytes text.old ++ line_in spaces (word.now ++ name.now)) }
{
    put_spaces(text, spaces)?;
    text.push_str(word)?;
    text.push_str(name)?;
    text.push_str("\n")?;
    Ok(())
}

/// Puts two names to a text, so many spaces in, with what stands before, between and behind them.
pub(crate) fn put_names(
    text: &mut String,
    spaces: usize,
    front: &str,
    first: &str,
    between: &str,
    second: &str,
    back: &str,
) -> Result<(), AllocError>
    ensures { OnOk result (string_bytes text.new ≡ string_bytes text.old ++ (replicate spaces 32 ++ (front.now ++ (first.now ++ (between.now ++ (second.now ++ back.now)))))) }
{
    put_spaces(text, spaces)?;
    text.push_str(front)?;
    text.push_str(first)?;
    text.push_str(between)?;
    text.push_str(second)?;
    text.push_str(back)?;
    Ok(())
}
