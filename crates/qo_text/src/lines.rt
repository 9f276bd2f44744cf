//! The lines of the monitor (QEMU's hmp-commands.hx, hmp-commands-info.hx; docs/PROFILE.md, monitor
//! lines). The error of each call is want of memory.

ghost use Rattle.std.specs.Prelude.{◌≡◌, IfOk, option_map};
ghost use Rattle.qo_values.specs.PropertyLists.{NamesRise};
ghost use Rattle.qo_text.specs.Joined.{keys_of};
ghost use Rattle.qo_text.specs.Lines.{adding, addition_in, addition_of, argued, behind, deletion_in, is_driver, line_of};

use crate::options::{holds, options, parts, properties, text_of};
use qo_requests::{Addition, Alteration, Change};
use qo_values::Text;
use std::alloc::{AllocError, Global};

/// What a line of the monitor asks for.
#[derive(Debug, Drop)]
pub enum Line {
    /// A command that changes the board: `device_add`, `device_del`, `system_reset`.
    Do(Change),
    /// `info qom-tree`.
    Tree,
    /// `info qtree`.
    Bus,
}

/// What stands behind a word; `None` where the text does not begin with it.
fn behind<'a>(word: &str, text: &'a str) -> Option<&'a str>
    ensures { option_map (λ rest. rest.now) result ≡ behind word.now text.now }
{
    text.strip_prefix(word)
}

/// Whether a part is a driver: it is not empty and holds no `=`.
fn is_driver(part: &str) -> bool
    ensures { result ≡ is_driver part.now }
{
    !part.is_empty() && !holds(b'=', part)
}

/// `device_add` of a driver with options.
fn adding(alloc: Global, driver: &str, found: &[(Text, Text)]) -> Result<Change, AllocError>
    requires { NamesRise (keys_of found.now) }
    ensures { IfOk result (λ change. change ≡ adding driver.now found.now) }
{
    Ok(Change::Add(Addition::DeviceAdd {
        driver: Text::from_string(String::from_str(alloc, driver)?),
        id: text_of(alloc, "id", found)?,
        bus: text_of(alloc, "bus", found)?,
        props: properties(alloc, found)?,
    }))
}

/// `device_add` of parts: the driver, and options.
fn addition_of(alloc: Global, parts: &[Text]) -> Result<Option<Line>, AllocError>
    ensures { IfOk result (λ line. line ≡ addition_of parts.now) }
{
    let Some((driver, others)) = parts.split_first() else {
        return Ok(None);
    };
    if !is_driver(driver.as_str()) {
        return Ok(None);
    }
    let Some(found) = options(alloc, others)? else {
        return Ok(None);
    };
    Ok(Some(Line::Do(adding(alloc, driver.as_str(), found.as_slice())?)))
}

/// `device_add` of what stands behind it; `None` where that holds a space or is no driver with options.
fn addition_in(alloc: Global, args: &str) -> Result<Option<Line>, AllocError>
    ensures { IfOk result (λ line. line ≡ addition_in args.now) }
{
    if holds(b' ', args) {
        return Ok(None);
    }
    addition_of(alloc, parts(alloc, args)?.as_slice())
}

/// `device_del` of what stands behind it; `None` where that is empty or holds a space.
fn deletion_in(alloc: Global, id: &str) -> Result<Option<Line>, AllocError>
    ensures { IfOk result (λ line. line ≡ deletion_in id.now) }
{
    if id.is_empty() || holds(b' ', id) {
        return Ok(None);
    }
    Ok(Some(Line::Do(Change::Alter(Alteration::DeviceDel {
        id: Text::from_string(String::from_str(alloc, id)?),
    }))))
}

/// A line of a word with an argument.
fn argued(alloc: Global, text: &str) -> Result<Option<Line>, AllocError>
    ensures { IfOk result (λ line. line ≡ argued text.now) }
{
    if let Some(args) = behind("device_add ", text) {
        return addition_in(alloc, args);
    }
    match behind("device_del ", text) {
        Some(id) => deletion_in(alloc, id),
        None => Ok(None),
    }
}

/// What a line of the monitor asks for; `None` exactly where the text is no line.
#[tactic(auto, unfolding(crate::specs::Lines::line_of))]
pub fn line_request(alloc: Global, text: &str) -> Result<Option<Line>, AllocError>
    ensures { IfOk result (λ line. line ≡ line_of text.now) }
{
    match text {
        "info qom-tree" => Ok(Some(Line::Tree)),
        "info qtree" => Ok(Some(Line::Bus)),
        "system_reset" => Ok(Some(Line::Do(Change::Alter(Alteration::SystemReset)))),
        _ => argued(alloc, text),
    }
}
