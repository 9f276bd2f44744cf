//! The lines that a line's level may change.

ghost use Rattle.std.specs.Prelude.{◌≡◌, ℕ, ◌<◌, ◌||◌, ◌==◌, [], ◌∷◌, length, OnOk, OnErr};
ghost use Rattle.qo_irq.specs.Kept.{AreMarked, depends};

use std::alloc::{AllocError, Global};
use std::marker::Model;

/// The lines whose gates name one line. There may be others among them, as one that could not be
/// added for want of memory. One line alone takes no memory.
#[derive(Drop)]
pub(crate) struct Dependants {
    first: Option<u32>,
    /// Any further ones.
    more: Vec<u32>,
}

impl Model for Dependants {
    ghost use Rattle.std.specs.Prelude.{List, ℕ, ◌++◌};
    ghost use Rattle.std.specs.Option.{option_to_list};

    ghost Value = { List ℕ };

    ghost view = { λ d. option_to_list d.first ++ d.more.items };
}

/// Marks a line that is there as one whose level may have to change. Answers its number, or `last` where
/// that is higher.
fn mark_line(line: u32, pending: &mut [bool], last: usize) -> usize
    requires { last < length pending.old }
    ensures { AreMarked (line ∷ []) pending.old pending.new last result }
{
    let line = line as usize;
    if line >= pending.len() {
        return last;
    }
    pending[line] = true;
    last.max(line)
}

/// Marks each of some lines that is there. Answers the highest of them, or `last` where that is higher.
fn mark_each(lines: &[u32], pending: &mut [bool], last: usize) -> usize
    requires { last < length pending.old }
    ensures { AreMarked lines.now pending.old pending.new last result }
{
    let mut highest = last;
    for dependant in lines {
        let line = *dependant as usize;
        if line < pending.len() {
            pending[line] = true;
            highest = highest.max(line);
        }
    }
    highest
}

impl Dependants {
    /// No lines.
    pub(crate) fn new(alloc: Global) -> Dependants
        ensures { result ≡ [] }
    {
        Dependants {
            first: None,
            more: Vec::new(alloc),
        }
    }

    /// Adds a line. An error adds nothing.
    pub(crate) fn add(&mut self, line: u32) -> Result<(), AllocError>
        ensures added { OnOk result ((i : ℕ) → depends i self.new ≡ ((i == line) || depends i self.old)) }
        ensures err { OnErr result (self.new ≡ self.old) }
    {
        let Some(first) = self.first else {
            self.first = Some(line);
            return Ok(());
        };
        if first == line {
            return Ok(());
        }
        self.more.push(line)?;
        Ok(())
    }

    /// Marks each of the lines that is there as one whose level may have to change. Answers the
    /// highest of them, or `last` where that is higher.
    pub(crate) fn mark(&self, pending: &mut [bool], last: usize) -> usize
        requires { last < length pending.old }
        ensures { AreMarked self.now pending.old pending.new last result }
    {
        match self.first {
            Some(line) => {
                let last = mark_line(line, pending, last);
                mark_each(&self.more, pending, last)
            }
            None => mark_each(&self.more, pending, last),
        }
    }
}
