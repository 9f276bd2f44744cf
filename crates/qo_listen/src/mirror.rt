//! A listener that tells who is still there.

ghost use Rattle.std.specs.Prelude.{◌≡◌, ◌++◌, [], false, not, Some, IfOk, OnOk, codes};
ghost use Rattle.qo_listen.specs.Sought.{is_sought};
ghost use Rattle.qo_listen.specs.Texts.{birth_text, births_of, mirror_text};

use crate::listener::Listener;
use itoa::Buffer;
use qo_model::{Deed, Note};
use qo_values::{Act, Chars};
use std::alloc::{AllocError, Global};
use std::collections::BTreeSet;

/// A listener that tells the births of those who were made and did not end, rising, on one line.
#[derive(Drop)]
pub struct Mirror {
    alloc: Global,
    notes: Vec<Note>,
    closed: bool,
}

/// Which notes are looked for.
#[derive(Clone, Copy, Debug, PartialEq, Eq)]
pub enum Sought {
    /// Those that say that an object was made.
    Init,
    /// Those that say that it ended.
    Final,
}

impl Sought {
    /// Whether a note is looked for.
    fn is_met(self, note: &Note) -> bool
        ensures { result ≡ is_sought self note.now }
    {
        match self {
            Sought::Init => matches!(note.deed, Deed::Did(Act::Init(_))),
            Sought::Final => matches!(note.deed, Deed::Final(_)),
        }
    }
}

/// The births of the notes that are looked for. The error is want of memory.
fn births_of(alloc: Global, notes: &[Note], sought: Sought) -> Result<BTreeSet<u64>, AllocError>
    ensures { IfOk result (λ births. births.keys ≡ births_of (is_sought sought) notes.now) }
{
    let mut births = BTreeSet::new(alloc);
    let mut at = notes.len();
    while at > 0 {
        at -= 1;
        let note = notes[at];
        if sought.is_met(&note) {
            births.insert(note.birth)?;
        }
    }
    Ok(births)
}

/// Adds a space and a birth to a text.
fn put_birth(bytes: &mut Vec<u8>, birth: u64) -> Result<(), AllocError>
    ensures { OnOk result (bytes.new.items ≡ bytes.old.items ++ birth_text birth) }
{
    bytes.push(b' ')?;
    bytes.extend_from_slice(Buffer::new().format(birth).as_bytes())?;
    Ok(())
}

impl Mirror {
    /// It has heard nothing and is not closed. It takes no memory.
    pub fn new(alloc: Global) -> Mirror
        ensures heard { ⟦<Mirror as Listener>⟧.heard result ≡ [] }
        ensures closed { ⟦<Mirror as Listener>⟧.closed result ≡ false }
    {
        Mirror {
            alloc,
            notes: Vec::new(alloc),
            closed: false,
        }
    }
}

impl Listener for Mirror {
    ghost use Rattle.std.specs.Prelude.{◌≡◌, Some, refl};
    ghost use Rattle.qo_listen.specs.Texts.{mirror_text};
    ghost use Rattle.qo_listen.specs.Texts.Form.{mirror};

    ghost heard = { λ l. l.notes.items };

    ghost text = { λ l. mirror_text l.notes.items };

    ghost form = { λ l. Some mirror };

    ghost closed = { λ l. l.closed };

    ghost tells = { λ l. refl };

    fn told(&mut self, note: &Note) -> Result<(), AllocError> {
        self.notes.push(*note)?;
        Ok(())
    }

    fn report(&self) -> Result<Chars, AllocError> {
        let made = births_of(self.alloc, self.notes.as_slice(), Sought::Init)?;
        let ended = births_of(self.alloc, self.notes.as_slice(), Sought::Final)?;
        let mut bytes = Vec::new(self.alloc);
        bytes.extend_from_slice(b"live")?;
        for birth in &made {
            if !ended.contains(birth) {
                put_birth(&mut bytes, *birth)?;
            }
        }
        bytes.push(b'\n')?;
        Ok(Chars::from_vec(bytes))
    }

    fn close(&mut self) {
        self.closed = true;
    }
}
