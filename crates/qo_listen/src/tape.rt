//! A listener that keeps all that it heard.

ghost use Rattle.std.specs.Prelude.{◌≡◌, [], ◌∷◌, ◌++◌, false, Some, OnOk, OnErr, IfOk};
ghost use Rattle.qo_listen.specs.Texts.{note_line, tape_text};
ghost use Rattle.qo_listen.specs.Texts.Form.{tape};

use crate::listener::Listener;
use qo_model::Note;
use qo_values::Chars;
use std::alloc::{AllocError, Global};

/// A listener that tells every note that it heard, a line each.
#[derive(Drop)]
pub struct Tape {
    alloc: Global,
    notes: Vec<Note>,
    closed: bool,
}

impl Tape {
    /// It has heard nothing and is not closed. It takes no memory.
    pub fn new(alloc: Global) -> Tape
        ensures heard { ⟦<Tape as Listener>⟧.heard result ≡ [] }
        ensures closed { ⟦<Tape as Listener>⟧.closed result ≡ false }
    {
        Tape {
            alloc,
            notes: Vec::new(alloc),
            closed: false,
        }
    }
}

impl Listener for Tape {
    ghost use Rattle.std.specs.Prelude.{◌≡◌, Some, refl};
    ghost use Rattle.qo_listen.specs.Texts.{tape_text};
    ghost use Rattle.qo_listen.specs.Texts.Form.{tape};

    ghost heard = { λ l. l.notes.items };

    ghost text = { λ l. tape_text l.notes.items };

    ghost form = { λ l. Some tape };

    ghost closed = { λ l. l.closed };

    ghost tells = { λ l. refl };

    fn told(&mut self, note: &Note) -> Result<(), AllocError> {
        self.notes.push(*note)?;
        Ok(())
    }

    fn report(&self) -> Result<Chars, AllocError> {
        let mut bytes = Vec::new(self.alloc);
        for note in &self.notes {
            let text = note.text(self.alloc)?;
            bytes.extend_from_slice(text.as_bytes())?;
            bytes.push(10)?;
        }
        Ok(Chars::from_vec(bytes))
    }

    fn close(&mut self) {
        self.closed = true;
    }
}
