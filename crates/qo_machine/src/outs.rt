//! The messages of one step.

ghost use Rattle.std.specs.Prelude.{◌≡◌, [], ◌∷◌, ◌++◌, IfOk, OnOk};

use qo_causes::Lane;
use qo_values::Chars;
use std::alloc::{AllocError, Global};
use std::marker::Model;

/// The messages of one step, in order: where each goes, and its bytes with their line end.
#[derive(Drop)]
pub struct Outs {
    messages: Vec<(Lane, Chars)>,
}

impl Model for Outs {
    ghost use Rattle.std.specs.Prelude.{List};
    ghost use Rattle.qo_machine.specs.Machine.{Message};

    ghost Value = { List Message };

    ghost view = { λ o. o.messages.items };
}

impl Outs {
    /// The messages of a vector. It takes no memory.
    pub fn from_vec(messages: Vec<(Lane, Chars)>) -> Outs
        ensures { result ≡ messages.items }
    {
        Outs { messages }
    }

    /// The messages as a slice. It takes no memory.
    pub fn as_slice(&self) -> &[(Lane, Chars)]
        ensures { result.now ≡ self.now }
    {
        self.messages.as_slice()
    }

    /// No message. It takes no memory.
    pub(crate) fn none(alloc: Global) -> Outs
        ensures { result ≡ [] }
    {
        Outs {
            messages: Vec::new(alloc),
        }
    }

    /// No message, and room for so many, in the room of these. The error is want of memory.
    pub(crate) fn emptied(self, count: usize) -> Result<Outs, AllocError>
        ensures { IfOk result (λ outs. outs ≡ []) }
    {
        let mut messages = self.messages;
        messages.clear();
        messages.reserve(count)?;
        Ok(Outs { messages })
    }

    /// Adds one message to a lane.
    pub(crate) fn push(&mut self, lane: Lane, text: Chars) -> Result<(), AllocError>
        ensures { OnOk result (self.new ≡ self.old ++ (lane, text) ∷ []) }
    {
        self.messages.push((lane, text))?;
        Ok(())
    }
}
