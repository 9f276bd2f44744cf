//! Notes: what was done to the objects of a board, in order.

ghost use Rattle.std.specs.Prelude.{◌≡◌, IfOk, string_bytes};
ghost use Rattle.qo_model.specs.Notes.{deed_word, deed_type, note_text};

use qo_values::{Act, TypeId};
use std::alloc::{AllocError, Global};

/// What a note says was done.
#[derive(Clone, Copy, Debug, PartialEq, Eq)]
pub enum Deed {
    /// An act on the object's body.
    Did(Act),
    /// The finalizer of one type of the object's chain.
    Final(TypeId),
}

/// A note: something was done to an object.
#[derive(Clone, Copy, Debug, PartialEq, Eq)]
pub struct Note {
    /// The birth number of the object.
    pub birth: u64,
    /// What was done to it.
    pub deed: Deed,
}

impl Deed {
    /// The word of what was done: the act or `final`, in lower case.
    pub fn word(self) -> &'static str
        ensures { result.now ≡ deed_word self }
    {
        match self {
            Deed::Did(Act::Init(_)) => "init",
            Deed::Did(Act::Realize) => "realize",
            Deed::Did(Act::Unrealize) => "unrealize",
            Deed::Did(Act::Enter) => "enter",
            Deed::Did(Act::Wake) => "wake",
            Deed::Did(Act::Hold) => "hold",
            Deed::Did(Act::Exit) => "exit",
            Deed::Did(Act::Pre) => "pre",
            Deed::Did(Act::Update) => "update",
            Deed::Final(_) => "final",
        }
    }

    /// The type whose initializer or finalizer ran; `None` for every other act.
    pub fn type_id(self) -> Option<TypeId>
        ensures { result ≡ deed_type self }
    {
        match self {
            Deed::Did(Act::Init(id)) | Deed::Final(id) => Some(id),
            Deed::Did(_) => None,
        }
    }
}

impl Note {
    /// The note's text, as `init 9 device` or `enter 9`: the word, a space and the birth, and for
    /// init and final a space and the type's name. The error is want of memory.
    pub fn text(&self, alloc: Global) -> Result<String, AllocError>
        ensures { IfOk result (λ s. string_bytes s ≡ note_text self.now) }
    {
        let word = self.deed.word();
        match self.deed.type_id() {
            Some(id) => {
                let name = id.name();
                format!(in alloc; "{word} {} {name}", self.birth)
            }
            None => format!(in alloc; "{word} {}", self.birth),
        }
    }
}
