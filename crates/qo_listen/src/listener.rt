//! What is told every note of a run.

ghost use Rattle.std.specs.Prelude.{◌≡◌, [], ◌∷◌, ◌++◌, ℕ, Bool, true, false, List, Option, IfOk, OnOk, OnErr};
ghost use Rattle.qo_model.specs.declared.notes.Note.{Note as NoteView};
ghost use Rattle.qo_listen.specs.Texts.{Form, TellsText};

use qo_model::Note;
use qo_values::Chars;
use std::alloc::AllocError;

/// Who is told every note of a run.
pub trait Listener: Drop {
    // What it heard, in order.
    ghost heard: { Self → List NoteView };

    // What it tells.
    ghost text: { Self → List ℕ };

    // In which form it tells, where it says so.
    ghost form: { Self → Option Form };

    // Whether it is closed.
    ghost closed: { Self → Bool };

    // Where it says in which form it tells, it tells in that form.
    ghost tells: { (l : Self) → TellsText (form l) (text l) (heard l) };

    /// It is told a note. The error is want of memory, and changes nothing.
    fn told(&mut self, note: &Note) -> Result<(), AllocError>
        requires { closed self.old ≡ false }
        ensures heard { OnOk result (heard self.new ≡ heard self.old ++ note.now ∷ []) }
        ensures left { OnErr result (heard self.new ≡ heard self.old) }
        ensures text { OnErr result (text self.new ≡ text self.old) }
        ensures form { form self.new ≡ form self.old }
        ensures closed { closed self.new ≡ closed self.old };

    /// What it tells. The error is want of memory.
    fn report(&self) -> Result<Chars, AllocError>
        ensures { IfOk result (λ t. t ≡ text self.now) };

    /// Closes it. It takes no memory.
    fn close(&mut self)
        ensures closed { closed self.new ≡ true }
        ensures form { form self.new ≡ form self.old };
}
