//! What is told every note, boxed by whoever made it.

ghost use Rattle.std.specs.Prelude.{◌≡◌, [], ◌∷◌, ◌++◌, ℕ, ◌<◌, Bool, true, false, length, List, map, Option, IfErr, IfOk, OnOk, OnErr};
ghost use Rattle.std.specs.List.{AllByRecursion};
ghost use Rattle.qo_model.specs.declared.notes.Note.{Note as NoteView};
ghost use Rattle.qo_listen.specs.Ears.{AllHeard, AllOpen, HeardSome, ear, ears, texts_of};

use crate::listener::Listener;
use qo_model::Note;
use qo_values::Chars;
use std::alloc::{AllocError, Global};

/// Listeners, in order. They can't be let go: they are spent by `end`.
pub struct Listeners {
    /// The listeners.
    pub all: Vec<Box<dyn Listener>>,
}

impl Listener for Box<dyn Listener> {
    ghost heard = { λ b. (Listener-box b).heard b.value };

    ghost text = { λ b. (Listener-box b).text b.value };

    ghost form = { λ b. (Listener-box b).form b.value };

    ghost closed = { λ b. (Listener-box b).closed b.value };

    ghost tells = { λ b. (Listener-box b).tells b.value };

    fn told(&mut self, note: &Note) -> Result<(), AllocError> {
        (**self).told(note)
    }

    fn report(&self) -> Result<Chars, AllocError> {
        (**self).report()
    }

    fn close(&mut self) {
        (**self).close()
    }
}

/// Each of some is told a note, in order, up to the first that has no memory for it. That one and those
/// after it are as before.
fn tell_all<L: Listener>(all: &mut [L], note: &Note) -> Result<(), AllocError>
    requires { AllOpen (ears ⟦<L as Listener>⟧ all.old) }
    ensures told { OnOk result (AllHeard (note.now ∷ []) (ears ⟦<L as Listener>⟧ all.old) (ears ⟦<L as Listener>⟧ all.new)) }
    ensures left { OnErr result (HeardSome (note.now ∷ []) (ears ⟦<L as Listener>⟧ all.old) (ears ⟦<L as Listener>⟧ all.new)) }
{
    for listener in all.iter_mut() {
        listener.told(note)?;
    }
    Ok(())
}

/// What some tell, one after another.
fn reports_of<L: Listener>(alloc: Global, all: &[L]) -> Result<Chars, AllocError>
    ensures { IfOk result (λ t. t ≡ texts_of (ears ⟦<L as Listener>⟧ all.now)) }
{
    let mut bytes = Vec::new(alloc);
    for listener in all {
        let text = listener.report()?;
        bytes.extend_from_slice(text.as_slice())?;
    }
    Ok(Chars::from_vec(bytes))
}

impl Listeners {
    /// None. It takes no memory.
    pub fn new(alloc: Global) -> Listeners
        ensures { ears ⟦<Box<dyn Listener> as Listener>⟧ result.all.items ≡ [] }
    {
        Listeners {
            all: Vec::new(alloc),
        }
    }

    /// Each is told a note, in order, up to the first that has no memory for it. The error is want of
    /// memory: that one and those after it are as before.
    pub fn tell(&mut self, note: &Note) -> Result<(), AllocError>
        requires { AllOpen (ears ⟦<Box<dyn Listener> as Listener>⟧ self.old.all.items) }
        ensures told { OnOk result (AllHeard (note.now ∷ []) (ears ⟦<Box<dyn Listener> as Listener>⟧ self.old.all.items) (ears ⟦<Box<dyn Listener> as Listener>⟧ self.new.all.items)) }
        ensures left { OnErr result (HeardSome (note.now ∷ []) (ears ⟦<Box<dyn Listener> as Listener>⟧ self.old.all.items) (ears ⟦<Box<dyn Listener> as Listener>⟧ self.new.all.items)) }
    {
        tell_all(self.all.as_mut_slice(), note)
    }

    /// One more, after the others. For want of memory it is handed back, and the others are as before.
    pub fn add(&mut self, listener: Box<dyn Listener>) -> Result<(), Box<dyn Listener>>
        requires { ⟦<Box<dyn Listener> as Listener>⟧.closed listener ≡ false }
        ensures added { OnOk result (ears ⟦<Box<dyn Listener> as Listener>⟧ self.new.all.items ≡ ears ⟦<Box<dyn Listener> as Listener>⟧ self.old.all.items ++ (ear ⟦<Box<dyn Listener> as Listener>⟧ listener) ∷ []) }
        ensures left { OnErr result (ears ⟦<Box<dyn Listener> as Listener>⟧ self.new.all.items ≡ ears ⟦<Box<dyn Listener> as Listener>⟧ self.old.all.items) }
        ensures back { IfErr result (λ back. back ≡ listener) }
    {
        match self.all.push(listener) {
            Ok(()) => Ok(()),
            Err(refused) => Err(refused.value),
        }
    }

    /// What they tell, one after another. The error is want of memory.
    pub fn reports(&self, alloc: Global) -> Result<Chars, AllocError>
        ensures { IfOk result (λ t. t ≡ texts_of (ears ⟦<Box<dyn Listener> as Listener>⟧ self.now.all.items)) }
    {
        reports_of(alloc, self.all.as_slice())
    }

    /// Closes each and lets it go. It takes no memory.
    pub fn end(self) {
        let Listeners { all } = self;
        for mut listener in all {
            listener.close();
        }
    }
}
