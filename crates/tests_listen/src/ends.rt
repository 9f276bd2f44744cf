//! That each listener is closed before it is dropped. No clause says so.

ghost use Rattle.std.specs.Prelude.{◌≡◌, [], false};

use qo_listen::{Listener, Listeners};
use qo_model::Note;
use qo_values::Chars;
use std::alloc::AllocError;
use std::process::Abort;
use std::test::Fail;

/// A listener that ends the process where it is dropped and was not closed. It hears nothing.
struct Witness<R: Abort + Drop> {
    rt: R,
    closed: bool,
}

impl<R: Abort + Drop> Drop for Witness<R> {
    fn drop(self) {
        let Witness { rt, closed } = self;
        if !closed {
            rt.abort();
        }
    }
}

impl<R: Abort + Drop> Listener for Witness<R> {
    ghost use Rattle.std.specs.Prelude.{[], None};

    ghost heard = { λ _. [] };

    ghost text = { λ _. [] };

    ghost form = { λ _. None };

    ghost closed = { λ w. w.closed };

    ghost tells = { λ _. tt };

    fn told(&mut self, _note: &Note) -> Result<(), AllocError> {
        Err(AllocError)
    }

    fn report(&self) -> Result<Chars, AllocError> {
        Err(AllocError)
    }

    fn close(&mut self) {
        self.closed = true;
    }
}

#[test]
fn each_is_closed_before_it_is_dropped(rt: HostRuntime) -> Result<(), Fail> {
    let alloc = rt.alloc();
    let boxed: Box<dyn Listener> = Box::new(alloc, Witness { rt, closed: false })?;
    let mut listeners = Listeners::new(alloc);
    if let Err(mut back) = listeners.add(boxed) {
        back.close();
    }
    listeners.end();
    Ok(())
}
