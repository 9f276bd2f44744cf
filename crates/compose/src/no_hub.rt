//! The hub of a caller that has none.

ghost use Rattle.std.specs.Prelude.{None, Some, []};
ghost use Rattle.qo_causes.specs.Names.{no_names};

use qo_causes::{Failed, Hub, Input, Lane, Moment, NextError, SendError, What};

/// A hub without inputs, which keeps nothing that it is sent and tells nothing of it.
#[derive(Drop)]
pub struct NoHub;

impl Hub for NoHub {
    ghost inputs = { λ _. Some [] };

    ghost names = { λ _. no_names };

    ghost bad = { λ _. Some None };

    ghost got = { λ _ _. None };

    ghost sent = { λ _. None };

    ghost asked = { λ _. None };

    ghost next_faults = { λ _. 0 };

    ghost send_faults = { λ _. 0 };

    ghost losses = { λ _ _. 0 };

    ghost starved = { λ _. Unit {0} };

    ghost later = { λ _ _. Unit {0} };

    ghost now = { λ _. tt };

    ghost after = { λ _ _ _ _ _. tt };

    fn begin(&mut self, _path: &str, _connections: u32) -> Result<(), Failed> {
        Ok(())
    }

    fn next(&mut self) -> Result<Input, NextError> {
        Ok(Input {
            at: Moment {
                seconds: 0,
                micros: 0,
            },
            what: What::End,
        })
    }

    fn send(&mut self, _lane: Lane, _bytes: &[u8]) -> Result<(), SendError> {
        Ok(())
    }
}
