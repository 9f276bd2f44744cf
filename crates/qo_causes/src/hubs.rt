//! The hub: it gives the inputs, one at a time, and takes the messages to each lane.
ghost use Rattle.std.specs.Prelude.{◌≡◌, ◌≤◌, ℕ, List, Option, OnOk};
ghost use Rattle.qo_causes.specs.declared.hubs.Lane.{Lane};
ghost use Rattle.qo_causes.specs.Bytes.{PutsAll};
ghost use Rattle.qo_causes.specs.Cause.{HasCause, Rose};
ghost use Rattle.qo_causes.specs.Names.{Given, Names};
ghost use Rattle.qo_causes.specs.Hub.{Asks, ButNextFailed, ButSendFailed, GoneOnly, Loses, NamesStay, NextGives, OnNextFailed, OnSendFailed, SameCounts, SameLanes, Sends, is_gone, line, part};

use crate::faults::Failed;
use crate::inputs::Input;
use thiserror::Error;

/// Where a message goes.
#[derive(Clone, Copy, Debug, PartialEq, Eq)]
pub enum Lane {
    /// To a session, by its number, 0 to 15.
    Session(u8),
    /// To the guest.
    Guest,
}

/// Why a hub gave no input.
#[derive(Clone, Copy, Debug, PartialEq, Eq, Error)]
pub enum NextError {
    /// A call failed. It comes only where the count of faults of `begin` and `next` rose.
    #[error("the hub failed")]
    Failed,
    /// What follows is no input: the place of its first byte, counted from 0.
    #[error("no input at byte {0}")]
    Bad(u64),
    /// There was not enough memory.
    #[error("not enough memory")]
    Memory,
}

/// Why a message was not sent.
#[derive(Clone, Copy, Debug, PartialEq, Eq, Error)]
pub enum SendError {
    /// The session of this number is lost. It comes only where the count of its losses rose.
    #[error("session {0} is gone")]
    Gone(u8),
    /// A call failed. It comes only where the count of faults of `send` rose.
    #[error("the hub failed")]
    Failed,
}

/// The outside of a machine: it gives inputs and takes messages.
///
/// Its meanings are optional: a hub need not tell them. Its counts never fall, and a count that stands at
/// its last value, 2^64 - 1, is taken as risen.
pub trait Hub {
    // The inputs that are left, where the hub tells them, each with the names of the sessions that are open once it was
    // taken. The end is never among them.
    ghost inputs: { Self → Option (List Given) };

    // The names of the open sessions now: those that stood with the last input that was given.
    ghost names: { Self → Names };

    // The bad place: whether the hub tells it, and whether there is one.
    ghost bad: { Self → Option (Option ℕ) };

    // The bytes that each lane got, where the hub tells them.
    ghost got: { Self → Lane → Option (List ℕ) };

    // The transcript, where the hub tells it.
    ghost sent: { Self → Option (List ℕ) };

    // The path and the number of the `begin` that answered Ok: whether the hub tells it, and whether there was one.
    ghost asked: { Self → Option (Option (List ℕ × ℕ)) };

    // How many faults of `begin` and `next` there were.
    ghost next_faults: { Self → ℕ };

    // How many faults of `send` there were.
    ghost send_faults: { Self → ℕ };

    // How often each session was lost.
    ghost losses: { Self → ℕ → ℕ };

    // What a hub says of its own state once `next` has answered Failed.
    ghost starved: { Self → Type 0 };

    // What else a hub says of an earlier and a later state of its own.
    ghost later: { Self → Self → Type 0 };

    /// Begins to serve `connections` connections at `path`. It answers `Failed` only where the count of
    /// faults of `begin` and `next` rose; after Ok both counts of faults are as before.
    fn begin(&mut self, path: &str, connections: u32) -> Result<(), Failed>
        ensures asked { Asks (asked self.old) (asked self.new) path.now connections result }
        ensures names { names self.new ≡ names self.old }
        ensures inputs { inputs self.new ≡ inputs self.old }
        ensures bad { bad self.new ≡ bad self.old }
        ensures got { SameLanes (got self.old) (got self.new) }
        ensures sent { sent self.new ≡ sent self.old }
        ensures cause { HasCause (next_faults self.old) (next_faults self.new) result }
        ensures quiet { OnOk result (next_faults self.new ≡ next_faults self.old) }
        ensures send_count { send_faults self.new ≡ send_faults self.old }
        ensures losses { SameCounts (losses self.old) (losses self.new) }
        ensures later { later self.old self.new };

    /// Gives the next input, or its end. It is not called again after the end.
    ///
    /// It answers `Failed` only where the count of faults of `begin` and `next` rose, and `Bad` only where
    /// no input is left and the bad place is the one that it names. After an error the inputs left are as
    /// before. No count of faults rises where it does not answer `Failed`.
    fn next(&mut self) -> Result<Input, NextError>
        ensures given { NextGives (inputs self.old) (inputs self.new) (bad self.old) (names self.new) result }
        ensures names { NamesStay (names self.old) (names self.new) result }
        ensures bad { bad self.new ≡ bad self.old }
        ensures asked { asked self.new ≡ asked self.old }
        ensures got { SameLanes (got self.old) (got self.new) }
        ensures sent { sent self.new ≡ sent self.old }
        ensures next_count { next_faults self.old ≤ next_faults self.new }
        ensures cause { OnNextFailed result (Rose (next_faults self.old) (next_faults self.new)) }
        ensures quiet { ButNextFailed result (next_faults self.new ≡ next_faults self.old) }
        ensures starved { OnNextFailed result (starved self.new) }
        ensures send_count { send_faults self.new ≡ send_faults self.old }
        ensures losses { SameCounts (losses self.old) (losses self.new) }
        ensures later { later self.old self.new };

    /// Sends one message, with its line end, to a lane. After an error the lane has a front of the bytes.
    ///
    /// It answers `Failed` only where the count of faults of `send` rose, and `Gone` only for the session
    /// of the lane, and where the count of its losses rose. No hub that tells a transcript answers `Gone`.
    /// No count of faults rises where it does not answer `Failed`.
    fn send(&mut self, lane: Lane, bytes: &[u8]) -> Result<(), SendError>
        ensures inputs { inputs self.new ≡ inputs self.old }
        ensures bad { bad self.new ≡ bad self.old }
        ensures asked { asked self.new ≡ asked self.old }
        ensures got { (l : Lane) → PutsAll (got self.old l) (got self.new l) result (part l lane bytes.now) }
        ensures sent { Sends (sent self.old) (sent self.new) (line (names self.old) lane bytes.now) result }
        ensures names { names self.new ≡ names self.old }
        ensures gone { GoneOnly lane result }
        ensures losses { (t : ℕ) → Loses (is_gone result t) (losses self.old t) (losses self.new t) }
        ensures send_count { send_faults self.old ≤ send_faults self.new }
        ensures cause { OnSendFailed result (Rose (send_faults self.old) (send_faults self.new)) }
        ensures quiet { ButSendFailed result (send_faults self.new ≡ send_faults self.old) }
        ensures next_count { next_faults self.new ≡ next_faults self.old }
        ensures later { later self.old self.new };

    // A state is no earlier than itself.
    ghost now: { (a : Self) → later a a };

    // What is later than a later state is later.
    ghost after: { (a b c : Self) → later a b → later b c → later a c };
}
