//! A hub in memory, whose calls fail, and whose sessions are gone, where it is told to.
ghost use Rattle.std.specs.Prelude.{◌≡◌, ◌≤◌, ◌<◌, ℕ, None, Some, Err, IfOk, if◌then◌else◌, map, option_map, replicate, slice_index_or};
ghost use Rattle.qo_causes.specs.Cause.{HasCause, counted};
ghost use Rattle.qo_causes.specs.Hub.{Loses, is_gone};
ghost use Rattle.qo_causes.specs.Names.{no_names, unnamed};
ghost use Rattle.qo_causes.specs.Script.{after_begin, after_next, after_send, before_end, begin_answer, after_first, empty_shelf, first_input, has_room, next_answer, script_of, send_answer, shelf_of, with_added, with_fault, with_loss};

use crate::faults::Failed;
use crate::hubs::{Hub, Lane, NextError, SendError};
use crate::inputs::{Input, What};
use crate::shelves::Shelf;
use std::alloc::{AllocError, Global};
use std::collections::VecDeque;
use std::marker::Model;

/// How many sessions have lanes. A hub knows nothing of the machine that runs over it, so the number is its
/// own, and not the machine's.
const SESSIONS: u8 = 16;

/// The longest path that `begin` takes, in bytes.
const PATH_MAX: usize = 4096;

/// Inputs in memory, lanes with room for so many bytes each, and the numbers of the calls that fail or find
/// their session gone, counted from 1.
///
/// It tells its inputs, its lanes and what `begin` was asked, and no transcript. It has no bad place. A
/// session past 15 has no room and is never gone. Contracts see the inputs left, the lanes, what was asked,
/// the numbers of the calls so far, the listed numbers, the faults, and how often each session was lost.
#[derive(Drop)]
pub struct ScriptHub {
    inputs: VecDeque<Input>,
    sessions: Vec<Shelf>,
    guest: Shelf,
    // The path of the `begin` that answered Ok.
    path: String,
    // The number of that `begin`, if there was one.
    connections: Option<u32>,
    next_calls: u64,
    send_calls: u64,
    nexts: Vec<u64>,
    sends: Vec<u64>,
    gone: Vec<u64>,
    next_faults: u64,
    send_faults: u64,
    losses: [u64; 16],
}

impl Model for ScriptHub {
    ghost use Rattle.std.specs.Prelude.{◌≤◌, option_map, string_bytes, string_capacity};
    ghost use Rattle.qo_causes.specs.Script.{ScriptState};

    ghost Value = { ScriptState };

    ghost view = { λ h. record {
      inputs = h.inputs.items;
      sessions = h.sessions.items;
      guest = h.guest;
      asked = option_map (λ n. (string_bytes h.path, n)) h.connections;
      next_calls = h.next_calls;
      send_calls = h.send_calls;
      nexts = h.nexts.items;
      sends = h.sends.items;
      gone = h.gone.items;
      next_faults = h.next_faults;
      send_faults = h.send_faults;
      losses = h.losses;
    } };

    ghost invariant = { λ h. 4096 ≤ string_capacity h.path };
}

/// The empty lanes of the sessions, with room for so many bytes each.
fn empty_lanes(alloc: Global, room: usize) -> Result<Vec<Shelf>, AllocError>
    ensures { IfOk result (λ lanes. lanes.items ≡ replicate 16 (empty_shelf room)) }
{
    let mut lanes = Vec::new(alloc);
    for _ in 0..SESSIONS {
        lanes.push(Shelf::new(alloc, room)?)?;
    }
    Ok(lanes)
}

/// Takes the first input, or the end where none is left. Nothing is left behind an end.
fn take_first(inputs: &mut VecDeque<Input>) -> Input
    ensures first { result ≡ first_input inputs.old.items }
    ensures left { inputs.new.items ≡ after_first inputs.old.items }
{
    let Some(input) = inputs.pop_front() else {
        return Input::the_end();
    };
    if let What::End = input.what {
        inputs.clear();
    }
    input
}

/// One more, in a count whose last value is 2^64 - 1.
fn one_more(count: u64) -> u64
    ensures value { result ≡ counted count }
    ensures least { count ≤ result }
{
    count.saturating_add(1)
}

impl ScriptHub {
    /// A hub of these inputs, with room for so many bytes in each lane. `nexts` are the numbers of the calls
    /// of `next` that fail, `sends` those of the calls of `send` that fail, and `gone` those of the calls of
    /// `send` that find their session gone, where the call does not fail. All memory is taken here: no later
    /// call takes any.
    pub fn new(
        alloc: Global,
        inputs: Vec<Input>,
        room: usize,
        nexts: Vec<u64>,
        sends: Vec<u64>,
        gone: Vec<u64>,
    ) -> Result<ScriptHub, AllocError>
        ensures { IfOk result (λ hub. hub ≡ script_of inputs.items room nexts.items sends.items gone.items) }
    {
        Ok(ScriptHub {
            inputs: VecDeque::from(inputs),
            sessions: empty_lanes(alloc, room)?,
            guest: Shelf::new(alloc, room)?,
            path: String::with_capacity(alloc, PATH_MAX)?,
            connections: None,
            next_calls: 0,
            send_calls: 0,
            nexts,
            sends,
            gone,
            next_faults: 0,
            send_faults: 0,
            losses: [0; 16],
        })
    }

    /// The bytes that a lane got. It takes no memory.
    pub fn lane(&self, lane: Lane) -> &[u8]
        ensures { result.now ≡ (shelf_of self.now lane).held }
    {
        match lane {
            Lane::Session(session) => match self.sessions.get(session as usize) {
                Some(shelf) => shelf.as_slice(),
                None => &[],
            },
            Lane::Guest => self.guest.as_slice(),
        }
    }

    /// The path and the number of the `begin` that answered Ok, if there was one. It takes no memory.
    pub fn asked(&self) -> Option<(&str, u32)>
        ensures { option_map (λ x. (x.0.now, x.1)) result ≡ self.now.asked }
    {
        let connections = self.connections?;
        Some((self.path.as_str(), connections))
    }

    /// Adds bytes to a lane where all of them fit, and answers whether they do.
    fn add(&mut self, lane: Lane, bytes: &[u8]) -> bool
        ensures answer { result ≡ has_room (shelf_of self.old lane) bytes.now }
        ensures after { self.new ≡ (if has_room (shelf_of self.old lane) bytes.now then with_added self.old lane bytes.now else self.old) }
    {
        match lane {
            Lane::Session(session) => match self.sessions.get_mut(session as usize) {
                Some(shelf) => shelf.add(bytes),
                None => bytes.is_empty(),
            },
            Lane::Guest => self.guest.add(bytes),
        }
    }

    /// One more send failed.
    fn refuse_send(&mut self) -> Result<(), SendError>
        ensures count { self.old.send_faults ≤ self.new.send_faults }
        ensures answer { result ≡ Err SendError.Failed }
        ensures after { self.new ≡ with_fault self.old }
    {
        self.send_faults = one_more(self.send_faults);
        Err(SendError::Failed)
    }

    /// A session is lost.
    fn lose(&mut self, session: u8) -> Result<(), SendError>
        requires { session < 16 }
        ensures losses { (t : ℕ) → Loses (is_gone result t) (slice_index_or self.old.losses t 0) (slice_index_or self.new.losses t 0) }
        ensures answer { result ≡ Err (SendError.Gone session) }
        ensures after { self.new ≡ with_loss self.old session }
    {
        self.losses[session as usize] = one_more(self.losses[session as usize]);
        Err(SendError::Gone(session))
    }
}

impl Hub for ScriptHub {
    ghost inputs = { λ h. Some (map unnamed (before_end h.inputs)) };

    ghost names = { λ _. no_names };

    ghost bad = { λ _. Some None };

    ghost got = { λ h l. Some ((shelf_of h l).held) };

    ghost sent = { λ _. None };

    ghost asked = { λ h. Some h.asked };

    ghost next_faults = { λ h. h.next_faults };

    ghost send_faults = { λ h. h.send_faults };

    ghost losses = { λ h t. slice_index_or h.losses t 0 };

    ghost starved = { λ _. Unit {0} };

    ghost later = { λ _ _. Unit {0} };

    /// Keeps the path and the number as asked. It fails where `begin` answered Ok before, and where the path is
    /// longer than 4,096 bytes. It takes no memory.
    fn begin(&mut self, path: &str, connections: u32) -> Result<(), Failed>
        ensures cause { HasCause self.old.next_faults self.new.next_faults result }

        ensures answer { result ≡ begin_answer self.old path.now }
        ensures after { self.new ≡ after_begin self.old path.now connections }
    {
        if self.connections.is_some() || path.len() > PATH_MAX {
            self.next_faults = one_more(self.next_faults);
            return Err(Failed);
        }
        self.path.clear();
        self.path.push_str(path).unwrap();
        self.connections = Some(connections);
        Ok(())
    }

    /// Gives the first input that is left, and where none is left the end, with the moment 0.000000. After an
    /// end among the inputs nothing is left. It fails exactly where its number is listed. It takes no memory.
    fn next(&mut self) -> Result<Input, NextError>
        ensures next_count { self.old.next_faults ≤ self.new.next_faults }

        ensures answer { result ≡ next_answer self.old }
        ensures after { self.new ≡ after_next self.old }
    {
        self.next_calls = one_more(self.next_calls);
        if self.nexts.contains(&self.next_calls) {
            self.next_faults = one_more(self.next_faults);
            return Err(NextError::Failed);
        }
        Ok(take_first(&mut self.inputs))
    }

    /// Adds the bytes to the lane. It fails where its number is listed among `sends`; else the session is gone
    /// where it is listed among `gone`; else it fails where the bytes do not all fit. After an error the lane is
    /// as before. It takes no memory.
    fn send(&mut self, lane: Lane, bytes: &[u8]) -> Result<(), SendError>
        ensures losses { (t : ℕ) → Loses (is_gone result t) (slice_index_or self.old.losses t 0) (slice_index_or self.new.losses t 0) }
        ensures send_count { self.old.send_faults ≤ self.new.send_faults }

        ensures answer { result ≡ send_answer self.old lane bytes.now }
        ensures after { self.new ≡ after_send self.old lane bytes.now }
    {
        self.send_calls = one_more(self.send_calls);
        if self.sends.contains(&self.send_calls) {
            return self.refuse_send();
        }
        match lane {
            Lane::Session(session) if session < SESSIONS && self.gone.contains(&self.send_calls) =>
                {
                    return self.lose(session);
                }
            Lane::Session(_) | Lane::Guest => {}
        }
        if self.add(lane, bytes) {
            Ok(())
        } else {
            self.refuse_send()
        }
    }

    ghost now = { λ a. tt };

    ghost after = { λ a b c p q. tt };
}
