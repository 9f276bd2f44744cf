//! The events that wait.

use crate::device::DeviceEvent;
use std::alloc::{AllocError, Global};
use std::marker::Model;

/// Events on devices in the order of their coming, with places that are promised to events that
/// have to come.
#[derive(Drop)]
pub struct Events {
    list: Vec<DeviceEvent>,
    promised: usize,
}

impl Model for Events {
    ghost use Rattle.std.specs.Prelude.{◌+◌, ◌-◌, ◌≤◌};
    ghost use Rattle.std.specs.Vec.{vec_len, vec_capacity};
    ghost use Rattle.qo_events.specs.Queue.{Waiting};

    ghost Value = { Waiting };

    ghost view = { λ e. record {
      list = e.list.items;
      promised = e.promised;
      spare = vec_capacity e.list - (vec_len e.list + e.promised);
    } };

    ghost invariant = { λ e. vec_len e.list + e.promised ≤ vec_capacity e.list };
}

impl Events {
    ghost use Rattle.std.specs.Prelude.{◌≡◌, ◌≤◌, ◌+◌, IsOk, OnOk, OnErr};
    ghost use Rattle.qo_events.specs.Queue.{none_waiting, promised, kept, added, cleared};

    /// No events, and no place for any. It takes no memory.
    pub fn new(alloc: Global) -> Events
        ensures { result ≡ none_waiting }
    {
        Events {
            list: Vec::new(alloc),
            promised: 0,
        }
    }

    /// Makes room for one event more than are here and promised. The error is want of memory, and
    /// leaves all as it was.
    pub fn reserve(&mut self) -> Result<(), AllocError>
        ensures room { OnOk result (1 ≤ self.new.spare) }
        ensures succeeds { 1 ≤ self.old.spare → IsOk result }
        ensures kept { self.new ≡ record self.old { spare = self.new.spare } }
        ensures grows { self.old.spare ≤ self.new.spare }
        ensures err { OnErr result (self.new ≡ self.old) }
    {
        let Some(more) = self.promised.checked_add(1) else {
            return Err(AllocError);
        };
        self.list.reserve(more)
    }

    /// Promises a place that is free to an event that has to come. It takes no memory.
    pub fn promise(&mut self)
        requires { 1 ≤ self.old.spare }
        ensures { self.new ≡ promised self.old }
    {
        self.promised += 1;
    }

    /// Adds an event after the others, in a place that was promised. It takes no memory.
    pub fn keep(&mut self, event: DeviceEvent)
        requires { 1 ≤ self.old.promised }
        ensures { self.new ≡ kept event self.old }
    {
        self.promised -= 1;
        self.list.push_reserved(event);
    }

    /// Adds an event after the others, in a place that is not promised. The error is want of
    /// memory, and leaves all as it was.
    pub fn add(&mut self, event: DeviceEvent) -> Result<(), AllocError>
        ensures added { OnOk result (self.new ≡ record (added event self.old) { spare = self.new.spare }) }
        ensures room { OnOk result (self.old.spare ≤ self.new.spare + 1) }
        ensures succeeds { 1 ≤ self.old.spare → IsOk result }
        ensures err { OnErr result (self.new ≡ self.old) }
    {
        self.reserve()?;
        self.list.push_reserved(event);
        Ok(())
    }

    /// The events that wait, in the order of their coming. It takes no memory.
    pub fn list(&self) -> &[DeviceEvent]
        ensures { result.now ≡ self.now.list }
    {
        self.list.as_slice()
    }

    /// Lets all events go, as they were told; what is promised stays so. It takes no memory.
    pub fn clear(&mut self)
        ensures { self.new ≡ cleared self.old }
    {
        self.list.clear();
    }
}
