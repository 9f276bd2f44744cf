//! What the heap keeps of devices: their ids and paths, the events on them that wait, and the virtual
//! time.

ghost use Rattle.std.specs.Prelude.{◌≡◌, IfOk};
ghost use Rattle.qo_heap.specs.Objects.{refused_event};

use crate::entries::entry_mut;
use crate::heap::Heap;
use qo_claims::Claim;
use qo_events::DeviceEvent;
use qo_object::{DeviceId, Object, Oid};
use qo_slots::Steps;
use qo_values::{Id, Text};
use std::alloc::{AllocError, Global};
use std::sync::ledger::Ledger;

/// An id once more.
pub(crate) fn id_again(id: &Id, alloc: Global) -> Result<Id, AllocError>
    ensures { IfOk result (λ i. i ≡ id.now) }
{
    match Id::parse(alloc, id.as_str()) {
        Ok(id) => Ok(id),
        Err(_) => Err(AllocError),
    }
}

/// A text once more.
pub(crate) fn text_again(text: &Text, alloc: Global) -> Result<Text, AllocError>
    ensures { IfOk result (λ t. t ≡ text.now) }
{
    Ok(Text::from_string(String::from_str(alloc, text.as_str())?))
}

/// The event that the guest refused the removal of a device, where its path is kept.
fn refusal_of(object: &Object, alloc: Global) -> Result<Option<DeviceEvent>, AllocError>
    ensures { IfOk result (λ event. event ≡ refused_event object.now) }
{
    let Some(path) = object.path() else {
        return Ok(None);
    };
    let path = text_again(path, alloc)?;
    let id = match object.id() {
        Some(id) => Some(id_again(id, alloc)?),
        None => None,
    };
    Ok(Some(DeviceEvent::refused(id, path)))
}

impl Heap {
    ghost use Rattle.std.specs.Prelude.{◌+◌, ◌≤◌, IsOk, None, OnOk, OnErr, Some, option_map, option_and_then};
    ghost use Rattle.qo_claims.specs.declared.claims.Claimed.TheVariants as on;
    ghost use Rattle.qo_events.specs.Queue.{cleared, promised};
    ghost use Rattle.qo_object.specs.Content.{with_id, with_path};
    ghost use Rattle.qo_heap.specs.Rows.{IsLive};
    ghost use Rattle.qo_heap.specs.Objects.{content_of, with_edit, with_event};

    /// Lets the virtual time go on to a moment, in ns. It takes no memory.
    pub fn set_time(&mut self, time: u64)
        requires { self.old.time ≤ time }
        ensures { self.new ≡ record self.old { time = time } }
    {
        self.time = time;
    }

    /// Gives a device its id, with the claim on it; it must have none. It takes no memory.
    pub fn name_device<L: Ledger>(&mut self, o: Oid, id: Id, claim: Claim, steps: &mut Steps<L>)
        requires live { IsLive self.old.rows o }
        requires claim { claim ≡ on.Device id }
        requires unnamed { option_and_then (λ c. c.device_id) (content_of self.old o.birth) ≡ None }
        ensures now { self.new ≡ with_edit o.birth (with_id id) self.old }
        ensures cost { steps.new ≡ steps.old + 1 }
    {
        entry_mut(&mut self.table, &self.order, o, steps)
            .object
            .name_device(DeviceId::new(id, claim));
    }

    /// The id of a device; `None` exactly where the object has none. It takes no memory.
    pub fn device_id<L: Ledger>(&self, o: Oid, steps: &mut Steps<L>) -> Option<&Id>
        requires { IsLive self.now.rows o }
        ensures id { option_map (λ i. i.now) result ≡ option_and_then (λ c. c.device_id) (content_of self.now o.birth) }
        ensures cost { steps.new ≡ steps.old + 1 }
    {
        self.look(o, steps).id()
    }

    /// Makes room for one event more than wait and are promised a place. The error is want of memory,
    /// and leaves the heap as it was.
    pub fn reserve_event(&mut self) -> Result<(), AllocError>
        ensures room { OnOk result (1 ≤ self.new.events.spare) }
        ensures succeeds { 1 ≤ self.old.events.spare → IsOk result }
        ensures kept { self.new ≡ record self.old { events = record self.old.events { spare = self.new.events.spare } } }
        ensures grows { self.old.events.spare ≤ self.new.events.spare }
        ensures err { OnErr result (self.new ≡ self.old) }
    {
        self.events.reserve()
    }

    /// Keeps the path of a device for its end; none must be kept, and there must be room for the
    /// event of its end, which is promised the place. It takes no memory.
    pub fn keep_path<L: Ledger>(&mut self, o: Oid, path: Text, steps: &mut Steps<L>)
        requires live { IsLive self.old.rows o }
        requires pathless { option_and_then (λ c. c.kept_path) (content_of self.old o.birth) ≡ None }
        requires room { 1 ≤ self.old.events.spare }
        ensures now { self.new ≡ record (with_edit o.birth (with_path path) self.old) { events = promised self.old.events } }
        ensures cost { steps.new ≡ steps.old + 1 }
    {
        self.events.promise();
        entry_mut(&mut self.table, &self.order, o, steps)
            .object
            .keep_path(path);
    }

    /// The path that is kept for the end of a device; `None` exactly where none is. It takes no memory.
    pub fn kept_path<L: Ledger>(&self, o: Oid, steps: &mut Steps<L>) -> Option<&Text>
        requires { IsLive self.now.rows o }
        ensures path { option_map (λ p. p.now) result ≡ option_and_then (λ c. c.kept_path) (content_of self.now o.birth) }
        ensures cost { steps.new ≡ steps.old + 1 }
    {
        self.look(o, steps).path()
    }

    /// Adds the event that the guest refused the removal of a device, where its path is kept; where
    /// none is, nothing is added. The error is want of memory, and leaves the heap as it was.
    pub fn refused<L: Ledger>(
        &mut self,
        alloc: Global,
        o: Oid,
        steps: &mut Steps<L>,
    ) -> Result<(), AllocError>
        requires live { IsLive self.old.rows o }
        ensures told { OnOk result (option_map (λ c. record self.old { events = record (with_event (refused_event c) self.old.events) { spare = self.new.events.spare } }) (content_of self.old o.birth) ≡ Some self.new) }
        ensures room { OnOk result (self.old.events.spare ≤ self.new.events.spare + 1) }
        ensures err { OnErr result (self.new ≡ self.old) }
        ensures cost { steps.new ≡ steps.old + 1 }
    {
        let event = refusal_of(self.look(o, steps), alloc)?;
        if let Some(event) = event {
            self.events.add(event)?;
        }
        Ok(())
    }

    /// The events on devices that wait, in the order of their coming. It takes no memory.
    pub fn events(&self) -> &[DeviceEvent]
        ensures { result.now ≡ self.now.events.list }
    {
        self.events.list()
    }

    /// Lets the events that wait go, as they were told. It takes no memory.
    pub fn clear_events(&mut self)
        ensures { self.new ≡ record self.old { events = cleared self.old.events } }
    {
        self.events.clear();
    }
}
