//! What ends with an object: its final notes, its claims, and what is told of it.

ghost use Rattle.std.specs.Prelude.{◌≡◌, ◌≤◌, if◌then◌else◌, true, [], ◌∷◌, IfSome, option_map};
ghost use Rattle.qo_model.specs.Types.{has_finalizer};
ghost use Rattle.qo_model.specs.declared.notes.Deed.TheVariants.{Final};
ghost use Rattle.qo_heap.specs.Log.{noted_all};
ghost use Rattle.qo_heap.specs.Objects.{final_notes, with_kept_event, without_device, without_kept, without_one};

use crate::heap::Heap;
use qo_claims::{Claims, Kept};
use qo_events::{DeviceEvent, Events};
use qo_kinds::KeptSet;
use qo_model::{Deed, Note};
use qo_object::DeviceId;
use qo_types::TypeTable;
use qo_values::{Id, Text, TypeId};

/// Ends a claim, if there is one.
fn free_one(claims: &mut Claims, kept: Option<Kept>)
    ensures { claims.new ≡ without_one kept claims.old }
{
    match kept {
        Some(kept) => claims.free(kept),
        None => {}
    }
}

/// Ends the claims of a body.
pub fn free_kept(claims: &mut Claims, kept: KeptSet)
    ensures { claims.new ≡ without_kept kept claims.old }
{
    let KeptSet {
        slot,
        ring,
        backend,
        range,
    } = kept;
    free_one(claims, slot);
    free_one(claims, ring);
    free_one(claims, backend);
    free_one(claims, range);
}

/// Ends the claim on the id of a device, if there is one, and answers the id.
fn free_device(claims: &mut Claims, device: Option<DeviceId>) -> Option<Id>
    ensures free { claims.new ≡ without_device device claims.old }
    ensures id { result ≡ device }
{
    match device {
        Some(device) => {
            let (id, kept) = device.into_parts();
            claims.free(kept);
            Some(id)
        }
        None => None,
    }
}

/// Ends the claims of an object, and answers the id of its device.
pub fn free_all(claims: &mut Claims, kept: KeptSet, device: Option<DeviceId>) -> Option<Id>
    ensures free { claims.new ≡ without_device device (without_kept kept claims.old) }
    ensures id { result ≡ device }
{
    free_kept(claims, kept);
    free_device(claims, device)
}

/// Adds the event that a device was deleted, where its path was kept, in the place that was promised.
pub fn tell_deleted(events: &mut Events, id: Option<Id>, path: Option<Text>)
    requires { IfSome path (λ p. 1 ≤ events.old.promised) }
    ensures { events.new ≡ with_kept_event (option_map (λ p. record { deleted = true; id = id; path = p }) path) events.old }
{
    if let Some(path) = path {
        events.keep(DeviceEvent::deleted(id, path));
    }
}

impl Heap {
    /// Adds the final note of an object for a type, where this has a finalizer.
    fn note_final(&mut self, birth: u64, of: TypeId)
        ensures { self.new ≡ record self.old { log = noted_all (if has_finalizer of then record { birth = birth; deed = Final of } ∷ [] else []) self.old.log } }
    {
        if TypeTable::board().has_finalizer(of) {
            self.note(Note {
                birth,
                deed: Deed::Final(of),
            });
        }
    }

    /// Adds the final notes of an object of a type, derived first.
    pub(crate) fn note_end(&mut self, birth: u64, kind: TypeId)
        ensures { self.new ≡ record self.old { log = noted_all (final_notes birth kind) self.old.log } }
    {
        let ancestry = TypeTable::board().ancestry(kind);
        for place in 0..ancestry.len() {
            self.note_final(birth, ancestry[place]);
        }
    }
}
