//! The claims of a device: on its id, on its slot of a bus, on the ring of a UART, and on the memory
//! backend of a DIMM and its range. They are taken before it stands, and given back where it does not
//! come to stand.

ghost use Rattle.std.specs.Prelude.{◌≡◌, ◌≤◌, ◌<◌, ◌++◌, ◌∷◌, List, true, false, Some, None, IfOk, IfSome, OnOk, OnErr, option_map, option_and_then};
ghost use Rattle.qo_claims.specs.Book.{is_taken, with_claim};
ghost use Rattle.qo_claims.specs.Lists.{bus_slot};
ghost use Rattle.qo_claims.specs.declared.claims.Claimed.{Claimed};
ghost use Rattle.qo_claims.specs.declared.claims.Claimed.TheVariants as on;
ghost use Rattle.qo_claims.specs.declared.errors.ClaimError.TheVariants as refusal;
ghost use Rattle.qo_values.specs.Placing.{is_in_window};
ghost use Rattle.qo_values.specs.declared.limits.TheConstants.{BUS_SLOTS};
ghost use Rattle.qo_heap.specs.Book.{IsBook};
ghost use Rattle.qo_heap.specs.Objects.{content_of, with_edit};
ghost use Rattle.qo_kinds.specs.Bodies.{IsBare, none_kept};
ghost use Rattle.qo_heap.specs.Rows.{IsLive};
ghost use Rattle.qo_plug.specs.Placement.{kept_in, named, with_book};
ghost use Rattle.qo_plug.specs.DeviceClaims.{id_claims_out, kept_on, kept_out, one_out, taken_out, with_one};
ghost use Rattle.qo_plug.specs.FreeResources.{AreFreeResources, IsFreeId};

use crate::resources::{Memory, Resources};
use qo_claims::{Claim, ClaimError, Kept, keep};
use qo_heap::{Heap, Oid, Steps};
use qo_kinds::{KeptSet, no_claim};
use qo_values::Id;
use std::alloc::AllocError;
use std::mem::replace;
use std::sync::ledger::Ledger;

/// The id of a device, with the claim on it.
pub struct IdClaim {
    id: Id,
    claim: Claim,
}

/// The claims that were taken for a device.
pub struct DeviceClaims {
    /// That on its id, if it has one.
    pub id_claim: Option<IdClaim>,
    /// Those that its body is to keep.
    pub kept: KeptSet,
}

/// The error of a claim on what is free, which is only ever that memory ran out.
fn memory_alone(error: ClaimError) -> AllocError
    requires { error ≡ refusal.Memory }
{
    match error {
        ClaimError::Memory => AllocError,
        ClaimError::Range | ClaimError::Taken | ClaimError::Full => unreachable!(),
    }
}

/// Claims the id of a device, if it has one, which is free. The error says that memory ran out, and
/// leaves the heap as it was.
fn take_id_claim(heap: &mut Heap, id: Option<Id>) -> Result<Option<IdClaim>, AllocError>
    requires { IsFreeId id heap.old.claims }
    ensures id { IfOk result (λ id_claim. option_map (λ l. l.id) id_claim ≡ id) }
    ensures on { IfOk result (λ id_claim. IfSome id_claim (λ l. l.claim ≡ on.Device l.id)) }
    ensures rest { heap.new ≡ with_book heap.new.claims heap.old }
    ensures claims { IfOk result (λ id_claim. heap.new.claims ≡ with_one (option_map (λ l. l.claim) id_claim) heap.old.claims) }
    ensures book { IfOk result (λ id_claim. (out : List Claimed) → IsBook out heap.old → IsBook (id_claims_out id_claim ++ out) heap.new) }
    ensures err { OnErr result (heap.new ≡ heap.old) }
{
    let Some(id) = id else {
        return Ok(None);
    };
    match heap.claims().take_id(&id) {
        Ok(claim) => Ok(Some(IdClaim { id, claim })),
        Err(error) => Err(memory_alone(error)),
    }
}

/// Claims a slot of a bus, which is free. The error says that memory ran out, and leaves the heap as it
/// was.
fn take_slot(heap: &mut Heap, bus: u64, slot: u8) -> Result<Kept, AllocError>
    requires below { slot < BUS_SLOTS }
    requires free { is_taken (on.Slot (bus_slot bus slot)) heap.old.claims ≡ false }
    ensures on { IfOk result (λ kept. kept ≡ on.Slot (bus_slot bus slot)) }
    ensures rest { heap.new ≡ with_book heap.new.claims heap.old }
    ensures claims { IfOk result (λ kept. heap.new.claims ≡ with_claim kept heap.old.claims) }
    ensures book { IfOk result (λ kept. (out : List Claimed) → IsBook out heap.old → IsBook (kept ∷ out) heap.new) }
    ensures err { OnErr result (heap.new ≡ heap.old) }
{
    match heap.claims().take_slot(bus, Some(slot)) {
        Ok(claim) => Ok(keep(claim)),
        Err(error) => Err(memory_alone(error)),
    }
}

/// Claims a ring, if there is one, which is free. The error says that memory ran out, and leaves the heap
/// as it was.
fn take_ring(heap: &mut Heap, ring: &Option<Id>) -> Result<Option<Kept>, AllocError>
    requires { IfSome ring.now (λ id. is_taken (on.Ring id) heap.old.claims ≡ false) }
    ensures on { IfOk result (λ kept. kept ≡ option_map on.Ring ring.now) }
    ensures rest { heap.new ≡ with_book heap.new.claims heap.old }
    ensures claims { IfOk result (λ kept. heap.new.claims ≡ with_one kept heap.old.claims) }
    ensures book { IfOk result (λ kept. (out : List Claimed) → IsBook out heap.old → IsBook (one_out kept ++ out) heap.new) }
    ensures err { OnErr result (heap.new ≡ heap.old) }
{
    let Some(id) = ring else {
        return Ok(None);
    };
    match heap.claims().take_ring(id) {
        Ok(claim) => Ok(Some(keep(claim))),
        Err(error) => Err(memory_alone(error)),
    }
}

/// Claims the backend of a memory, if there is one, which is free. The error says that memory ran out,
/// and leaves the heap as it was.
fn take_backend(heap: &mut Heap, memory: Option<Memory>) -> Result<Option<Kept>, AllocError>
    requires { IfSome memory (λ m. is_taken (on.Backend m.backend) heap.old.claims ≡ false) }
    ensures on { IfOk result (λ kept. kept ≡ option_map (λ m. on.Backend m.backend) memory) }
    ensures rest { heap.new ≡ with_book heap.new.claims heap.old }
    ensures claims { IfOk result (λ kept. heap.new.claims ≡ with_one kept heap.old.claims) }
    ensures book { IfOk result (λ kept. (out : List Claimed) → IsBook out heap.old → IsBook (one_out kept ++ out) heap.new) }
    ensures err { OnErr result (heap.new ≡ heap.old) }
{
    let Some(memory) = memory else {
        return Ok(None);
    };
    match heap.claims().take_backend(memory.backend) {
        Ok(claim) => Ok(Some(keep(claim))),
        Err(error) => Err(memory_alone(error)),
    }
}

/// Claims the range of a memory, if there is one: it lies in the window, is not empty, and overlaps none
/// that is held. The error says that memory ran out, and leaves the heap as it was.
fn take_range(heap: &mut Heap, memory: Option<Memory>) -> Result<Option<Kept>, AllocError>
    requires free { IfSome memory (λ m. is_taken (on.Range m.range) heap.old.claims ≡ false) }
    requires window { IfSome memory (λ m. is_in_window m.range ≡ true) }
    requires size { IfSome memory (λ m. 1 ≤ m.range.size) }
    ensures on { IfOk result (λ kept. kept ≡ option_map (λ m. on.Range m.range) memory) }
    ensures rest { heap.new ≡ with_book heap.new.claims heap.old }
    ensures book { IfOk result (λ kept. (out : List Claimed) → IsBook out heap.old → IsBook (one_out kept ++ out) heap.new) }
    ensures err { OnErr result (heap.new ≡ heap.old) }
{
    let Some(Memory { range, .. }) = memory else {
        return Ok(None);
    };
    match heap.claims().take_range(Some(range.at), range.size) {
        Ok(claim) => Ok(Some(keep(claim))),
        Err(error) => Err(memory_alone(error)),
    }
}

/// Gives a claim back.
fn give_one(heap: &mut Heap, claim: Claim)
    ensures rest { heap.new ≡ with_book heap.new.claims heap.old }
    ensures book { (out : List Claimed) → IsBook (claim ∷ out) heap.old → IsBook out heap.new }
{
    heap.claims().give_back(claim);
}

/// Gives the claim on the id of a device back, if it has one.
fn give_id_claim(heap: &mut Heap, id_claim: Option<IdClaim>)
    ensures rest { heap.new ≡ with_book heap.new.claims heap.old }
    ensures book { (out : List Claimed) → IsBook (id_claims_out id_claim ++ out) heap.old → IsBook out heap.new }
{
    match id_claim {
        Some(IdClaim { id: _, claim }) => give_one(heap, claim),
        None => {}
    }
}

/// Ends a kept claim, if there is one.
fn free_one(heap: &mut Heap, kept: Option<Kept>)
    ensures rest { heap.new ≡ with_book heap.new.claims heap.old }
    ensures book { (out : List Claimed) → IsBook (one_out kept ++ out) heap.old → IsBook out heap.new }
{
    match kept {
        Some(kept) => heap.claims().free(kept),
        None => {}
    }
}

/// Ends the claims of a set.
fn free_all(heap: &mut Heap, kept: KeptSet)
    ensures rest { heap.new ≡ with_book heap.new.claims heap.old }
    ensures book { (out : List Claimed) → IsBook (kept_out kept ++ out) heap.old → IsBook out heap.new }
{
    let KeptSet {
        slot,
        ring,
        backend,
        range,
    } = kept;
    free_one(heap, range);
    free_one(heap, backend);
    free_one(heap, ring);
    free_one(heap, slot);
}

/// A place without a claim has this one, if there is one.
fn put_one(place: &mut Option<Kept>, kept: Option<Kept>)
    requires { place.old ≡ None }
    ensures { place.new ≡ kept }
{
    no_claim(replace(place, kept));
}

/// Takes the claims of a device that its body is to keep, which are free, into a set without claims. The
/// error says that memory ran out; the claims that were taken until then are in the set.
fn take_into(
    heap: &mut Heap,
    bus: u64,
    resources: &Resources,
    kept: &mut KeptSet,
) -> Result<(), AllocError>
    requires none { kept.old ≡ none_kept }
    requires below { resources.now.slot < BUS_SLOTS }
    requires free { AreFreeResources bus resources.now heap.old.claims }
    ensures on { OnOk result (kept.new ≡ kept_on bus resources.now) }
    ensures rest { heap.new ≡ with_book heap.new.claims heap.old }
    ensures book { (out : List Claimed) → IsBook out heap.old → IsBook (kept_out kept.new ++ out) heap.new }
{
    let slot = take_slot(heap, bus, resources.slot)?;
    put_one(&mut kept.slot, Some(slot));
    let ring = take_ring(heap, &resources.ring)?;
    put_one(&mut kept.ring, ring);
    let backend = take_backend(heap, resources.memory)?;
    put_one(&mut kept.backend, backend);
    let range = take_range(heap, resources.memory)?;
    put_one(&mut kept.range, range);
    Ok(())
}

/// Takes the claims of a device, which are free. The error says that memory ran out; all is as it was,
/// but that the book may have other room.
pub fn take_claims(
    heap: &mut Heap,
    id: Option<Id>,
    bus: u64,
    resources: &Resources,
) -> Result<DeviceClaims, AllocError>
    requires below { resources.now.slot < BUS_SLOTS }
    requires free_id { IsFreeId id heap.old.claims }
    requires free { AreFreeResources bus resources.now heap.old.claims }
    ensures id { IfOk result (λ taken. option_map (λ l. l.id) taken.id_claim ≡ id) }
    ensures on { IfOk result (λ taken. IfSome taken.id_claim (λ l. l.claim ≡ on.Device l.id)) }
    ensures kept { IfOk result (λ taken. taken.kept ≡ kept_on bus resources.now) }
    ensures rest { heap.new ≡ with_book heap.new.claims heap.old }
    ensures book { IfOk result (λ taken. (out : List Claimed) → IsBook out heap.old → IsBook (taken_out taken ++ out) heap.new) }
    ensures err { OnErr result ((out : List Claimed) → IsBook out heap.old → IsBook out heap.new) }
{
    let id_claim = take_id_claim(heap, id)?;
    let mut kept = KeptSet::none();
    match take_into(heap, bus, resources, &mut kept) {
        Ok(()) => Ok(DeviceClaims { id_claim, kept }),
        Err(error) => {
            give_back(heap, DeviceClaims { id_claim, kept });
            Err(error)
        }
    }
}

/// Gives the claims of a device back.
pub fn give_back(heap: &mut Heap, taken: DeviceClaims)
    ensures rest { heap.new ≡ with_book heap.new.claims heap.old }
    ensures book { (out : List Claimed) → IsBook (taken_out taken ++ out) heap.old → IsBook out heap.new }
{
    let DeviceClaims { id_claim, kept } = taken;
    free_all(heap, kept);
    give_id_claim(heap, id_claim);
}

/// The body of an object without claims keeps these.
pub fn keep_claims<L: Ledger>(heap: &mut Heap, o: Oid, kept: KeptSet, steps: &mut Steps<L>)
    requires live { IsLive heap.old.rows o }
    requires bare { IfSome (content_of heap.old o.birth) (λ c. IsBare c.body) }
    ensures now { heap.new ≡ with_edit o.birth (kept_in kept) heap.old }
    ensures book { (out : List Claimed) → IsBook (kept_out kept ++ out) heap.old → IsBook out heap.new }
{
    heap.reveal_invariant();
    heap.body_mut(o, steps).keep_claims(kept);
}

/// A device without an id has this one, and keeps the claim on it.
pub fn keep_id_claim<L: Ledger>(
    heap: &mut Heap,
    device: Oid,
    id_claim: Option<IdClaim>,
    steps: &mut Steps<L>,
)
    requires live { IsLive heap.old.rows device }
    requires on { IfSome id_claim (λ l. l.claim ≡ on.Device l.id) }
    requires unnamed { option_and_then (λ c. c.device_id) (content_of heap.old device.birth) ≡ None }
    ensures now { heap.new ≡ with_edit device.birth (named (option_map (λ l. l.id) id_claim)) heap.old }
    ensures book { (out : List Claimed) → IsBook (id_claims_out id_claim ++ out) heap.old → IsBook out heap.new }
{
    heap.reveal_invariant();
    match id_claim {
        Some(IdClaim { id, claim }) => heap.name_device(device, id, claim, steps),
        None => {}
    }
}
