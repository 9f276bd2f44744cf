//! What bars a device in its place: its slot, the depth of a bridge, the memory of a DIMM, and the ring
//! of a UART.

ghost use Rattle.std.specs.Prelude.{◌≡◌, ◌<◌, ◌≤◌, ℕ, List, true, false, is_some, None, Some, Ok, Err, IfOk, IfSome, OnOk, option_map};
ghost use Rattle.qo_values.specs.Placing.{is_in_window};
ghost use Rattle.qo_values.specs.declared.kinds.TypeId.{TypeId};
ghost use Rattle.qo_values.specs.declared.kinds.TypeId.TheVariants.{MemDimm, SlotBridge};
ghost use Rattle.qo_values.specs.declared.limits.TheConstants.{BUS_SLOTS};
ghost use Rattle.qo_claims.specs.Book.{is_taken};
ghost use Rattle.qo_claims.specs.Lists.{bus_slot};
ghost use Rattle.qo_claims.specs.declared.claims.Claimed.TheVariants as on;
ghost use Rattle.qo_model.specs.Board.{Board, Ring};
ghost use Rattle.qo_model.specs.Paths.{is_of};
ghost use Rattle.qo_model.specs.Plug.{bus_type, kind_barred, range_of, realize_barred, ring_barred, bus_slot_for};
ghost use Rattle.qo_model.specs.Objects.{Given};
ghost use Rattle.qo_model.specs.Plug as plug;
ghost use Rattle.qo_heap.specs.Rows.{IsLive};
ghost use Rattle.qo_heap.specs.Board.{Shows};
ghost use Rattle.qo_buses.specs.Recount.{IsRecounted};
ghost use Rattle.qo_buses.specs.Rings.{named_ring};
ghost use Rattle.qo_plug.specs.FreeResources.{AreFreeResources};
ghost use Rattle.qo_plug.specs.Admission.{IfRefused};
ghost use Rattle.qo_plug.specs.Resources.{IsChosen, IsFreeMemory, backend_given, ring_given};
ghost use Rattle.qo_plug.specs.DevicePlans.{HasGiven, IsFit, IsJudgedOn};
ghost use Rattle.qo_plug.specs.Stages.{resources_barred};

use crate::planning::{Planned, address_asked, backend_asked, ring_asked, slot_asked};
use crate::refusals::AddRefusal;
use crate::resources::{Memory, Resources};
use qo_buses::{depth, range_for, size_of};
use qo_chardev::Rings;
use qo_heap::{Heap, Oid, Steps};
use qo_values::{BUS_DEPTH_MAX, BUS_SLOTS, Code, Id, TypeId};
use std::alloc::Global;
use std::sync::ledger::Ledger;

/// A slot of a bus that is asked for. `E28` comes where a bus has no such slot, `E29` where it is
/// taken.
fn own_slot(heap: &Heap, bus: Oid, slot: u64) -> Result<u8, Code>
    ensures slot { (b : Board) (t : TypeId) → IsRecounted b heap.now.claims → is_of b (bus_type t) bus.birth ≡ true → bus_slot_for b bus.birth (Some slot) ≡ result }
    ensures within { IfOk result (λ s. s < BUS_SLOTS) }
    ensures free { IfOk result (λ s. is_taken (on.Slot (bus_slot bus.birth s)) heap.now.claims ≡ false) }
{
    if slot >= u64::from(BUS_SLOTS) {
        return Err(Code::E28);
    }
    let slot = slot as u8;
    if heap.book().is_slot_taken(bus.birth, slot) {
        return Err(Code::E29);
    }
    Ok(slot)
}

/// The slot of a bus where a device is to go: that which is asked for, or the least that is free.
/// `E28` comes where a bus has no such slot, `E29` where it is taken, `E30` where none is free.
fn slot_on(heap: &Heap, bus: Oid, asked: Option<u64>) -> Result<u8, Code>
    ensures slot { (b : Board) (t : TypeId) → IsRecounted b heap.now.claims → is_of b (bus_type t) bus.birth ≡ true → bus_slot_for b bus.birth asked ≡ result }
    ensures within { IfOk result (λ s. s < BUS_SLOTS) }
    ensures free { IfOk result (λ s. is_taken (on.Slot (bus_slot bus.birth s)) heap.now.claims ≡ false) }
{
    match asked {
        Some(slot) => own_slot(heap, bus, slot),
        None => match heap.book().free_slot(bus.birth) {
            Some(slot) => Ok(slot),
            None => Err(Code::E30),
        },
    }
}

/// Whether a bridge on a bus would have no more bridges above it than may be: `E42` comes where it
/// would have more.
fn check_depth<L: Ledger>(
    heap: &Heap,
    bus: Oid,
    steps: &mut Steps<L>,
) -> Result<Option<Memory>, AddRefusal>
    ensures open { (b : Board) (props : List Given) → Shows b heap.now → OnOk result (kind_barred b SlotBridge bus.birth props ≡ None) }
    ensures refused { (b : Board) (props : List Given) → Shows b heap.now → IfRefused result (λ stage code. (stage ≡ 5) × (kind_barred b SlotBridge bus.birth props ≡ Some code)) }
    ensures stage { IfRefused result (λ stage code. stage ≡ 5) }
    ensures none { IfOk result (λ memory. memory ≡ None) }
{
    if depth(heap, bus, steps) >= BUS_DEPTH_MAX {
        Err(AddRefusal::Refused {
            stage: 5,
            code: Code::E42,
        })
    } else {
        Ok(None)
    }
}

/// The range of a DIMM on a memory backend, at the address that is asked for, if one is. `E40` comes
/// where that range is taken or leaves the window, `E41` where none is asked for and there is no gap
/// for it. A backend of no bytes, which is on no sound board, is answered as want of memory.
fn memory_on<L: Ledger>(
    heap: &Heap,
    backend: Oid,
    asked: Option<u64>,
    steps: &mut Steps<L>,
) -> Result<Memory, AddRefusal>
    requires { IsLive heap.now.rows backend }
    ensures range { (b : Board) → Shows b heap.now → IsRecounted b heap.now.claims → IfOk result (λ m. Ok m.range ≡ plug.range_for b asked (plug.size_of b backend.birth)) }
    ensures refused { (b : Board) → Shows b heap.now → IsRecounted b heap.now.claims → IfRefused result (λ stage code. (stage ≡ 5) × (Err code ≡ plug.range_for b asked (plug.size_of b backend.birth))) }
    ensures stage { IfRefused result (λ stage code. stage ≡ 5) }
    ensures backend { IfOk result (λ m. m.backend ≡ backend.birth) }
    ensures free { IfOk result (λ m. (is_taken (on.Range m.range) heap.now.claims ≡ false) × (is_in_window m.range ≡ true) × (1 ≤ m.range.size)) }
{
    let size = size_of(heap, backend, steps);
    if size == 0 {
        return Err(AddRefusal::Memory);
    }
    match range_for(heap, asked, size) {
        Ok(range) => Ok(Memory {
            backend: backend.birth,
            range,
        }),
        Err(code) => Err(AddRefusal::Refused { stage: 5, code }),
    }
}

/// The memory of a DIMM, as it is planned. `E38` comes where it has no memory backend, `E39` where
/// another DIMM stands on that, and `E40` or `E41` of its range.
fn memory_for<L: Ledger>(
    heap: &Heap,
    planned: &Planned,
    steps: &mut Steps<L>,
) -> Result<Memory, AddRefusal>
    requires fit { IsFit planned.now heap.now }
    requires dimm { planned.now.target.kind ≡ MemDimm }
    ensures open { (b : Board) (bus : ℕ) (props : List Given) (rings : List Ring) → IsJudgedOn b props planned.now rings heap.now → OnOk result (kind_barred b MemDimm bus props ≡ None) }
    ensures refused { (b : Board) (bus : ℕ) (props : List Given) (rings : List Ring) → IsJudgedOn b props planned.now rings heap.now → IfRefused result (λ stage code. (stage ≡ 5) × (kind_barred b MemDimm bus props ≡ Some code)) }
    ensures stage { IfRefused result (λ stage code. stage ≡ 5) }
    ensures range { (b : Board) (props : List Given) (rings : List Ring) → IsJudgedOn b props planned.now rings heap.now → IfOk result (λ m. range_of b MemDimm props ≡ Some m.range) }
    ensures backend { (b : Board) (props : List Given) → HasGiven b props planned.now → IfOk result (λ m. backend_given b MemDimm props ≡ Some m.backend) }
    ensures free { IfOk result (λ m. IsFreeMemory m heap.now.claims) }
{
    let Some(backend) = backend_asked(planned) else {
        return Err(AddRefusal::Refused {
            stage: 5,
            code: Code::E38,
        });
    };
    if heap.book().is_backend_taken(backend.birth) {
        return Err(AddRefusal::Refused {
            stage: 5,
            code: Code::E39,
        });
    }
    memory_on(heap, backend, address_asked(planned), steps)
}

/// The memory of a device, if it is to have one, as it is planned; and what bars it from a bus that
/// has a slot for it: `E42` comes where a bridge would be too deep, `E38`, `E39`, `E40` or `E41`
/// of the memory of a DIMM.
fn check_kind<L: Ledger>(
    heap: &Heap,
    planned: &Planned,
    steps: &mut Steps<L>,
) -> Result<Option<Memory>, AddRefusal>
    requires { IsFit planned.now heap.now }
    ensures open { (b : Board) (props : List Given) (rings : List Ring) → IsJudgedOn b props planned.now rings heap.now → OnOk result (kind_barred b planned.now.target.kind planned.now.target.bus.birth props ≡ None) }
    ensures refused { (b : Board) (props : List Given) (rings : List Ring) → IsJudgedOn b props planned.now rings heap.now → IfRefused result (λ stage code. (stage ≡ 5) × (kind_barred b planned.now.target.kind planned.now.target.bus.birth props ≡ Some code)) }
    ensures stage { IfRefused result (λ stage code. stage ≡ 5) }
    ensures range { (b : Board) (props : List Given) (rings : List Ring) → IsJudgedOn b props planned.now rings heap.now → IfOk result (λ memory. option_map (λ m. m.range) memory ≡ range_of b planned.now.target.kind props) }
    ensures backend { (b : Board) (props : List Given) → HasGiven b props planned.now → IfOk result (λ memory. option_map (λ m. m.backend) memory ≡ backend_given b planned.now.target.kind props) }
    ensures dimm { IfOk result (λ memory. is_some memory ≡ true → planned.now.target.kind ≡ MemDimm) }
    ensures free { IfOk result (λ memory. IfSome memory (λ m. IsFreeMemory m heap.now.claims)) }
{
    match planned.target.kind {
        TypeId::MemDimm => match memory_for(heap, planned, steps) {
            Ok(memory) => Ok(Some(memory)),
            Err(refusal) => Err(refusal),
        },
        TypeId::SlotBridge => check_depth(heap, planned.target.bus, steps),
        _ => Ok(None),
    }
}

/// The id of the ring of a name, where no UART has claimed it; the empty name is that of none. `E36`
/// comes where there is no such ring, `E37` where a UART has claimed it.
fn free_ring(
    heap: &Heap,
    rings: &Rings,
    name: &str,
    alloc: Global,
) -> Result<Option<Id>, AddRefusal>
    ensures ring { IfOk result (λ ring. ring ≡ named_ring name.now) }
    ensures open { (b : Board) → IsRecounted b heap.now.claims → b.rings ≡ rings.now → OnOk result (ring_barred b name.now ≡ None) }
    ensures refused { (b : Board) → IsRecounted b heap.now.claims → b.rings ≡ rings.now → IfRefused result (λ stage code. (stage ≡ 6) × (ring_barred b name.now ≡ Some code)) }
    ensures stage { IfRefused result (λ stage code. stage ≡ 6) }
    ensures free { IfOk result (λ ring. IfSome ring (λ id. is_taken (on.Ring id) heap.now.claims ≡ false)) }
{
    if name.is_empty() {
        return Ok(None);
    }
    if !rings.has(name) {
        return Err(AddRefusal::Refused {
            stage: 6,
            code: Code::E36,
        });
    }
    if heap.book().is_ring_taken(name) {
        return Err(AddRefusal::Refused {
            stage: 6,
            code: Code::E37,
        });
    }
    match Id::parse(alloc, name) {
        Ok(id) => Ok(Some(id)),
        Err(_) => Err(AddRefusal::Memory),
    }
}

/// The id of the ring of a device, if it is to have one, as it is planned. `E36` and `E37` come of the
/// ring of a UART.
fn ring_for(
    heap: &Heap,
    rings: &Rings,
    planned: &Planned,
    alloc: Global,
) -> Result<Option<Id>, AddRefusal>
    ensures open { (b : Board) (props : List Given) → IsJudgedOn b props planned.now rings.now heap.now → OnOk result (realize_barred b planned.now.target.kind props ≡ None) }
    ensures refused { (b : Board) (props : List Given) → IsJudgedOn b props planned.now rings.now heap.now → IfRefused result (λ stage code. (stage ≡ 6) × (realize_barred b planned.now.target.kind props ≡ Some code)) }
    ensures stage { IfRefused result (λ stage code. stage ≡ 6) }
    ensures ring { (b : Board) (props : List Given) → HasGiven b props planned.now → IfOk result (λ ring. ring ≡ ring_given planned.now.target.kind props) }
    ensures free { IfOk result (λ ring. IfSome ring (λ id. is_taken (on.Ring id) heap.now.claims ≡ false)) }
{
    match planned.target.kind {
        TypeId::SlotUart => free_ring(heap, rings, ring_asked(planned), alloc),
        _ => Ok(None),
    }
}

/// Where a device is to stand on its bus, and what it claims besides, as it is planned.
/// Refused by the first that stands: with `E28`, `E29` or `E30` for its slot, `E42` for the depth of a
/// bridge, `E38`, `E39`, `E40` or `E41` for the memory of a DIMM (stage 5), and then `E36` or `E37` for
/// the ring of a UART (stage 6). The other error is want of memory.
pub(crate) fn pre_plug<L: Ledger>(
    heap: &Heap,
    rings: &Rings,
    planned: &Planned,
    alloc: Global,
    steps: &mut Steps<L>,
) -> Result<Resources, AddRefusal>
    requires { IsFit planned.now heap.now }
    ensures open { (b : Board) (props : List Given) → IsJudgedOn b props planned.now rings.now heap.now → OnOk result (resources_barred b planned.now.target.kind planned.now.target.bus.birth props ≡ None) }
    ensures refused { (b : Board) (props : List Given) → IsJudgedOn b props planned.now rings.now heap.now → IfRefused result (λ stage code. resources_barred b planned.now.target.kind planned.now.target.bus.birth props ≡ Some (stage, code)) }
    ensures stages { IfRefused result (λ stage code. (5 ≤ stage) × (stage ≤ 6)) }
    ensures resources { (b : Board) (props : List Given) → IsJudgedOn b props planned.now rings.now heap.now → IfOk result (λ s. IsChosen b planned.now.target.kind planned.now.target.bus.birth props s) }
    ensures within { IfOk result (λ s. s.slot < BUS_SLOTS) }
    ensures dimm { IfOk result (λ s. is_some s.memory ≡ true → planned.now.target.kind ≡ MemDimm) }
    ensures free { IfOk result (λ s. AreFreeResources planned.now.target.bus.birth s heap.now.claims) }
{
    let slot = match slot_on(heap, planned.target.bus, slot_asked(planned)) {
        Ok(slot) => slot,
        Err(code) => return Err(AddRefusal::Refused { stage: 5, code }),
    };
    let memory = match check_kind(heap, planned, steps) {
        Ok(memory) => memory,
        Err(refusal) => return Err(refusal),
    };
    match ring_for(heap, rings, planned, alloc) {
        Ok(ring) => Ok(Resources { slot, ring, memory }),
        Err(refusal) => Err(refusal),
    }
}
