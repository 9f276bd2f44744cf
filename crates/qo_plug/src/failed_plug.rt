//! An attempt at a device that the notices refuse: it is realized and reset with its buses, though it
//! stands nowhere, and given up with nothing left but its births and notes.

ghost use Rattle.std.specs.Prelude.{◌≡◌, ◌+◌, ◌≤◌, ◌<◌, ◌==◌, ℕ, List, slice_get, IfSome};
ghost use Rattle.std.specs.Option.{option_and_then};
ghost use Rattle.qo_values.specs.declared.kinds.Act.TheVariants.{Exit};
ghost use Rattle.qo_values.specs.declared.kinds.TypeId.{TypeId};
ghost use Rattle.qo_model.specs.Board.{Board};
ghost use Rattle.qo_model.specs.Objects.{Given};
ghost use Rattle.qo_model.specs.Plug.{plug_attempt};
ghost use Rattle.qo_model.specs.Reset.{count};
ghost use Rattle.qo_sound.specs.TreeKept.{SoundTree};
ghost use Rattle.qo_heap.specs.Rows.{IsLive};
ghost use Rattle.qo_heap.specs.Board.{Shows};
ghost use Rattle.qo_heap.specs.Objects.{pins_of};
ghost use Rattle.qo_properties.specs.Claims.{KeepsBook};
ghost use Rattle.qo_properties.specs.KeptClaims.{KeptBefore};
ghost use Rattle.qo_reset.specs.Phases.{walked};
ghost use Rattle.qo_plug.specs.Attempts.{first_acted, last_acted, let_out, new_bus, new_buses, passed_on};
ghost use Rattle.qo_plug.specs.Drafts.{IsQuiet, given_draft};

use qo_heap::{Heap, Oid, Steps};
use qo_life::drop_pin;
use qo_types::TypeTable;
use qo_values::{Act, TypeId};
use std::sync::ledger::Ledger;

/// The bus that the object at a place in the order of births is, if it is one of a new device: of the
/// device's birth or a later one.
fn new_bus_at<L: Ledger>(
    heap: &Heap,
    place: usize,
    device: Oid,
    steps: &mut Steps<L>,
) -> Option<Oid>
    ensures bus { result ≡ option_and_then (new_bus device.birth) (slice_get heap.now.rows place) }
    ensures live { IfSome result (IsLive heap.now.rows) }
    ensures later { IfSome result (λ o. device.birth ≤ o.birth) }
{
    heap.reveal_invariant();
    let o = heap.oid_at(place)?;
    if o.birth < device.birth {
        return None;
    }
    if TypeTable::board().derives_from(heap.kind(o, steps), TypeId::Bus) {
        return Some(o);
    }
    None
}

/// An act of the buses of a new device, in the order of their births. Only objects from the device's
/// birth on are looked at.
fn act_buses<L: Ledger>(heap: &mut Heap, device: Oid, act: Act, steps: &mut Steps<L>)
    requires quiet { (n : ℕ) → device.birth ≤ n → IsQuiet heap.old n }
    ensures { heap.new ≡ walked act (new_buses device.birth heap.old.rows) heap.old }
{
    for place in heap.place_from(device.birth)..heap.live() {
        if let Some(bus) = new_bus_at(heap, place, device, steps) {
            heap.act(bus, act, 0, steps);
        }
    }
}

/// An act of a new device, and then of its buses.
fn act_first<L: Ledger>(heap: &mut Heap, device: Oid, act: Act, steps: &mut Steps<L>)
    requires live { IsLive heap.old.rows device }
    requires quiet { (n : ℕ) → device.birth ≤ n → IsQuiet heap.old n }
    ensures { heap.new ≡ first_acted act device.birth heap.old }
{
    heap.act(device, act, 0, steps);
    act_buses(heap, device, act, steps);
}

/// An act of the buses of a new device, and then of the device.
fn act_last<L: Ledger>(heap: &mut Heap, device: Oid, act: Act, steps: &mut Steps<L>)
    requires live { IsLive heap.old.rows device }
    requires quiet { (n : ℕ) → device.birth ≤ n → IsQuiet heap.old n }
    ensures { heap.new ≡ last_acted act device.birth heap.old }
{
    act_buses(heap, device, act, steps);
    heap.act(device, act, 0, steps);
}

/// A new device and its buses leave their reset, where no hold is on the bus.
fn let_out<L: Ledger>(heap: &mut Heap, device: Oid, out: bool, steps: &mut Steps<L>)
    requires live { IsLive heap.old.rows device }
    requires quiet { (n : ℕ) → device.birth ≤ n → IsQuiet heap.old n }
    ensures { heap.new ≡ let_out out device.birth heap.old }
{
    if out {
        act_last(heap, device, Act::Exit, steps);
    }
}

/// A new device that stands nowhere is realized, goes through the phases of a reset, to the last one
/// only where it is told so, and is unrealized, with its buses.
fn pass<L: Ledger>(heap: &mut Heap, device: Oid, out: bool, steps: &mut Steps<L>)
    requires live { IsLive heap.old.rows device }
    requires quiet { (n : ℕ) → device.birth ≤ n → IsQuiet heap.old n }
    ensures { heap.new ≡ passed_on out device.birth heap.old }
{
    act_first(heap, device, Act::Realize, steps);
    act_last(heap, device, Act::Enter, steps);
    act_last(heap, device, Act::Hold, steps);
    let_out(heap, device, out, steps);
    act_last(heap, device, Act::Unrealize, steps);
}

/// Gives a new device up that the notices refuse: it is realized and reset, to the last phase only
/// where no hold is on its bus, as `out` tells, and unrealized; its births and notes are left.
pub(crate) fn refuse<L: Ledger>(heap: &mut Heap, device: Oid, out: bool, steps: &mut Steps<L>)
    requires live { IsLive heap.old.rows device }
    requires pinned { 0 < pins_of heap.old device.birth }
    requires quiet { (n : ℕ) → device.birth ≤ n → IsQuiet heap.old n }
    ensures shown { (b : Board) (t : TypeId) (props : List Given) (bus : ℕ) → SoundTree b → device.birth ≡ b.born + 1 → out ≡ (count b bus == 0) → Shows (given_draft b t props) heap.old → Shows (plug_attempt b t bus 8) heap.new }
    ensures book { KeepsBook heap.old heap.new }
    ensures kept { KeptBefore heap.old heap.new }
{
    pass(heap, device, out, steps);
    drop_pin(heap, device, steps);
}
