//! The registers of devices, as the guest reads and writes them (docs/PROFILE.md, guest lines).

ghost use Rattle.std.specs.Prelude.{◌≡◌, IfNone, IfSome, List, is_some, ℕ};
ghost use Rattle.qo_values.specs.Registers as bodies;
ghost use Rattle.qo_kinds.specs.Bodies.{IsTimely};
ghost use Rattle.qo_kinds.specs.Effects.{shown_effect};
ghost use Rattle.qo_model.specs.Board.{Board as Tree, Ring};
ghost use Rattle.qo_clocks.specs.Kept.{Clocked, PeriodsKept};
ghost use Rattle.qo_heap.specs.Rows.{IsLive};
ghost use Rattle.qo_heap.specs.Board.{Shows};
ghost use Rattle.qo_heap.specs.Objects.{content_of};
ghost use Rattle.qo_properties.specs.Claims.{KeepsBook};
ghost use Rattle.qo_properties.specs.KeptClaims.{KeptBefore};
ghost use Rattle.qo_buses.specs.Rings.{claimed_ring};
ghost use Rattle.qo_reset.specs.Counts.{CountsKept};
ghost use Rattle.qo_realize.specs.Registers.{GuestWrites, HasWritten, IsHeld, Written, after_effect, guest_read, guest_written, registers_written};
ghost use Rattle.qo_realize.specs.Representation.{Stands};

use crate::board::Board;
use qo_buses::{claimed_ring, first_bus};
use qo_chardev::Rings;
use qo_clocks::device_period;
use qo_heap::{Heap, Oid, Steps};
use qo_kinds::Effect;
use qo_reset::Resets;
use qo_values::ResetKind;
use std::sync::ledger::Ledger;

/// Whether a device has claimed a ring.
fn has_ring<L: Ledger>(heap: &Heap, dev: Oid, steps: &mut Steps<L>) -> bool
    requires { IsLive heap.now.rows dev }
    ensures { (b : Tree) → Shows b heap.now → result ≡ is_some (claimed_ring b dev.birth) }
{
    claimed_ring(heap, dev, steps).is_some()
}

/// Writes to a register of a device, and answers what the write does beside; `None` exactly where the
/// register is absent, which leaves all as it was.
fn write_register<L: Ledger>(
    heap: &mut Heap,
    dev: Oid,
    reg: u8,
    value: u32,
    steps: &mut Steps<L>,
) -> Option<Effect>
    requires live { IsLive heap.old.rows dev }
    requires timely { IfSome (content_of heap.old dev.birth) (λ c. IsTimely heap.old.time c.body) }
    ensures written { (b : Tree) → Shows b heap.old → Clocked b heap.old → HasWritten b dev.birth (registers_written b dev.birth reg value) result heap.new }
    ensures book { KeepsBook heap.old heap.new }
    ensures kept { KeptBefore heap.old heap.new }
    ensures live { IsLive heap.new.rows dev }
    ensures counts { (holds : List ℕ) → CountsKept holds heap.old → CountsKept holds heap.new }
    ensures periods { PeriodsKept heap.old → PeriodsKept heap.new }
    ensures absent { IfNone result (heap.new ≡ heap.old) }
{
    heap.reveal_invariant();
    let ring = has_ring(heap, dev, steps);
    let period = device_period(heap, dev, steps);
    let time = heap.time();
    heap.body_mut(dev, steps)
        .write(reg, value, ring, time, period)
}

/// Adds a byte to the ring that a device has claimed; it goes nowhere where there is none.
fn send<L: Ledger>(heap: &Heap, rings: &mut Rings, dev: Oid, byte: u8, steps: &mut Steps<L>)
    requires { IsLive heap.now.rows dev }
    ensures { (b : Tree) → (holds : List ℕ) → IsHeld b holds rings.old heap.now → IsHeld (after_effect dev.birth (bodies.byte byte) b) holds rings.new heap.now }
{
    if let Some(id) = claimed_ring(heap, dev, steps) {
        rings.push(id.as_str(), byte);
    }
}

/// The first bus of a device goes through the phases of a cold reset.
fn pulse_bus<L: Ledger>(heap: &mut Heap, resets: &mut Resets, dev: Oid, steps: &mut Steps<L>)
    requires live { IsLive heap.old.rows dev }
    requires counts { CountsKept resets.old.births heap.old }
    ensures shown { (b : Tree) → (rings : List Ring) → IsHeld b resets.old.births rings heap.old → IsHeld (after_effect dev.birth bodies.pulse b) resets.new.births rings heap.new }
    ensures book { KeepsBook heap.old heap.new }
    ensures kept { KeptBefore heap.old heap.new }
    ensures counts { CountsKept resets.new.births heap.new }
    ensures periods { PeriodsKept heap.old → PeriodsKept heap.new }
{
    if let Some(bus) = first_bus(heap, dev, steps) {
        resets.pulse(heap, bus, ResetKind::Cold, steps);
    }
}

/// Does what a write to a register of a device does beside: its first bus goes through the phases of a
/// reset; a byte goes to the ring that it has claimed.
fn do_beside<L: Ledger>(
    heap: &mut Heap,
    resets: &mut Resets,
    rings: &mut Rings,
    dev: Oid,
    effect: Effect,
    steps: &mut Steps<L>,
)
    requires live { IsLive heap.old.rows dev }
    requires counts { CountsKept resets.old.births heap.old }
    ensures shown { (b : Tree) → IsHeld b resets.old.births rings.old heap.old → IsHeld (after_effect dev.birth (shown_effect effect) b) resets.new.births rings.new heap.new }
    ensures book { KeepsBook heap.old heap.new }
    ensures kept { KeptBefore heap.old heap.new }
    ensures counts { CountsKept resets.new.births heap.new }
    ensures periods { PeriodsKept heap.old → PeriodsKept heap.new }
{
    match effect {
        Effect::Nothing => {}
        Effect::Byte(byte) => send(heap, rings, dev, byte, steps),
        Effect::Pulse => pulse_bus(heap, resets, dev, steps),
    }
}

/// Writes to a register of a device, and does what the write does beside; `None` exactly where the
/// register is absent, which leaves all as it was.
fn write_through<L: Ledger>(
    heap: &mut Heap,
    resets: &mut Resets,
    rings: &mut Rings,
    dev: Oid,
    reg: u8,
    value: u32,
    steps: &mut Steps<L>,
) -> Option<()>
    requires live { IsLive heap.old.rows dev }
    requires counts { CountsKept resets.old.births heap.old }
    requires timely { IfSome (content_of heap.old dev.birth) (λ c. IsTimely heap.old.time c.body) }
    ensures written { (b : Tree) → IsHeld b resets.old.births rings.old heap.old → Clocked b heap.old → Written (guest_written b dev.birth reg value) result resets.new.births rings.new heap.new }
    ensures book { KeepsBook heap.old heap.new }
    ensures kept { KeptBefore heap.old heap.new }
    ensures counts { CountsKept resets.new.births heap.new }
    ensures periods { PeriodsKept heap.old → PeriodsKept heap.new }
    ensures absent { IfNone result ((heap.new ≡ heap.old) × (resets.new.births ≡ resets.old.births) × (rings.new ≡ rings.old)) }
{
    let effect = write_register(heap, dev, reg, value, steps)?;
    do_beside(heap, resets, rings, dev, effect, steps);
    Some(())
}

impl Board {
    /// What a register of a device reads (docs/PROFILE.md, device registers); `None` exactly where the
    /// device has no such register. It takes no memory.
    pub fn guest_read<L: Ledger>(&self, dev: Oid, reg: u8, steps: &mut Steps<L>) -> Option<u32>
        requires { IsLive self.now.objects.rows dev }
        ensures { (b : Tree) → Stands b self.now → result ≡ guest_read b dev.birth reg }
    {
        let ring = has_ring(&self.heap, dev, steps);
        let period = device_period(&self.heap, dev, steps);
        let time = self.heap.time();
        self.heap.body(dev, steps).read(reg, ring, time, period)
    }

    /// Writes `value` to a register of a device, and does what the write does beside: a bridge whose bit
    /// is raised has its first bus go through the phases of a reset, and a byte that a UART sends goes to
    /// the ring that it has claimed (docs/PROFILE.md, device registers).
    /// `None` comes exactly where the device has no such register, and leaves the board as it was. It
    /// takes no memory.
    pub fn guest_write<L: Ledger>(
        &mut self,
        dev: Oid,
        reg: u8,
        value: u32,
        steps: &mut Steps<L>,
    ) -> Option<()>
        requires { IsLive self.old.objects.rows dev }
        ensures written { (b : Tree) → Stands b self.old → GuestWrites (guest_written b dev.birth reg value) result self.new }
        ensures absent { IfNone result (self.new ≡ self.old) }
    {
        write_through(
            &mut self.heap,
            &mut self.resets,
            &mut self.rings,
            dev,
            reg,
            value,
            steps,
        )
    }
}
