//! What periods are in numbers, and what becomes of a tree of clocks that is written, with ample memory.
ghost use Rattle.std.specs.Prelude.{◌≡◌, ◌<◌, IfSome};
ghost use Rattle.qo_heap.specs.Moments.{Timely};

use crate::names::name_of;
use qo_clocks::{connect, period, period_of_hz, set, set_mul_div};
use qo_heap::{Heap, Steps};
use qo_values::{TypeId, Val};
use std::alloc::Global;
use std::marker::Brand;
use std::sync::ledger::{Blank, Ledger};

#[test]
fn frequencies_are_told_as_periods(rt: HostRuntime) {
    assert_eq!(rt; period_of_hz(0), 0);
    assert_eq!(rt; period_of_hz(1_000_000_000), 4_294_967_296);
    assert_eq!(rt; period_of_hz(100_000_000), 42_949_672_960);
    assert_eq!(rt; period_of_hz(3), 1_431_655_765_333_333_333);
}

/// The heap with an object of a type more.
fn with_object<L: Ledger>(
    mut heap: Heap,
    alloc: Global,
    kind: TypeId,
    steps: &mut Steps<L>,
) -> Option<Heap>
    requires { Timely heap }
    ensures { IfSome result (λ h. Timely h) }
{
    heap.make(alloc, kind, steps).ok()?;
    Some(heap)
}

/// The heap with a number in a slot of an object more.
fn with_number<L: Ledger>(
    mut heap: Heap,
    alloc: Global,
    birth: u64,
    name: &str,
    number: u64,
    steps: &mut Steps<L>,
) -> Option<Heap>
    requires { Timely heap }
    ensures { IfSome result (λ h. Timely h) }
{
    let (owner, name) = (heap.by_birth(birth)?, name_of(alloc, name)?);
    heap.add_plain(owner, name, Val::Uint(number), steps).ok()?;
    Some(heap)
}

/// The heap with a link to a source in an object more.
fn with_link<L: Ledger>(
    mut heap: Heap,
    alloc: Global,
    birth: u64,
    steps: &mut Steps<L>,
) -> Option<Heap>
    requires { Timely heap }
    ensures { IfSome result (λ h. Timely h) }
{
    let (owner, name) = (heap.by_birth(birth)?, name_of(alloc, "source")?);
    heap.add_link(owner, name, TypeId::Clock, false, None, steps)
        .ok()?;
    Some(heap)
}

/// The heap with a clock more, of a birth.
fn with_clock<L: Ledger>(
    heap: Heap,
    alloc: Global,
    birth: u64,
    steps: &mut Steps<L>,
) -> Option<Heap>
    requires { Timely heap }
    ensures { IfSome result (λ h. Timely h) }
{
    let heap = with_object(heap, alloc, TypeId::Clock, steps)?;
    let heap = with_number(heap, alloc, birth, "period", 0, steps)?;
    let heap = with_number(heap, alloc, birth, "mul", 1, steps)?;
    let heap = with_number(heap, alloc, birth, "div", 1, steps)?;
    with_link(heap, alloc, birth, steps)
}

/// The heap in which the clock of a birth goes by that of another.
fn connected<L: Ledger>(
    mut heap: Heap,
    birth: u64,
    source: u64,
    steps: &mut Steps<L>,
) -> Option<Heap>
    requires { Timely heap }
    ensures { IfSome result (λ h. Timely h) }
{
    let (c, source) = (heap.by_birth(birth)?, heap.by_birth(source)?);
    connect(&mut heap, c, source, steps);
    Some(heap)
}

/// Three clocks, one after the other, and a device of the last.
fn three<L: Ledger>(alloc: Global, steps: &mut Steps<L>) -> Option<Heap>
    ensures { IfSome result (λ h. Timely h) }
{
    let heap = with_clock(Heap::new(alloc).ok()?, alloc, 1, steps)?;
    let heap = with_clock(heap, alloc, 2, steps)?;
    let heap = with_clock(heap, alloc, 3, steps)?;
    let heap = connected(heap, 2, 1, steps)?;
    let heap = connected(heap, 3, 2, steps)?;
    let mut heap = with_object(heap, alloc, TypeId::SlotTimer, steps)?;
    let (device, clock) = (heap.by_birth(4)?, heap.by_birth(3)?);
    heap.add_child(device, name_of(alloc, "clk")?, clock, steps)
        .ok()?;
    Some(heap)
}

/// The periods of the clocks once they are written, and how many calls that made.
fn written<L: Ledger>(alloc: Global, blank: Blank) -> Option<(u64, u64, u64, u64)>
    requires name { blank.name ≡ L.name }
    requires parts { blank.parts ≡ L.parts }
    requires some { 0 < blank.parts }
{
    let mut steps = Steps::<L>::from_blank(blank);
    let mut heap = three(alloc, &mut steps)?;
    let first = heap.by_birth(1)?;
    set(&mut heap, first, 10, &mut steps).ok()?;
    let first = heap.by_birth(1)?;
    set_mul_div(&mut heap, first, 1, 3, &mut steps).ok()?;
    let second = heap.by_birth(2)?;
    set_mul_div(&mut heap, second, 3, 1, &mut steps).ok()?;
    let (first, second, third) = (heap.by_birth(1)?, heap.by_birth(2)?, heap.by_birth(3)?);
    let periods = (
        period(&heap, first, &mut steps),
        period(&heap, second, &mut steps),
        period(&heap, third, &mut steps),
    );
    Some((periods.0, periods.1, periods.2, heap.notes_total()))
}

/// It over a new ledger.
fn periods_written(alloc: Global) -> Option<(u64, u64, u64, u64)> {
    written::<Brand>(alloc, Blank::new(1))
}

#[test]
fn each_clock_rounds(rt: HostRuntime) {
    assert_eq!(rt; periods_written(rt.alloc()), Some((10, 3, 9, 6)));
}
