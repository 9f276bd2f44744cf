//! Releasing objects. None of these calls takes memory, and none fails.

ghost use Rattle.std.specs.Prelude.{◌≡◌, ◌+◌, ◌*◌, ◌<◌, ◌≤◌, IfSome, None, Some, is_some, option_map};
ghost use Rattle.qo_model.specs.Board.{Board};
ghost use Rattle.qo_model.specs.Release.{after, finalize, let_go, unpin};
ghost use Rattle.qo_model.specs.ReleaseBound.{release_bound};
ghost use Rattle.qo_object.specs.BoardObject.{birth_of};
ghost use Rattle.qo_object.specs.Content.{dropped_at};
ghost use Rattle.qo_object.specs.Slots.{referent, slot_in, target_of};
ghost use Rattle.qo_heap.specs.Rows.{IsLive};
ghost use Rattle.qo_heap.specs.Board.{Shows};
ghost use Rattle.qo_heap.specs.Objects.{pins_of, refs_of, slots_of, with_edit};
ghost use Rattle.qo_life.specs.Life.{Goes, KeepsNames, next_at};
ghost use Rattle.qo_life.specs.Work.{GoesOn, front_at, worth};

use qo_heap::{Heap, Oid, Slot, Steps, Work};
use std::sync::ledger::Ledger;

/// What becomes free where a slot is let go.
#[derive(Clone, Copy)]
struct Turn {
    /// The object that the slot held.
    held: Option<Oid>,
    /// The place of the slot after it, once it was let go.
    next: usize,
    /// Whether the slot names an object; any other stays as it is.
    names: bool,
}

/// The front of the work of a release.
#[derive(Clone, Copy)]
struct Front {
    /// The object that is being finalized.
    o: Oid,
    /// The place from which its slots are still to be let go.
    at: usize,
    /// The object whose release goes on after its end.
    next: Option<Oid>,
}

/// What becomes free where the slot of an object at a place is let go; `None` exactly past the last.
fn turn_at<L: Ledger>(heap: &Heap, o: Oid, at: usize, steps: &mut Steps<L>) -> Option<Turn>
    requires { IsLive heap.now.rows o }
    ensures held { option_map (λ t. t.held) result ≡ option_map referent (slot_in (slots_of heap.now o.birth) at) }
    ensures next { option_map (λ t. t.next) result ≡ option_map (next_at at) (slot_in (slots_of heap.now o.birth) at) }
    ensures names { option_map (λ t. t.names) result ≡ option_map (λ s. is_some (target_of s)) (slot_in (slots_of heap.now o.birth) at) }
    ensures cost { steps.new ≡ steps.old + 1 }
{
    let slot = heap.slot_at(o, at, steps)?;
    let names = slot.what.target().is_some();
    let (held, next) = match slot.what {
        Slot::Child(child) => (Some(*child), at),
        Slot::Link {
            strong: true,
            target,
            ..
        } => (*target, at + 1),
        _ => (None, at + 1),
    };
    Some(Turn { held, next, names })
}

/// Lets the slot of an object at a place go, where it names an object; any other stays as it is.
fn empty_named<L: Ledger>(heap: &mut Heap, o: Oid, at: usize, names: bool, steps: &mut Steps<L>)
    requires live { IsLive heap.old.rows o }
    requires names { Some names ≡ option_map (λ s. is_some (target_of s)) (slot_in (slots_of heap.old o.birth) at) }
    ensures now { heap.new ≡ with_edit o.birth (dropped_at at) heap.old }
    ensures cost { steps.new ≤ steps.old + 4 }
{
    heap.reveal_invariant();
    if names {
        heap.empty(o, at, steps);
    }
}

/// How the work goes on where a slot of the front was let go: with what it held, where nothing
/// refers to this any more, and the front then waits; else with the front's next slot.
fn go_on<L: Ledger>(heap: &mut Heap, front: Front, turn: Turn, steps: &mut Steps<L>) -> Front
    requires live { IsLive heap.old.rows front.o }
    requires held { IfSome turn.held (IsLive heap.old.rows) }
    ensures goes { GoesOn turn.held front turn.next heap.old heap.new result }
    ensures cost { steps.new ≤ steps.old + 2 }
{
    let next = Front {
        o: front.o,
        at: turn.next,
        next: front.next,
    };
    let Some(o) = turn.held else {
        return next;
    };
    if heap.is_held(o, steps) {
        return next;
    }
    let work = Work {
        next: front.next,
        at: turn.next,
    };
    heap.set_work(front.o, work, steps);
    Front {
        o,
        at: 0,
        next: Some(front.o),
    }
}

/// The front of the work, where it goes on with an object.
fn front_of<L: Ledger>(heap: &Heap, next: Option<Oid>, steps: &mut Steps<L>) -> Option<Front>
    requires { IfSome next (IsLive heap.now.rows) }
    ensures front { result ≡ front_at heap.now next }
    ensures cost { steps.new ≤ steps.old + 1 }
{
    let o = next?;
    let work = heap.work(o, steps);
    Some(Front {
        o,
        at: work.at,
        next: work.next,
    })
}

/// Ends an object to which nothing refers: lets its slots go, in order, each with what is free then,
/// and removes it. What waits for the end of another waits in the objects themselves.
fn finalize<L: Ledger>(heap: &mut Heap, o: Oid, steps: &mut Steps<L>)
    requires live { IsLive heap.old.rows o }
    requires free { refs_of heap.old o.birth ≡ 0 }
    ensures goes { Goes (λ b. finalize b o.birth) heap.old heap.new }
    ensures paid { (b c : Board) → Shows b heap.old → Shows c heap.new → steps.new + worth c ≤ steps.old + worth b }
{
    heap.reveal_invariant();
    let mut front = Some(Front {
        o,
        at: 0,
        next: None,
    });
    while let Some(now) = front {
        heap.reveal_invariant();
        match turn_at(heap, now.o, now.at, steps) {
            Some(turn) => {
                empty_named(heap, now.o, now.at, turn.names, steps);
                heap.reveal_invariant();
                front = Some(go_on(heap, now, turn, steps));
            }
            None => {
                heap.finish(now.o, steps);
                front = front_of(heap, now.next, steps);
            }
        }
    }
}

/// Ends an object that was held, where nothing refers to it any more.
fn end_unheld<L: Ledger>(heap: &mut Heap, held: Option<Oid>, steps: &mut Steps<L>)
    requires { IfSome held (IsLive heap.old.rows) }
    ensures goes { Goes (λ b. after finalize b (birth_of held)) heap.old heap.new }
    ensures work { (b c : Board) → Shows b heap.old → Shows c heap.new → steps.new + 7 ≤ steps.old + release_bound b c }
{
    heap.reveal_invariant();
    if let Some(o) = held {
        if !heap.is_held(o, steps) {
            finalize(heap, o, steps);
        }
    }
}

/// Lets the slot of an object at a place go, with what it held; a place past the last stays.
fn let_go_at<L: Ledger>(heap: &mut Heap, o: Oid, at: usize, steps: &mut Steps<L>)
    requires { IsLive heap.old.rows o }
    ensures goes { Goes (λ b. let_go b o.birth at) heap.old heap.new }
    ensures work { (b c : Board) → Shows b heap.old → Shows c heap.new → steps.new ≤ steps.old + release_bound b c }
{
    heap.reveal_invariant();
    let Some(turn) = turn_at(heap, o, at, steps) else {
        return;
    };
    heap.empty(o, at, steps);
    end_unheld(heap, turn.held, steps);
}

/// Lets the slot of an object at a place go: a child slot is removed, a link is left without a
/// target, and what it held is finalized where nothing refers to it any more (docs/devel/qom.rst,
/// "The QEMU Object Model": `object_unref`, `object_finalize`). A plain slot, an alias and a place
/// past the last stay.
pub fn let_go<L: Ledger>(heap: &mut Heap, owner: Oid, at: usize, steps: &mut Steps<L>)
    requires { IsLive heap.old.rows owner }
    ensures release { (b : Board) → Shows b heap.old → Shows (let_go b owner.birth at) heap.new }
    ensures goes { Goes (λ b. let_go b owner.birth at) heap.old heap.new }
    ensures names { KeepsNames heap.old heap.new }
    ensures work { (b c : Board) → Shows b heap.old → Shows c heap.new → steps.new ≤ steps.old + release_bound b c }
{
    let_go_at(heap, owner, at, steps);
}

/// Takes a pin from an object, which is finalized where nothing refers to it any more
/// (docs/devel/qom.rst, "The QEMU Object Model": `object_unref`).
pub fn drop_pin<L: Ledger>(heap: &mut Heap, o: Oid, steps: &mut Steps<L>)
    requires live { IsLive heap.old.rows o }
    requires pinned { 0 < pins_of heap.old o.birth }
    ensures release { (b : Board) → Shows b heap.old → Shows (unpin b o.birth) heap.new }
    ensures goes { Goes (λ b. unpin b o.birth) heap.old heap.new }
    ensures names { KeepsNames heap.old heap.new }
    ensures work { (b c : Board) → Shows b heap.old → Shows c heap.new → steps.new ≤ steps.old + release_bound b c }
{
    heap.reveal_invariant();
    heap.unpin(o, steps);
    end_unheld(heap, Some(o), steps);
}

/// Ends a hold that was taken away: the object that was held is finalized where nothing refers to it
/// any more (docs/devel/qom.rst, "The QEMU Object Model": `object_unref`).
pub fn drop_hold<L: Ledger>(heap: &mut Heap, held: Option<Oid>, steps: &mut Steps<L>)
    requires { IfSome held (IsLive heap.old.rows) }
    ensures release { (b : Board) → Shows b heap.old → Shows (after finalize b (birth_of held)) heap.new }
    ensures goes { Goes (λ b. after finalize b (birth_of held)) heap.old heap.new }
    ensures names { KeepsNames heap.old heap.new }
    ensures work { (b c : Board) → Shows b heap.old → Shows c heap.new → steps.new ≤ steps.old + release_bound b c }
{
    end_unheld(heap, held, steps);
}
