//! Removing users' objects.

ghost use Rattle.std.specs.Prelude.{◌≡◌, ◌+◌, ◌≤◌, OnErr};
ghost use Rattle.qo_model.specs.Board.{Board};
ghost use Rattle.qo_model.specs.Objects.{object_del};
ghost use Rattle.qo_model.specs.ReleaseBound.{release_bound};
ghost use Rattle.qo_heap.specs.Board.{Shows, pins_in};
ghost use Rattle.qo_properties.specs.Changes.{IsAnswered};
ghost use Rattle.qo_properties.specs.Claims.{KeepsBook};
ghost use Rattle.qo_properties.specs.KeptClaims.{KeptBefore};

use crate::reading::lookup::{child_place, object_of};
use qo_heap::{Heap, Steps};
use qo_life::let_go;
use qo_values::{Code, OBJECTS_BIRTH};
use std::sync::ledger::Ledger;

/// Removes the user's object of an id: its slot at `/objects` is let go, and it is finalized where
/// nothing else refers to it (QEMU's QAPI, `object-del`). `E15` comes exactly where there is no such
/// slot. An error leaves the heap as it was.
pub fn remove<L: Ledger>(heap: &mut Heap, id: &str, steps: &mut Steps<L>) -> Result<(), Code>
    ensures change { (b : Board) → Shows b heap.old → IsAnswered (object_del b id.now) result heap.new }
    ensures err { OnErr result (heap.new ≡ heap.old) }
    ensures pins { pins_in heap.new.rows ≡ pins_in heap.old.rows }
    ensures book { KeepsBook heap.old heap.new }
    ensures kept { KeptBefore heap.old heap.new }
    ensures work { (b c : Board) → Shows b heap.old → Shows c heap.new → steps.new ≤ steps.old + release_bound b c + 1 }
{
    let Some(objects) = object_of(heap, OBJECTS_BIRTH) else {
        return Err(Code::E15);
    };
    let Some(at) = child_place(heap, objects, id, steps) else {
        return Err(Code::E15);
    };
    let_go(heap, objects, at, steps);
    Ok(())
}
