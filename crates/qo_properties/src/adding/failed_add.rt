//! Attempts at objects that are given up as soon as they are made, and how many objects a device is.

ghost use Rattle.std.specs.Prelude.{◌≡◌, ◌≤◌, is_some, OnOk, OnErr};
ghost use Rattle.qo_model.specs.Plug.{further_in, objects_in};
ghost use Rattle.qo_properties.specs.Additions.{given_up};

use crate::adding::objects::give_up;
use qo_heap::{Heap, Steps};
use qo_life::create;
use qo_model::{Property, PropertyRole};
use qo_types::TypeTable;
use qo_values::TypeId;
use std::alloc::{AllocError, Global};
use std::sync::ledger::Ledger;

/// Whether a property is a further object of a device.
fn is_further(row: Property) -> bool
    ensures { result ≡ is_some (further_in row) }
{
    matches!(row.role, PropertyRole::Child(_))
}

/// How many objects a device of a type is: itself and its further objects.
pub fn objects_in(kind: TypeId) -> usize
    ensures count { result ≡ objects_in kind }
    ensures few { result ≤ 10 }
{
    let rows = TypeTable::board().props(kind);
    let mut count = 1;
    for row in rows {
        if is_further(*row) {
            count += 1;
        }
    }
    count
}

/// Makes an object of a type, without slots, and ends it at once: its birth and its notes are left.
/// The error is want of memory, and leaves the heap as it was.
pub fn failed_add<L: Ledger>(
    heap: &mut Heap,
    kind: TypeId,
    alloc: Global,
    steps: &mut Steps<L>,
) -> Result<(), AllocError>
    ensures ok { OnOk result (heap.new ≡ given_up kind heap.old) }
    ensures err { OnErr result (heap.new ≡ heap.old) }
{
    heap.reveal_invariant();
    let o = create(heap, alloc, kind, steps)?;
    give_up(heap, o, steps);
    Ok(())
}
