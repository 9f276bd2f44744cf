//! The objects without a parent.

ghost use Rattle.std.specs.Prelude.{◌≡◌, IfOk, slice_get};
ghost use Rattle.std.specs.Option.{option_and_then};
ghost use Rattle.qo_model.specs.Board.{Board as Tree};
ghost use Rattle.qo_model.specs.Detachment.{detached_listed};
ghost use Rattle.qo_heap.specs.Board.{Shows, record_of};
ghost use Rattle.qo_properties.specs.Reads.{detached_in};

use qo_heap::{Heap, Steps};
use qo_model::Detached;
use qo_values::ROOT_BIRTH;
use std::alloc::{AllocError, Global};
use std::sync::ledger::Ledger;

/// The object at a place in the order of births, if it is detached, by one look; `None` past the last.
fn detached_at<L: Ledger>(heap: &Heap, place: usize, steps: &mut Steps<L>) -> Option<Detached>
    ensures { (b : Tree) → Shows b heap.now → result ≡ option_and_then (λ row. detached_in b (record_of row)) (slice_get heap.now.rows place) }
{
    heap.reveal_invariant();
    let o = heap.oid_at(place)?;
    if o.birth == ROOT_BIRTH {
        return None;
    }
    let summary = heap.summary(o, steps);
    if summary.parent.is_some() {
        return None;
    }
    Some(Detached {
        birth: o.birth,
        refs: summary.refs,
        kind: summary.kind,
    })
}

/// The objects without a parent, other than `/`, in the order of births. The error is want of memory.
pub fn detached_list<L: Ledger>(
    heap: &Heap,
    alloc: Global,
    steps: &mut Steps<L>,
) -> Result<Vec<Detached>, AllocError>
    ensures { (b : Tree) → Shows b heap.now → IfOk result (λ list. list.items ≡ detached_listed b) }
{
    let mut list = Vec::new(alloc);
    for place in 0..heap.live() {
        let Some(found) = detached_at(heap, place, steps) else {
            continue;
        };
        list.push(found)?;
    }
    Ok(list)
}
