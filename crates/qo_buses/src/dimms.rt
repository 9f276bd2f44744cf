//! The memory of DIMMs: the size of a memory backend, and the range of addresses where one goes.

ghost use Rattle.std.specs.Prelude.{◌≡◌, true, false, IfOk};
ghost use Rattle.qo_values.specs.Placing.{is_in_window, overlaps_any};
ghost use Rattle.qo_values.specs.declared.ranges.Range.{Range};
ghost use Rattle.qo_claims.specs.Book.{is_taken};
ghost use Rattle.qo_claims.specs.declared.claims.Claimed.TheVariants as on;
ghost use Rattle.qo_model.specs.Board.{Board};
ghost use Rattle.qo_model.specs.Plug.{range_for, ranges_of, size_of};
ghost use Rattle.qo_heap.specs.Rows.{IsLive};
ghost use Rattle.qo_heap.specs.Board.{Shows};
ghost use Rattle.qo_buses.specs.Recount.{IsRecounted};

use crate::placing::{is_in_window, overlaps_any, place};
use crate::slots::number_at;
use qo_heap::{Heap, Oid, Steps};
use qo_model::PropertyName;
use qo_values::{Code, Range};
use std::sync::ledger::Ledger;

/// The size of a memory backend, in bytes; 0 of an object without such a number.
pub fn size_of<L: Ledger>(heap: &Heap, backend: Oid, steps: &mut Steps<L>) -> u64
    requires { IsLive heap.now.rows backend }
    ensures { (b : Board) → Shows b heap.now → result ≡ size_of b backend.birth }
{
    number_at(heap, backend, PropertyName::Size, steps).unwrap_or(0)
}

/// The range of so many bytes beside some: that which is asked for, or one at the least place.
fn range_beside(ranges: &[Range], at: Option<u64>, size: u64) -> Result<Range, Code>
    ensures range { (b : Board) → ((r : Range) → overlaps_any r ranges.now ≡ overlaps_any r (ranges_of b)) → result ≡ range_for b at size }
    ensures free { IfOk result (λ r. (overlaps_any r ranges.now ≡ false) × (is_in_window r ≡ true) × (r.size ≡ size)) }
{
    let Some(at) = at else {
        return match place(ranges, size) {
            Some(at) => Ok(Range { at, size }),
            None => Err(Code::E41),
        };
    };
    let range = Range { at, size };
    if is_in_window(range) && !overlaps_any(range, ranges) {
        return Ok(range);
    }
    Err(Code::E40)
}

/// The range of addresses of a DIMM of so many bytes: at the address that is asked for, or at the
/// least one where it fits. `E40` comes exactly where the range asked for leaves the window or overlaps
/// one that is held, `E41` exactly where none is asked for and there is no place. It takes no memory.
pub fn range_for(heap: &Heap, at: Option<u64>, size: u64) -> Result<Range, Code>
    ensures range { (b : Board) → IsRecounted b heap.now.claims → result ≡ range_for b at size }
    ensures free { IfOk result (λ r. (is_taken (on.Range r) heap.now.claims ≡ false) × (is_in_window r ≡ true) × (r.size ≡ size)) }
{
    range_beside(heap.book().ranges(), at, size)
}
