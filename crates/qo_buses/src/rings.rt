//! The rings that UARTs have claimed.

ghost use Rattle.std.specs.Prelude.{◌≡◌, option_map};
ghost use Rattle.qo_model.specs.Board.{Board};
ghost use Rattle.qo_heap.specs.Rows.{IsLive};
ghost use Rattle.qo_heap.specs.Board.{Shows};
ghost use Rattle.qo_buses.specs.Rings.{claimed_ring};

use crate::devices::is_realized;
use crate::slots::text_at;
use qo_heap::{Heap, Oid, Steps};
use qo_model::PropertyName;
use qo_values::Text;
use std::sync::ledger::Ledger;

/// The id of the ring that a device has claimed: that which its `chardev` names, where the device is
/// realized and this is not empty.
pub fn claimed_ring<'h, L: Ledger>(
    heap: &'h Heap,
    dev: Oid,
    steps: &mut Steps<L>,
) -> Option<&'h Text>
    requires { IsLive heap.now.rows dev }
    ensures { (b : Board) → Shows b heap.now → option_map (λ t. t.now) result ≡ claimed_ring b dev.birth }
{
    if !is_realized(heap, dev, steps) {
        return None;
    }
    let id = text_at(heap, dev, PropertyName::Chardev, steps)?;
    if id.as_str().is_empty() {
        return None;
    }
    Some(id)
}
