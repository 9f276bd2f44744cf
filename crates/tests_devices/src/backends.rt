//! What no clause says: that a DIMM gets its range where there is enough memory.

use qo_buses::range_for;
use qo_heap::Heap;
use qo_values::Code;
use std::alloc::{AllocError, Global};
use std::test::Fail;

/// The first address of the window.
const WINDOW_START: u64 = 0x1_0000_0000;

/// Whether a range beside one that is held at the window's start goes after it, is refused where it
/// would overlap that one, and goes there once it is free.
fn placed(alloc: Global) -> Result<bool, AllocError> {
    let mut heap = Heap::new(alloc)?;
    let Ok(claim) = heap.claims().take_range(Some(WINDOW_START), 4096) else {
        return Ok(false);
    };
    let after = range_for(&heap, None, 8192);
    let taken = range_for(&heap, Some(WINDOW_START + 4095), 4096);
    heap.claims().give_back(claim);
    let free = range_for(&heap, None, 8192);
    Ok(
        after.is_ok_and(|range| range.at == WINDOW_START + 4096)
            && taken == Err(Code::E40)
            && free.is_ok_and(|range| range.at == WINDOW_START),
    )
}

#[test]
fn a_range_goes_beside_another(rt: HostRuntime) -> Result<(), Fail> {
    assert!(rt; placed(rt.alloc())?);
    Ok(())
}
