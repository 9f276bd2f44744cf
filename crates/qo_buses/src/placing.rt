//! Where a range of addresses goes beside others, which may lie anywhere and in any order.

ghost use Rattle.std.specs.Prelude.{◌≡◌, ◌+◌, ◌≤◌, ◌^◌, ◌%◌, ℕ, find, IfSome, IfNone};
ghost use Rattle.qo_values.specs.Placing.{is_in_window, overlap, overlaps_any, free_address};
ghost use Rattle.qo_values.specs.declared.limits.TheConstants.{DIMM_ALIGN};

use qo_claims::{end, overlap};
use qo_values::{DIMM_ALIGN, Range};

/// The first address of the window.
const WINDOW_START: u64 = 0x1_0000_0000;

/// The first address after the window.
const WINDOW_END: u64 = 0x11_0000_0000;

/// Whether a range lies in the window.
pub(crate) fn is_in_window(range: Range) -> bool
    ensures { result ≡ is_in_window range }
{
    range.at >= WINDOW_START && end(range) <= u128::from(WINDOW_END)
}

/// Whether a range overlaps one of some.
pub(crate) fn overlaps_any(range: Range, ranges: &[Range]) -> bool
    ensures { result ≡ overlaps_any range ranges.now }
{
    ranges.iter().any(|held| overlap(range, *held))
}

/// The first of some ranges that a range overlaps; `None` exactly where it overlaps none.
fn first_overlapped(range: Range, ranges: &[Range]) -> Option<Range>
    ensures { result ≡ find (overlap range) ranges.now }
{
    for held in ranges {
        if overlap(range, *held) {
            return Some(*held);
        }
    }
    None
}

/// The least multiple of `DIMM_ALIGN` after a range; `None` where it is past the last address.
fn after(range: Range) -> Option<u64>
    ensures multiple { IfSome result (λ at. at % DIMM_ALIGN ≡ 0) }
    ensures above { IfSome result (λ at. range.at + range.size ≤ at) }
    ensures least { IfSome result (λ at. (lower : ℕ) → range.at + range.size ≤ lower → lower % DIMM_ALIGN ≡ 0 → at ≤ lower) }
    ensures past { IfNone result ((lower : ℕ) → range.at + range.size ≤ lower → lower % DIMM_ALIGN ≡ 0 → 2 ^ 64 ≤ lower) }
{
    let end = range.at.checked_add(range.size)?;
    end.checked_next_multiple_of(DIMM_ALIGN)
}

/// The least multiple of `DIMM_ALIGN` in the window at which `size` bytes fit beside the ranges; `None`
/// exactly where there is none. It takes no memory.
pub(crate) fn place(ranges: &[Range], size: u64) -> Option<u64>
    ensures { result ≡ free_address ranges.now size DIMM_ALIGN }
{
    let mut at = WINDOW_START;
    // No multiple below `at` holds them, and each that overlaps a range up to its end does neither.
    while at < WINDOW_END && size <= WINDOW_END - at {
        match first_overlapped(Range { at, size }, ranges) {
            Some(range) => at = after(range)?,
            None => return Some(at),
        }
    }
    None
}
