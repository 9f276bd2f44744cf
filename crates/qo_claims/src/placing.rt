//! The place of a range that names no address.

ghost use Rattle.std.specs.Prelude.{◌≡◌, ◌≤◌};
ghost use Rattle.qo_values.specs.Placing.{LieApart, free_address};
ghost use Rattle.qo_claims.specs.Gaps.{IsFirstFit};

use qo_values::Range;

/// The first address of the window.
pub const WINDOW_START: u64 = 0x1_0000_0000;

/// The first address after the window.
pub const WINDOW_END: u64 = 0x11_0000_0000;

/// The least multiple of `align` from `from` on at which `size` bytes end by `end`.
fn fit(from: u64, end: u64, size: u64, align: u64) -> Option<u64>
    requires { 1 ≤ align }
    ensures { IsFirstFit from end size align result }
{
    let at = from.checked_next_multiple_of(align)?;
    if at <= end && size <= end - at {
        Some(at)
    } else {
        None
    }
}

/// The least multiple of `align` in the window at which `size` bytes fit beside the ranges; `None`
/// exactly where no gap holds them. It takes no memory. The ranges rise, lie apart and lie in the
/// window.
pub(crate) fn place(ranges: &[Range], size: u64, align: u64) -> Option<u64>
    requires apart { LieApart ranges.now }
    requires some { 1 ≤ size }
    requires aligned { 1 ≤ align }
    ensures { result ≡ free_address ranges.now size align }
{
    let mut from = WINDOW_START;
    for range in ranges {
        if let Some(at) = fit(from, range.at, size, align) {
            return Some(at);
        }
        from = range.at + range.size;
    }
    fit(from, WINDOW_END, size, align)
}
