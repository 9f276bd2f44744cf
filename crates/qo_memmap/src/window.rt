//! Windows on regions.

ghost use Rattle.std.specs.Prelude.{◌≡◌, ◌+◌, ◌≤◌};
ghost use Rattle.qo_memmap.specs.Windows.{IsChildWindow, IsAliasWindow, WindowFits};

use crate::region::{ADDRESS_LIMIT, Place};

/// Bytes of a region, and where they stand in a flat view.
#[derive(Clone, Copy)]
pub(crate) struct Window {
    /// The address in the view of the first byte.
    pub at: u64,
    /// The address in the region of the first byte.
    pub from: u64,
    /// How many bytes there are.
    pub size: u64,
}

/// The part of a window on a region that a child fills, as a window on the child, which has `size` bytes.
pub(crate) fn child_window(window: Window, place: Place, size: u64) -> Option<Window>
    requires window { WindowFits window ADDRESS_LIMIT }
    requires at { place.at ≤ ADDRESS_LIMIT }
    requires size { size ≤ ADDRESS_LIMIT }
    ensures { IsChildWindow window place.at size result }
{
    let begin = window.from.max(place.at);
    let end = (window.from + window.size).min(place.at + size);
    if begin >= end {
        return None;
    }
    Some(Window {
        at: window.at + (begin - window.from),
        from: begin - place.at,
        size: end - begin,
    })
}

/// The part of a window on an alias that shows bytes of the other region, as a window on that, which has
/// `size` bytes.
pub(crate) fn alias_window(window: Window, offset: u64, size: u64) -> Option<Window>
    requires window { WindowFits window ADDRESS_LIMIT }
    requires offset { offset ≤ ADDRESS_LIMIT }
    ensures { IsAliasWindow window offset size result }
{
    let from = window.from + offset;
    if from >= size {
        return None;
    }
    Some(Window {
        at: window.at,
        from,
        size: window.size.min(size - from),
    })
}
