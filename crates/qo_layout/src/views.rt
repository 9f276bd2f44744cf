//! What shows in the memory map of a board: its flat view, and the register at an address.

ghost use Rattle.std.specs.Prelude.{◌≡◌, ◌+◌, ◌≤◌, true, IfErr, IfOk};
ghost use Rattle.qo_model.specs.Board.{Board};
ghost use Rattle.qo_heap.specs.Board.{Shows};
ghost use Rattle.qo_memmap.specs.Regions.{shows_at};
ghost use Rattle.qo_memmap.specs.Spans.{IsFlat, OffsetsFit, RiseFrom, in_span, span_shows};
ghost use Rattle.qo_memmap.specs.declared.errors.MapError.TheVariants.{Memory};
ghost use Rattle.qo_memmap.specs.declared.region.TheConstants.{ADDRESS_LIMIT};
ghost use Rattle.qo_sound_devices.specs.SoundDevices.{SoundDevices};
ghost use Rattle.qo_sound_claims.specs.SoundClaims.{SoundClaims};
ghost use Rattle.qo_sound_shapes.specs.SoundShape.{SoundShape};
ghost use Rattle.qo_layout.specs.Kept.{IsView};
ghost use Rattle.qo_layout.specs.Layout.{board_map, flat_view, register_at, register_in, root_number};

use crate::maps::memory_map;
use qo_heap::{Heap, Steps};
use qo_memmap::{MapError, Span, find};
use std::alloc::Global;
use std::sync::ledger::Ledger;

/// Bytes of a register.
pub const REGISTER_SIZE: u64 = 4;

/// The register that shows at an address.
#[derive(Clone, Copy, Debug, PartialEq, Eq)]
pub struct RegisterPlace {
    /// The birth of its device; `BOOT_LEAF` in the boot region.
    pub device: u64,
    /// Its number there. The device may have fewer registers.
    pub register: u64,
}

/// The flat view of the board of a heap: spans of addresses that rise and lie apart, as few as there can be, each
/// with the birth of the device that shows there, or `BOOT_LEAF`, and an offset in it. On a sound board the one
/// error is want of memory.
#[tactic(auto, using(crate::proofs::ViewLemmas::listed))]
pub fn flat_view<L: Ledger>(
    alloc: Global,
    heap: &Heap,
    steps: &mut Steps<L>,
) -> Result<Vec<Span>, MapError>
    ensures view { (b : Board) → Shows b heap.now → SoundShape b → IfOk result (λ spans. spans.items ≡ flat_view b) }
    ensures flat { (b : Board) → Shows b heap.now → SoundShape b → IfOk result (λ spans. IsFlat (shows_at (board_map b) (root_number b)) spans.items) }
    ensures apart { IfOk result (λ spans. RiseFrom 0 spans.items) }
    ensures fit { IfOk result (λ spans. OffsetsFit spans.items) }
    ensures err { (b : Board) → Shows b heap.now → SoundDevices b → SoundShape b → SoundClaims b → IfErr result (λ e. e ≡ Memory) }
{
    let board = memory_map(alloc, heap, steps)?;
    Ok(board.map.flat(alloc, board.root)?)
}

/// The register of a span that holds an address.
fn register_in(span: Span, at: u64) -> RegisterPlace
    requires held { in_span span at ≡ true }
    requires fits { span.offset + span.size ≤ ADDRESS_LIMIT }
    ensures { result ≡ register_in (span_shows at span) }
{
    RegisterPlace {
        device: span.leaf,
        register: (span.offset + (at - span.at)) / REGISTER_SIZE,
    }
}

/// The register that shows at an address of a flat view. `None` where the address is no multiple of
/// `REGISTER_SIZE`, or nothing shows there.
#[tactic(auto, using(crate::proofs::ViewLemmas::holding_held, crate::proofs::ViewLemmas::holding_fits))]
pub(crate) fn place_in(spans: &[Span], at: u64) -> Option<RegisterPlace>
    requires apart { RiseFrom 0 spans.now }
    requires fit { OffsetsFit spans.now }
    ensures { (b : Board) → IsView b spans.now → result ≡ register_at b at }
{
    if at % REGISTER_SIZE != 0 {
        return None;
    }
    let span = find(spans, at)?;
    Some(register_in(span, at))
}
