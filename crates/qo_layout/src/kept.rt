//! The flat view of a board, kept from one use to the next.

ghost use Rattle.std.specs.Prelude.{◌≡◌, None, if◌then◌else◌, IfErr, IfOk};
ghost use Rattle.qo_heap.specs.Board.{Shows};
ghost use Rattle.qo_layout.specs.Layout.{register_at};
ghost use Rattle.qo_layout.specs.Kept.{IsViewOf};
ghost use Rattle.qo_memmap.specs.declared.errors.MapError.TheVariants.{Memory};
ghost use Rattle.qo_model.specs.Board.{Board};
ghost use Rattle.qo_sound_claims.specs.SoundClaims.{SoundClaims};
ghost use Rattle.qo_sound_devices.specs.SoundDevices.{SoundDevices};
ghost use Rattle.qo_sound_shapes.specs.SoundShape.{SoundShape};

use crate::views::{REGISTER_SIZE, RegisterPlace, flat_view, place_in};
use qo_heap::{Heap, Steps};
use qo_memmap::{MapError, Span};
use std::alloc::Global;
use std::marker::Model;
use std::sync::ledger::Ledger;

/// What is kept of the flat view of a board: it is made at its first use, and kept for later ones. Who changes
/// what shows on the board lets it go.
#[derive(Drop)]
pub struct KeptView {
    spans: Option<Vec<Span>>,
}

impl Model for KeptView {
    ghost use Rattle.std.specs.Prelude.{option_map};
    ghost use Rattle.qo_layout.specs.Kept.{AreInOrder, Kept};

    ghost Value = { Kept };

    ghost view = { λ v. option_map (λ spans. spans.items) v.spans };

    ghost invariant = { λ v. AreInOrder (option_map (λ spans. spans.items) v.spans) };
}

impl KeptView {
    /// Nothing is kept. It takes no memory.
    pub fn none() -> KeptView
        ensures { result ≡ None }
    {
        KeptView { spans: None }
    }

    /// Lets go what is kept. It takes no memory.
    pub fn forget(&mut self)
        ensures { self.new ≡ None }
    {
        self.spans = None;
    }

    /// Keeps the view where it is known to be the same still, and else lets it go. It takes no memory.
    pub fn keep_if(&mut self, same: bool)
        ensures { self.new ≡ (if same then self.old else None) }
    {
        if !same {
            self.spans = None;
        }
    }

    /// The register that shows at an address of the board of a heap. `None` where the address is no multiple of
    /// `REGISTER_SIZE`, or nothing shows there. What is kept stays the board's, also for want of memory. On a
    /// sound board that is the one error.
    pub fn register_at<L: Ledger>(
        &mut self,
        alloc: Global,
        heap: &Heap,
        at: u64,
        steps: &mut Steps<L>,
    ) -> Result<Option<RegisterPlace>, MapError>
        ensures place { (b : Board) → Shows b heap.now → SoundShape b → IsViewOf b self.old → IfOk result (λ place. place ≡ register_at b at) }
        ensures kept { (b : Board) → Shows b heap.now → SoundShape b → IsViewOf b self.old → IsViewOf b self.new }
        ensures err { (b : Board) → Shows b heap.now → SoundDevices b → SoundShape b → SoundClaims b → IfErr result (λ e. e ≡ Memory) }
    {
        if let Some(spans) = &self.spans {
            return Ok(place_in(spans, at));
        }
        let spans = flat_view(alloc, heap, steps)?;
        let place = place_in(&spans, at);
        self.spans = Some(spans);
        Ok(place)
    }
}
