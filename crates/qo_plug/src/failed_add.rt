//! An attempt at a device that is refused before it takes a place: it is made with its further objects,
//! each of which is joined to it, and they end. Nobody sees it, so it gets no values.

ghost use Rattle.std.specs.Prelude.{◌≡◌, ◌==◌, ℕ, false, length, OnErr, OnOk};
ghost use Rattle.qo_model.specs.Board.{Board};
ghost use Rattle.qo_model.specs.Plug.{plug_attempt};
ghost use Rattle.qo_model.specs.Types.{slots_of};
ghost use Rattle.qo_sound.specs.TreeKept.{SoundTree};
ghost use Rattle.qo_heap.specs.Rows.{IsLive};
ghost use Rattle.qo_heap.specs.Board.{Shows};
ghost use Rattle.qo_properties.specs.Claims.{KeepsBook};
ghost use Rattle.qo_properties.specs.KeptClaims.{KeptOrNew};
ghost use Rattle.qo_plug.specs.Drafts.{CutShort, Grows, Makes};
ghost use Rattle.qo_plug.specs.FurtherDrafts.{FurtherFell, further_made};

use crate::drafting::make_kid;
use qo_heap::{Heap, Oid, Steps};
use qo_life::{create, drop_pin};
use qo_model::PropertyRole;
use qo_types::TypeTable;
use qo_values::TypeId;
use std::alloc::{AllocError, Global};
use std::sync::ledger::Ledger;

/// Makes the further objects of a device of a type, in the order of its properties: each is the
/// device's child before the next is made. Where memory wants, those of its first properties are
/// made, and the next one may have been made and ended.
fn make_further<L: Ledger>(
    heap: &mut Heap,
    device: Oid,
    kind: TypeId,
    alloc: Global,
    steps: &mut Steps<L>,
) -> Result<(), AllocError>
    requires { IsLive heap.old.rows device }
    ensures ok { OnOk result (Makes (further_made device.birth kind (length (slots_of kind))) heap.old heap.new) }
    ensures err { OnErr result (FurtherFell device.birth kind heap.old heap.new) }
    ensures grows { Grows heap.old heap.new }
{
    let mut place = 0;
    while let Some(row) = TypeTable::board().prop(kind, place) {
        if let PropertyRole::Child(further) = row.role {
            make_kid(heap, device, row.name, further, alloc, steps)?;
        }
        place += 1;
    }
    Ok(())
}

/// Makes a device of a type with its further objects, and ends them at once, the further ones first:
/// their births and their notes are left. Where memory wants, an attempt was cut: what was made has
/// ended.
pub(crate) fn failed_add<L: Ledger>(
    heap: &mut Heap,
    kind: TypeId,
    alloc: Global,
    steps: &mut Steps<L>,
) -> Result<(), AllocError>
    ensures ok { OnOk result ((b : Board) (bus stage : ℕ) → Shows b heap.old → SoundTree b → (stage == 8) ≡ false → Shows (plug_attempt b kind bus stage) heap.new) }
    ensures err { OnErr result ((b : Board) → Shows b heap.old → SoundTree b → CutShort b kind heap.new) }
    ensures book { KeepsBook heap.old heap.new }
    ensures kept { KeptOrNew heap.old heap.new }
{
    heap.reveal_invariant();
    let device = create(heap, alloc, kind, steps)?;
    let made = make_further(heap, device, kind, alloc, steps);
    drop_pin(heap, device, steps);
    made
}
