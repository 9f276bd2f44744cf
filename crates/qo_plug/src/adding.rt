//! Adding a device: it is begun, placed and finished, or an attempt at it is given up.

ghost use Rattle.std.specs.Prelude.{◌≡◌, Err, IfOk, OnErr};
ghost use Rattle.qo_model.specs.Board.{Board};
ghost use Rattle.qo_model.specs.Plug.{plug};
ghost use Rattle.qo_properties.specs.Claims.{KeepsBook};
ghost use Rattle.qo_properties.specs.KeptClaims.{KeptOrNew};
ghost use Rattle.qo_plug.specs.declared.refusals.AddRefusal.TheVariants.{Memory};
ghost use Rattle.qo_plug.specs.Admission.{IfRefused, as_wanted};
ghost use Rattle.qo_plug.specs.Answers.{IsAdded, IsCut, IsRefused, IsShown};
ghost use Rattle.qo_plug.specs.KeptClaims.{ClaimsOrNewBut, CountedOn, OthersOrNew};
ghost use Rattle.qo_plug.specs.KeptPeriods.{FedOrNew, SourcesThere};
ghost use Rattle.qo_reset.specs.Counts.{CountsKept};

use crate::beginning::{choose, make, note_failed_add};
use crate::finishing::finish;
use crate::options::DeviceOptions;
use crate::placing::place;
use crate::pre_plug::pre_plug;
use crate::refusals::{AddRefusal, Barred};
use qo_chardev::Rings;
use qo_heap::{Heap, Steps};
use qo_hotplug::Hotplug;
use qo_reset::Resets;
use qo_values::Text;
use std::alloc::Global;
use std::sync::ledger::Ledger;

/// A device that was added.
#[derive(Debug, Drop)]
pub struct Added {
    /// Its birth.
    pub birth: u64,
    /// Its slot of its bus.
    pub slot: u8,
    /// Its canonical path, which is kept for its end.
    pub path: Text,
}

/// Adds a device that is asked for: by the stages of `begin`, `place` and `finish`, but that a device
/// whose resources are not free is not made first with its values. `anonymous` is how many devices without an id
/// were added before. A refusal is the first in the order of the stages: those of `check_options`, before
/// which nothing of the device is made, and then the others, after which its births and notes are
/// left. Want of memory leaves all as it was, or an attempt that was cut.
pub fn add<L: Ledger>(
    heap: &mut Heap,
    resets: &Resets,
    hotplug: &mut Hotplug,
    rings: &Rings,
    anonymous: u64,
    options: &DeviceOptions<'_>,
    alloc: Global,
    steps: &mut Steps<L>,
) -> Result<Added, AddRefusal>
    requires { CountsKept resets.now.births heap.old }
    ensures ok { (b : Board) → IsShown b anonymous resets.now.births rings.now hotplug.old heap.old → IfOk result (λ x. IsAdded b (as_wanted options.now) x hotplug.new heap.new) }
    ensures refused { (b : Board) → IsShown b anonymous resets.now.births rings.now hotplug.old heap.old → IfRefused result (λ stage code. IsRefused b (as_wanted options.now) stage code heap.new) }
    ensures memory { (b : Board) → IsShown b anonymous resets.now.births rings.now hotplug.old heap.old → result ≡ Err Memory → IsCut b (as_wanted options.now) heap.new }
    ensures asked { OnErr result (hotplug.new ≡ hotplug.old) }
    ensures book { KeepsBook heap.old heap.new }
    ensures claims { IfOk result (λ x. ClaimsOrNewBut x.birth heap.old heap.new) }
    ensures counts { (b : Board) → IsShown b anonymous resets.now.births rings.now hotplug.old heap.old →
        IfOk result (λ x. CountedOn (plug b (as_wanted options.now)).board x.birth heap.new × OthersOrNew (plug b (as_wanted options.now)).board x.birth heap.old heap.new) }
    ensures fed { (b : Board) → IsShown b anonymous resets.now.births rings.now hotplug.old heap.old → SourcesThere b → IfOk result (λ x. FedOrNew (plug b (as_wanted options.now)).board x.birth heap.old heap.new) }
    ensures unkept { OnErr result (KeptOrNew heap.old heap.new) }
{
    let planned = match choose(heap, hotplug, anonymous, options, alloc, steps) {
        Ok(planned) => planned,
        Err(refusal) => return Err(refusal),
    };
    let resources = match pre_plug(heap, rings, &planned, alloc, steps) {
        Ok(resources) => resources,
        Err(AddRefusal::Refused { stage, code }) => {
            let kind = planned.target.kind;
            return Err(note_failed_add(heap, kind, stage, code, alloc, steps));
        }
        Err(AddRefusal::Memory) => return Err(AddRefusal::Memory),
    };
    let begun = match make(heap, resets, planned, rings, Ok(resources), alloc, steps) {
        Ok(begun) => begun,
        Err(_) => return Err(AddRefusal::Memory),
    };
    let placed = match place(heap, hotplug, begun, alloc, steps) {
        Ok(placed) => placed,
        Err(refusal) => return Err(refusal),
    };
    match finish(heap, resets, hotplug, placed, steps) {
        Ok(added) => Ok(added),
        Err(Barred { stage, code }) => Err(AddRefusal::Refused { stage, code }),
    }
}
