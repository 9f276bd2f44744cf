//! Beginning a device, the stages 1 to 4 of adding: its options are checked, what is given for its properties
//! is looked at, and it is made; or an attempt at it is given up. It stands nowhere yet.

ghost use Rattle.std.specs.Prelude.{◌≡◌, ◌≤◌, ◌==◌, ℕ, List, false, Err, IfOk, OnErr, OnOk};
ghost use Rattle.qo_model.specs.Board.{Board, Ring};
ghost use Rattle.qo_model.specs.Plug.{Wanted, plug_attempt};
ghost use Rattle.qo_sound.specs.TreeKept.{SoundTree};
ghost use Rattle.qo_heap.specs.Board.{Shows};
ghost use Rattle.qo_hotplug.specs.Hotplug.{Asked};
ghost use Rattle.qo_properties.specs.Claims.{KeepsBook};
ghost use Rattle.qo_properties.specs.KeptClaims.{KeptBefore, KeptOrNew};
ghost use Rattle.qo_reset.specs.Counts.{CountsKept};
ghost use Rattle.qo_plug.specs.declared.refusals.AddRefusal.TheVariants.{Memory};
ghost use Rattle.qo_plug.specs.Admission.{IfRefused, as_wanted};
ghost use Rattle.qo_plug.specs.Answers.{IsCut, IsRefused, IsShown, turned_down};
ghost use Rattle.qo_plug.specs.Drafts.{CutShort};
ghost use Rattle.qo_plug.specs.DevicePlans.{IsFit, IsPlanned};
ghost use Rattle.qo_plug.specs.Stages.{IsBegun, IsHeld, IsJudged};

use crate::drafting::{give_up, make_device};
use crate::failed_add::failed_add;
use crate::options::DeviceOptions;
use crate::planning::Planned;
use crate::pre_plug::pre_plug;
use crate::refusals::{AddRefusal, Barred};
use crate::resources::Resources;
use crate::targets::{Target, check_options};
use qo_chardev::Rings;
use qo_heap::{Heap, Oid, Steps};
use qo_hotplug::Hotplug;
use qo_properties::{InitialValue, Refusal, plan};
use qo_reset::Resets;
use qo_values::{Code, TypeId};
use std::alloc::{AllocError, Global};
use std::sync::ledger::Ledger;

/// A device that was begun: it is made and held from outside the tree, and stands nowhere. It can't
/// be let go: it is spent by `place` or `abandon`.
pub struct NewDevice {
    /// Where it is to go.
    pub target: Target,
    /// The device.
    pub device: Oid,
    /// What is left of its plan: it has its values, and its links are to name these.
    pub plan: Vec<InitialValue>,
    /// Its resources, or why it has none.
    pub resources: Result<Resources, Barred>,
    /// Whether no hold is on its bus.
    pub out: bool,
}

/// An attempt at a device of a type that is refused before it takes a place, at a stage and with a
/// code: its objects are made and end at once. This is the refusal, or want of memory: then the
/// attempt was cut.
pub(crate) fn note_failed_add<L: Ledger>(
    heap: &mut Heap,
    kind: TypeId,
    stage: u8,
    code: Code,
    alloc: Global,
    steps: &mut Steps<L>,
) -> AddRefusal
    ensures down { (b : Board) (bus : ℕ) → Shows b heap.old → SoundTree b → (stage == 8) ≡ false → turned_down b kind bus (record { stage = stage; code = code }) result heap.new }
    ensures memory { (b : Board) → Shows b heap.old → SoundTree b → result ≡ Memory → CutShort b kind heap.new }
    ensures book { KeepsBook heap.old heap.new }
    ensures kept { KeptOrNew heap.old heap.new }
{
    match failed_add(heap, kind, alloc, steps) {
        Ok(()) => AddRefusal::Refused { stage, code },
        Err(_) => AddRefusal::Memory,
    }
}

/// Makes a planned device, for which this was found of its resources. What is learnt of its bus is learnt
/// before. The error is want of memory: an attempt was cut.
pub(crate) fn make<L: Ledger>(
    heap: &mut Heap,
    resets: &Resets,
    planned: Planned,
    rings: &Rings,
    resources: Result<Resources, Barred>,
    alloc: Global,
    steps: &mut Steps<L>,
) -> Result<NewDevice, AllocError>
    requires fit { IsFit planned heap.old }
    requires resources { IsJudged planned rings.now resources heap.old }
    requires counts { CountsKept resets.now.births heap.old }
    ensures begun { (b : Board) (a : Wanted) (anonymous : ℕ) (h : Asked) → IsShown b anonymous resets.now.births rings.now h heap.old → IsPlanned b a planned → IfOk result (λ d. IsBegun b a d heap.new) }
    ensures held { IfOk result (λ d. IsHeld d heap.new) }
    ensures err { OnErr result ((b : Board) → Shows b heap.old → SoundTree b → CutShort b planned.target.kind heap.new) }
    ensures book { KeepsBook heap.old heap.new }
    ensures kept { KeptOrNew heap.old heap.new }
{
    heap.reveal_invariant();
    let Planned { target, mut plan } = planned;
    let out = resets.count(heap, target.bus, steps) == 0;
    let device = make_device(heap, target.kind, plan.as_mut_slice(), alloc, steps)?;
    Ok(NewDevice {
        target,
        device,
        plan,
        resources,
        out,
    })
}

/// The plan of a device that is asked for, where neither what bars it before an attempt nor what is
/// given for its properties refuses it. A refusal is the first in the order of the stages: those of
/// `check_options`, before which nothing of the device is made, and then those of `plan` (stage 4), after which
/// its births and notes are left. Want of memory leaves all as it was, or an attempt that was cut.
pub(crate) fn choose<L: Ledger>(
    heap: &mut Heap,
    hotplug: &Hotplug,
    anonymous: u64,
    options: &DeviceOptions<'_>,
    alloc: Global,
    steps: &mut Steps<L>,
) -> Result<Planned, AddRefusal>
    ensures fit { IfOk result (λ p. IsFit p heap.new) }
    ensures same { OnOk result (heap.new ≡ heap.old) }
    ensures planned { (b : Board) (holds : List ℕ) (rings : List Ring) → IsShown b anonymous holds rings hotplug.now heap.old → IfOk result (λ p. IsPlanned b (as_wanted options.now) p) }
    ensures refused { (b : Board) (holds : List ℕ) (rings : List Ring) → IsShown b anonymous holds rings hotplug.now heap.old → IfRefused result (λ stage code. (1 ≤ stage) × (stage ≤ 4) × IsRefused b (as_wanted options.now) stage code heap.new) }
    ensures memory { (b : Board) (holds : List ℕ) (rings : List Ring) → IsShown b anonymous holds rings hotplug.now heap.old → result ≡ Err Memory → IsCut b (as_wanted options.now) heap.new }
    ensures book { KeepsBook heap.old heap.new }
    ensures kept { KeptOrNew heap.old heap.new }
{
    let target = match check_options(
        heap,
        hotplug,
        anonymous,
        options.driver,
        options.id,
        options.bus,
        alloc,
        steps,
    ) {
        Ok(target) => target,
        Err(refusal) => return Err(refusal),
    };
    match plan(heap, target.kind, options.props, alloc, steps) {
        Ok(plan) => Ok(Planned { target, plan }),
        Err(Refusal::Refused(code)) => Err(note_failed_add(
            heap,
            target.kind,
            4,
            code,
            alloc,
            steps,
        )),
        Err(Refusal::Memory) => Err(AddRefusal::Memory),
    }
}

/// What is found of the resources of a planned device: where it stands, or why it can't. The error is want
/// of memory.
fn judged<L: Ledger>(
    heap: &Heap,
    rings: &Rings,
    planned: &Planned,
    alloc: Global,
    steps: &mut Steps<L>,
) -> Result<Result<Resources, Barred>, AllocError>
    requires { IsFit planned.now heap.now }
    ensures { IfOk result (λ resources. IsJudged planned.now rings.now resources heap.now) }
{
    match pre_plug(heap, rings, planned, alloc, steps) {
        Ok(resources) => Ok(Ok(resources)),
        Err(AddRefusal::Refused { stage, code }) => Ok(Err(Barred { stage, code })),
        Err(AddRefusal::Memory) => Err(AllocError),
    }
}

/// Begins a device that is asked for: the stages 1 to 4. `anonymous` is how many devices without an id
/// were added before. A refusal is the first in the order of the stages: those of `check_options`, before
/// which nothing of the device is made, and then those of `plan` (stage 4), after which its births and
/// notes are left. Want of memory leaves all as it was, or an attempt that was cut.
pub fn begin<L: Ledger>(
    heap: &mut Heap,
    resets: &Resets,
    hotplug: &Hotplug,
    rings: &Rings,
    anonymous: u64,
    options: &DeviceOptions<'_>,
    alloc: Global,
    steps: &mut Steps<L>,
) -> Result<NewDevice, AddRefusal>
    requires { CountsKept resets.now.births heap.old }
    ensures begun { (b : Board) → IsShown b anonymous resets.now.births rings.now hotplug.now heap.old → IfOk result (λ d. IsBegun b (as_wanted options.now) d heap.new) }
    ensures held { IfOk result (λ d. IsHeld d heap.new) }
    ensures refused { (b : Board) → IsShown b anonymous resets.now.births rings.now hotplug.now heap.old → IfRefused result (λ stage code. (1 ≤ stage) × (stage ≤ 4) × IsRefused b (as_wanted options.now) stage code heap.new) }
    ensures memory { (b : Board) → IsShown b anonymous resets.now.births rings.now hotplug.now heap.old → result ≡ Err Memory → IsCut b (as_wanted options.now) heap.new }
    ensures book { KeepsBook heap.old heap.new }
    ensures kept { KeptOrNew heap.old heap.new }
{
    let planned = match choose(heap, hotplug, anonymous, options, alloc, steps) {
        Ok(planned) => planned,
        Err(refusal) => return Err(refusal),
    };
    let resources = judged(heap, rings, &planned, alloc, steps)?;
    match make(heap, resets, planned, rings, resources, alloc, steps) {
        Ok(begun) => Ok(begun),
        Err(_) => Err(AddRefusal::Memory),
    }
}

/// Gives a device up that was begun: it ends, and its births and notes are left. It takes no memory.
pub fn abandon<L: Ledger>(heap: &mut Heap, begun: NewDevice, steps: &mut Steps<L>)
    requires { IsHeld begun heap.old }
    ensures given_up { (b : Board) (a : Wanted) → IsBegun b a begun heap.old → Shows (plug_attempt b begun.target.kind begun.target.bus.birth 4) heap.new }
    ensures book { KeepsBook heap.old heap.new }
    ensures kept { KeptBefore heap.old heap.new }
{
    let NewDevice {
        target: _target,
        device,
        plan: _plan,
        resources: _resources,
        out: _out,
    } = begun;
    give_up(heap, device, steps);
}
