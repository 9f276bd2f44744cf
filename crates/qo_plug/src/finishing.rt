//! Finishing a device that was placed, the last stage of adding: it starts and the guest is told; or
//! the notices refuse it, and it is given up. No call here takes memory.

ghost use Rattle.std.specs.Prelude.{◌≡◌, Bool, IfOk, OnErr, Some};
ghost use Rattle.qo_values.specs.declared.codes.Code.TheVariants.{E44};
ghost use Rattle.qo_model.specs.Board.{Board};
ghost use Rattle.qo_model.specs.Plug.{Wanted, plug};
ghost use Rattle.qo_properties.specs.Claims.{KeepsBook};
ghost use Rattle.qo_properties.specs.KeptClaims.{ClaimsBefore, KeptBefore};
ghost use Rattle.qo_properties.specs.KeptPeriods.{PeriodsBefore};
ghost use Rattle.qo_plug.specs.declared.placing.Plugging.TheVariants.{Attached, NoticesFull};
ghost use Rattle.qo_plug.specs.declared.standing.DevicePath.{DevicePath};
ghost use Rattle.qo_plug.specs.Admission.{barred_in};
ghost use Rattle.qo_plug.specs.Answers.{IsAdded, IsRefused};
ghost use Rattle.qo_plug.specs.KeptClaims.{CountedOn, OthersBefore};
ghost use Rattle.qo_plug.specs.KeptPeriods.{FedStays};
ghost use Rattle.qo_plug.specs.Stages.{IsBeside, IsReady, IsSettled};

use crate::adding::Added;
use crate::failed_plug::refuse;
use crate::placing::{AttachedDevice, Plugging};
use crate::refusals::Barred;
use crate::standing::DevicePath;
use crate::starting::start;
use qo_heap::{Heap, Steps};
use qo_hotplug::Hotplug;
use qo_life::drop_pin;
use qo_reset::Resets;
use qo_values::Code;
use std::sync::ledger::Ledger;

/// Finishes a device that was placed: the stage of the notices. It starts, and the guest is told; or,
/// where as many notices waited as may, it is refused with `E44`, once it is realized and reset, and
/// its births and notes are left. It takes no memory.
pub fn finish<L: Ledger>(
    heap: &mut Heap,
    resets: &Resets,
    hotplug: &mut Hotplug,
    placed: AttachedDevice,
    steps: &mut Steps<L>,
) -> Result<Added, Barred>
    requires { IsReady placed hotplug.old heap.old }
    ensures ok { (b : Board) (a : Wanted) → IsSettled b a placed heap.old → IsBeside b resets.now.births hotplug.old → IfOk result (λ x. IsAdded b a x hotplug.new heap.new) }
    ensures refused { (b : Board) (a : Wanted) → IsSettled b a placed heap.old → OnErr result (IsRefused b a 8 E44 heap.new) }
    ensures code { OnErr result (barred_in result ≡ Some (8, E44)) }
    ensures device { IfOk result (λ x. x.birth ≡ placed.device.birth) }
    ensures full { OnErr result ((out : Bool) × (placed.plugging ≡ NoticesFull out)) }
    ensures asked { OnErr result (hotplug.new ≡ hotplug.old) }
    ensures book { KeepsBook heap.old heap.new }
    ensures claims { ClaimsBefore heap.old heap.new }
    ensures periods { PeriodsBefore heap.old heap.new }
    ensures unkept { OnErr result (KeptBefore heap.old heap.new) }
    ensures stood { IfOk result (λ _. (path : DevicePath) × (placed.plugging ≡ Attached path)) }
    ensures fed { (b : Board) (a : Wanted) → IsSettled b a placed heap.old → IsBeside b resets.now.births hotplug.old → IfOk result (λ x. FedStays (plug b a).board x.birth heap.old heap.new) }
    ensures counts { (b : Board) (a : Wanted) → IsSettled b a placed heap.old → IsBeside b resets.now.births hotplug.old →
        IfOk result (λ x. CountedOn (plug b a).board x.birth heap.new × OthersBefore (plug b a).board x.birth heap.old heap.new) }
{
    let AttachedDevice {
        device,
        slot,
        plugging,
    } = placed;
    match plugging {
        Plugging::Attached(DevicePath { kept, told }) => {
            start(heap, resets, hotplug, device, kept, steps);
            drop_pin(heap, device, steps);
            heap.reveal_invariant();
            Ok(Added {
                birth: device.birth,
                slot,
                path: told,
            })
        }
        Plugging::NoticesFull { out } => {
            refuse(heap, device, out, steps);
            Err(Barred {
                stage: 8,
                code: Code::E44,
            })
        }
    }
}
