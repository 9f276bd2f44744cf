//! Serves the sessions of a hub.

ghost use Rattle.std.specs.Prelude.{◌≡◌, ◌≢◌, ◌≤◌, ◌⊎◌};
ghost use Rattle.qo_causes.specs.Cause.{Rose};
ghost use Rattle.qo_machine.specs.Runs.{known};
ghost use Rattle.compose.specs.Service.{Served, serve_status};

use crate::replays::offset_of;
use crate::statuses::Status;
use qo_causes::{Failed, Hub};
use qo_machine::{Ending, run};
use qo_values::INPUTS_MAX;
use std::alloc::Global;

/// The status of a run over a hub that ended so.
fn serve_status(ending: Ending) -> Status
    ensures { result ≡ serve_status ending }
{
    match ending {
        Ending::Done => Status::Done,
        Ending::Bad(_) => Status::BadRecord,
        Ending::Memory => Status::Memory,
        Ending::NextFailed | Ending::SendFailed => Status::HubFault,
        Ending::Limit => Status::InputLimit,
    }
}

/// Lets the hub begin at a path with so many connections, and runs a new machine over it. The number is the bad place
/// that a bad record has.
pub(crate) fn serve<H: Hub>(
    alloc: Global,
    path: &str,
    connections: u32,
    hub: &mut H,
) -> (Status, u64)
    ensures served { Served path.now connections result.0 result.1 (H.asked hub.old) (H.asked hub.new) (known (H.inputs hub.old) (H.sent hub.old) (H.got hub.old) (H.losses hub.old)) (known (H.inputs hub.new) (H.sent hub.new) (H.got hub.new) (H.losses hub.new)) (H.bad hub.old) }
    ensures bad { H.bad hub.new ≡ H.bad hub.old }
    ensures next_count { H.next_faults hub.old ≤ H.next_faults hub.new }
    ensures send_count { H.send_faults hub.old ≤ H.send_faults hub.new }
    ensures cause { result.0 ≡ Status.HubFault → Rose (H.next_faults hub.old) (H.next_faults hub.new) ⊎ Rose (H.send_faults hub.old) (H.send_faults hub.new) }
    ensures quiet { result.0 ≢ Status.HubFault → (H.next_faults hub.new ≡ H.next_faults hub.old) × (H.send_faults hub.new ≡ H.send_faults hub.old) }
    ensures other { (result.0 ≢ Status.Usage) × (result.0 ≢ Status.ReadFault) × (result.0 ≢ Status.WriteFault) }
    ensures later { H.later hub.old hub.new }
{
    if let Err(Failed) = hub.begin(path, connections) {
        return (Status::HubFault, 0);
    }
    let ending = run(alloc, hub, INPUTS_MAX);
    (serve_status(ending), offset_of(ending))
}
