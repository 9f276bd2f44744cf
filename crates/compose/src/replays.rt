//! Replays a recorded stream.

ghost use Rattle.std.specs.Prelude.{◌≡◌, ◌≢◌, ℕ, List};
ghost use Rattle.qo_causes.specs.Cause.{Rose};
ghost use Rattle.compose.specs.Exits.{exit_code};
ghost use Rattle.compose.specs.Replay.{Replayed, offset_of, status_of};

use crate::statuses::{Ran, Status};
use qo_causes::{Sink, Source};
use qo_machine::{Ending, run};
use qo_record::{ReplayHub, Unmade};
use qo_values::INPUTS_MAX;
use std::alloc::Global;

/// The status of a run that ended so.
fn status_of(ending: Ending) -> Status
    ensures { result ≡ status_of ending }
{
    match ending {
        Ending::Done => Status::Done,
        Ending::Bad(_) => Status::BadRecord,
        Ending::Memory => Status::Memory,
        Ending::NextFailed => Status::ReadFault,
        Ending::SendFailed => Status::WriteFault,
        Ending::Limit => Status::InputLimit,
    }
}

/// The bad place of a run that ended so, or 0.
pub(crate) fn offset_of(ending: Ending) -> u64
    ensures { result ≡ offset_of ending }
{
    match ending {
        Ending::Bad(place) => place,
        _ => 0,
    }
}

/// Replays the recorded stream of a source into a sink, and gives the bad place, or 0.
pub(crate) fn replay<S: Source, K: Sink>(alloc: Global, source: S, sink: K) -> (Ran<S, K>, u64)
    ensures code { result.0.code ≡ exit_code result.0.status }
    ensures replayed { (taken : List ℕ) × Replayed result.0.status (S.left source) (S.left result.0.source) (K.held sink) (K.held result.0.sink) taken result.1 }
    ensures read_cause { result.0.status ≡ Status.ReadFault → Rose (S.faults source) (S.faults result.0.source) }
    ensures write_cause { result.0.status ≡ Status.WriteFault → Rose (K.faults sink) (K.faults result.0.sink) }
    ensures read_quiet { result.0.status ≢ Status.ReadFault → S.faults result.0.source ≡ S.faults source }
    ensures write_quiet { result.0.status ≢ Status.WriteFault → K.faults result.0.sink ≡ K.faults sink }
    ensures other { (result.0.status ≢ Status.Usage) × (result.0.status ≢ Status.HubFault) }
{
    match ReplayHub::new(alloc, source, sink) {
        Ok(mut hub) => {
            let ending = run(alloc, &mut hub, INPUTS_MAX);
            let (source, sink) = hub.into_parts();
            let status = status_of(ending);
            (Ran::ended(status, source, sink), offset_of(ending))
        }
        Err(Unmade { source, sink }) => (Ran::ended(Status::Memory, source, sink), 0),
    }
}
