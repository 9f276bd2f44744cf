//! Replays a recorded stream to listeners.

ghost use Rattle.std.specs.Prelude.{◌≡◌, ◌≢◌, ℕ, List};
ghost use Rattle.qo_causes.specs.Cause.{Rose};
ghost use Rattle.qo_listen.specs.Ears.{AllOpen, ears, texts_of};
ghost use Rattle.compose.specs.Exits.{exit_code};
ghost use Rattle.compose.specs.Watch.{EndedWith, PutReports, Watched};
ghost use Rattle.qo_machine.specs.declared.running.Ending.TheVariants as Ending;

use crate::replays::offset_of;
use crate::statuses::{Ran, Status};
use qo_causes::{Failed, Sink, Source, VoidSink, put_all};
use qo_listen::{Listener, Listeners};
use qo_machine::{Ending, run_told};
use qo_record::{ReplayHub, Unmade};
use qo_values::INPUTS_MAX;
use std::alloc::Global;

/// Puts what listeners tell into a sink, and gives the status of that.
fn put_reports<K: Sink>(alloc: Global, listeners: &Listeners, sink: &mut K) -> Status
    ensures put { PutReports result (K.held sink.old) (K.held sink.new) (texts_of (ears ⟦<Box<dyn Listener> as Listener>⟧ listeners.now.all.items)) }
    ensures cause { result ≡ Status.WriteFault → Rose (K.faults sink.old) (K.faults sink.new) }
    ensures quiet { result ≢ Status.WriteFault → K.faults sink.new ≡ K.faults sink.old }
    ensures other { (result ≢ Status.Usage) × (result ≢ Status.HubFault) × (result ≢ Status.ReadFault) }
{
    let Ok(reports) = listeners.reports(alloc) else {
        return Status::Memory;
    };
    match put_all(sink, reports.as_slice()) {
        Ok(()) => Status::Done,
        Err(Failed) => Status::WriteFault,
    }
}

/// The status of a run that ended so. Where it came to its end, what listeners tell is put into a sink, and it is the
/// status of that.
fn status_after<K: Sink>(
    alloc: Global,
    ending: Ending,
    listeners: &Listeners,
    sink: &mut K,
) -> Status
    ensures put { EndedWith ending result (K.held sink.old) (K.held sink.new) (texts_of (ears ⟦<Box<dyn Listener> as Listener>⟧ listeners.now.all.items)) }
    ensures cause { ending ≢ Ending.SendFailed → result ≡ Status.WriteFault → Rose (K.faults sink.old) (K.faults sink.new) }
    ensures quiet { result ≢ Status.WriteFault → K.faults sink.new ≡ K.faults sink.old }
    ensures read { result ≡ Status.ReadFault → ending ≡ Ending.NextFailed }
    ensures starved { ending ≡ Ending.NextFailed → result ≡ Status.ReadFault }
    ensures other { (result ≢ Status.Usage) × (result ≢ Status.HubFault) }
{
    match ending {
        Ending::Done => put_reports(alloc, listeners, sink),
        Ending::Bad(_) => Status::BadRecord,
        Ending::Memory => Status::Memory,
        Ending::NextFailed => Status::ReadFault,
        Ending::SendFailed => Status::WriteFault,
        Ending::Limit => Status::InputLimit,
    }
}

/// Replays the recorded stream of a source to listeners. Where the run comes to its end, what they tell is put into a
/// sink. They are ended, and the bad place is given, or 0.
pub(crate) fn watch<S: Source, K: Sink>(
    alloc: Global,
    source: S,
    mut sink: K,
    mut listeners: Listeners,
) -> (Ran<S, K>, u64)
    requires listening { AllOpen (ears ⟦<Box<dyn Listener> as Listener>⟧ listeners.all.items) }
    ensures code { result.0.code ≡ exit_code result.0.status }
    ensures watched { (taken : List ℕ) × Watched result.0.status (S.left source) (S.left result.0.source) (K.held sink) (K.held result.0.sink) taken result.1 (ears ⟦<Box<dyn Listener> as Listener>⟧ listeners.all.items) }
    ensures read_cause { result.0.status ≡ Status.ReadFault → Rose (S.faults source) (S.faults result.0.source) }
    ensures write_cause { result.0.status ≡ Status.WriteFault → Rose (K.faults sink) (K.faults result.0.sink) }
    ensures read_quiet { result.0.status ≢ Status.ReadFault → S.faults result.0.source ≡ S.faults source }
    ensures write_quiet { result.0.status ≢ Status.WriteFault → K.faults result.0.sink ≡ K.faults sink }
    ensures other { (result.0.status ≢ Status.Usage) × (result.0.status ≢ Status.HubFault) }
{
    match ReplayHub::new(alloc, source, VoidSink::new()) {
        Ok(mut hub) => {
            let ending = run_told(alloc, &mut hub, INPUTS_MAX, &mut listeners);
            let (source, _void) = hub.into_parts();
            let status = status_after(alloc, ending, &listeners, &mut sink);
            listeners.end();
            (Ran::ended(status, source, sink), offset_of(ending))
        }
        Err(Unmade { source, sink: _ }) => {
            listeners.end();
            (Ran::ended(Status::Memory, source, sink), 0)
        }
    }
}
