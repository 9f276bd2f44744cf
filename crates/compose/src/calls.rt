//! The top call.

ghost use Rattle.std.specs.Prelude.{◌≡◌, ◌≢◌, ◌↔◌, ◌⊎◌, ℕ, false, true, List, Option, None, Some, map, string_bytes};
ghost use Rattle.qo_causes.specs.Cause.{Rose};
ghost use Rattle.qo_listen.specs.Ears.{AllOpen, ears};
ghost use Rattle.qo_machine.specs.Runs.{known};
ghost use Rattle.compose.specs.Completeness.{CompletesReplay, CompletesServe, CompletesWatch, EndsWell, NoFault, puts_lines};
ghost use Rattle.compose.specs.Demo.{ToldDemo};
ghost use Rattle.compose.specs.Exits.{exit_code};
ghost use Rattle.compose.specs.Rebuild.{RebuiltBy, board_line};
ghost use Rattle.compose.specs.Replay.{Complained, Replayed, line_of};
ghost use Rattle.compose.specs.Service.{Served, asks_hub};
ghost use Rattle.compose.specs.Types.{ToldTypes};
ghost use Rattle.compose.specs.Watch.{Watched};
ghost use Rattle.qo_values.specs.declared.codes.Code.{Code};
ghost use Rattle.qo_words.specs.Words.{demo as a_demo, order, rebuild as a_rebuild, replay as a_replay, serve as a_serve, types as a_types, watch as a_watch};

use crate::complaints::{complain, complain_board};
use crate::demos::tell_demo;
use crate::rebuilds::tell_board;
use crate::replays::replay;
use crate::serves::serve;
use crate::statuses::{Ran, Status};
use crate::type_lines::tell_types;
use crate::watches::watch;
use qo_causes::{Hub, Sink, Source};
use qo_listen::{Listener, Listeners};
use qo_words::{Order, order_in};
use std::alloc::{AllocError, Global};

/// Tells the status of a call that ended so, with the bad place that is shown, or 0, and gives the call.
fn told<S, K, E: Sink>(complaints: &mut E, ended: (Ran<S, K>, u64)) -> Ran<S, K>
    ensures ran { result ≡ ended.0 }
    ensures told { Complained (E.held complaints.old) (E.held complaints.new) (E.faults complaints.old) (E.faults complaints.new) (line_of ended.0.status ended.1) }
{
    let (ran, place) = ended;
    complain(complaints, ran.status, place);
    ran
}

/// Runs `compose` on its words, the words after the program's name.
///
/// `replay` runs the recorded stream of `source` on a new machine, entry by entry as it comes, and puts each message
/// into `sink` at once. `serve` lets the hub begin at a path with so many connections, and runs a new machine over it.
/// `demo` makes the record of a seed and a number of steps, runs it in memory, and puts five lines into `sink` that count
/// what was sent. `types` puts the line of each type into `sink`. `rebuild` reads the description of a board from
/// `source`, to its end, rebuilds the board by the calls of the board, and puts the description of that into `sink`.
/// `watch` runs the recorded stream as `replay` does, tells the listeners what is noted on the way, and puts what these
/// tell into `sink` where the run comes to its end; of the transcript nothing is put. By each order the listeners are
/// ended. One line goes to `complaints` for each status but `Done`; a fault there changes no status. What an order does
/// not use is left as it was.
///
/// - `Done`: the run has ended, at the end of its inputs or by a command before; its whole transcript was put or sent,
///   or by `watch` the reports of its listeners.
/// - `Usage`: exactly where the words are no order; nothing was read.
/// - `BadRecord`: the run came to the bad place, which the line shows; the whole transcript was put.
/// - `BadBoard`: only by `rebuild`. What `source` gave up to its end is no description, or a call of the board refuses it, by
///   the code that the line shows; nothing was put.
/// - `InputLimit`: the run has taken 1,000,000,000 inputs and has not ended; its whole transcript was put. Of `rebuild` the
///   source has given more than 16,777,216 bytes, and nothing was put.
/// - `ReadFault`, `WriteFault`: only where the count of faults of the source or the sink rose; by any other
///   status that count is as before.
/// - `HubFault`: only by `serve`, and only where a count of faults of the hub rose: it did not begin, gave no
///   input, or sent no message; by any other status these counts are as before.
/// - `Memory`: memory ran out; what was put or sent is a front of what the run sends, and by `watch` nothing. Of a demo nothing was put: its lines
///   are those of the run in which each command has its memory. Where there was none for the words of `serve`, the hub
///   did not begin.
///
/// Where no fault was counted, `types` and `demo` end with `Done` or `Memory`. So do `replay` and `watch` of a record without
/// a bad place, of fewer than 1,000,000,000 inputs, and `serve` where its hub tells as few and no bad place. With `Done` of
/// `replay` and `serve` each item of an open session before the end of the run was answered by exactly one reply, and each line of
/// the guest by exactly one answer.
///
/// With `ReadFault`, `WriteFault` and `Memory` of `replay` the run is over a front of the stream, which has at least each
/// entry that ends 65,700 bytes or more before the last byte taken. The whole transcript of these was put, and of the run
/// a front; with `ReadFault` all of it, and the run has each whole entry among the bytes taken.
pub fn compose<S: Source, K: Sink, E: Sink, H: Hub>(
    alloc: Global,
    words: &[String],
    mut source: S,
    mut sink: K,
    complaints: &mut E,
    hub: &mut H,
    listeners: Listeners,
) -> Ran<S, K>
    requires listening { AllOpen (ears ⟦<Box<dyn Listener> as Listener>⟧ listeners.all.items) }
    ensures code { result.code ≡ exit_code result.status }
    ensures usage { (result.status ≡ Status.Usage) ↔ (order (map string_bytes words.now) ≡ None) }
    ensures refused { order (map string_bytes words.now) ≡ None → (result.source ≡ source) × (result.sink ≡ sink) × Complained (E.held complaints.old) (E.held complaints.new) (E.faults complaints.old) (E.faults complaints.new) (line_of Status.Usage 0) }
    ensures replay { order (map string_bytes words.now) ≡ Some a_replay → (taken : List ℕ) × (place : ℕ) × Replayed result.status (S.left source) (S.left result.source) (K.held sink) (K.held result.sink) taken place × Complained (E.held complaints.old) (E.held complaints.new) (E.faults complaints.old) (E.faults complaints.new) (line_of result.status place) }
    ensures watch { order (map string_bytes words.now) ≡ Some a_watch → (taken : List ℕ) × (place : ℕ) × Watched result.status (S.left source) (S.left result.source) (K.held sink) (K.held result.sink) taken place (ears ⟦<Box<dyn Listener> as Listener>⟧ listeners.all.items) × Complained (E.held complaints.old) (E.held complaints.new) (E.faults complaints.old) (E.faults complaints.new) (line_of result.status place) }
    ensures serve { (path : List ℕ) (connections : ℕ) → order (map string_bytes words.now) ≡ Some (a_serve path connections) → (place : ℕ) × Served path connections result.status place (H.asked hub.old) (H.asked hub.new) (known (H.inputs hub.old) (H.sent hub.old) (H.got hub.old) (H.losses hub.old)) (known (H.inputs hub.new) (H.sent hub.new) (H.got hub.new) (H.losses hub.new)) (H.bad hub.old) × (result.source ≡ source) × (result.sink ≡ sink) × Complained (E.held complaints.old) (E.held complaints.new) (E.faults complaints.old) (E.faults complaints.new) (line_of result.status place) }
    ensures rebuild { order (map string_bytes words.now) ≡ Some a_rebuild → (bytes : List ℕ) × (why : Option Code) × RebuiltBy result.status why (S.left source) (S.left result.source) (K.held sink) (K.held result.sink) bytes × Complained (E.held complaints.old) (E.held complaints.new) (E.faults complaints.old) (E.faults complaints.new) (board_line result.status why) }
    ensures types { order (map string_bytes words.now) ≡ Some a_types → ToldTypes result.status (K.held sink) (K.held result.sink) × (result.source ≡ source) × Complained (E.held complaints.old) (E.held complaints.new) (E.faults complaints.old) (E.faults complaints.new) (line_of result.status 0) }
    ensures demo { (seed steps : ℕ) → order (map string_bytes words.now) ≡ Some (a_demo seed steps) → ToldDemo result.status seed steps (K.held sink) (K.held result.sink) × (result.source ≡ source) × Complained (E.held complaints.old) (E.held complaints.new) (E.faults complaints.old) (E.faults complaints.new) (line_of result.status 0) }
    ensures read_cause { result.status ≡ Status.ReadFault → Rose (S.faults source) (S.faults result.source) }
    ensures write_cause { result.status ≡ Status.WriteFault → Rose (K.faults sink) (K.faults result.sink) }
    ensures read_quiet { result.status ≢ Status.ReadFault → S.faults result.source ≡ S.faults source }
    ensures write_quiet { result.status ≢ Status.WriteFault → K.faults result.sink ≡ K.faults sink }
    ensures hub_cause { result.status ≡ Status.HubFault → Rose (H.next_faults hub.old) (H.next_faults hub.new) ⊎ Rose (H.send_faults hub.old) (H.send_faults hub.new) }
    ensures hub_quiet { result.status ≢ Status.HubFault → (H.next_faults hub.new ≡ H.next_faults hub.old) × (H.send_faults hub.new ≡ H.send_faults hub.old) }
    ensures complete_replay { order (map string_bytes words.now) ≡ Some a_replay → NoFault (S.faults source) (S.faults result.source) → NoFault (K.faults sink) (K.faults result.sink) → CompletesReplay result.status (S.left source) (K.held sink) (K.held result.sink) }
    ensures complete_watch { order (map string_bytes words.now) ≡ Some a_watch → NoFault (S.faults source) (S.faults result.source) → NoFault (K.faults sink) (K.faults result.sink) → CompletesWatch result.status (S.left source) }
    ensures complete_serve { asks_hub (order (map string_bytes words.now)) ≡ true → NoFault (H.next_faults hub.old) (H.next_faults hub.new) → NoFault (H.send_faults hub.old) (H.send_faults hub.new) → CompletesServe result.status (known (H.inputs hub.old) (H.sent hub.old) (H.got hub.old) (H.losses hub.old)) (known (H.inputs hub.new) (H.sent hub.new) (H.got hub.new) (H.losses hub.new)) (H.bad hub.old) }
    ensures complete_rest { puts_lines (order (map string_bytes words.now)) ≡ true → NoFault (K.faults sink) (K.faults result.sink) → EndsWell result.status }
    ensures hub_later { H.later hub.old hub.new }
    ensures hub_kept { asks_hub (order (map string_bytes words.now)) ≡ false → (hub.new ≡ hub.old) × (result.status ≢ Status.HubFault) }
{
    match order_in(alloc, words) {
        Ok(Some(Order::Watch)) => told(complaints, watch(alloc, source, sink, listeners)),
        Ok(Some(Order::Replay)) => {
            listeners.end();
            let ran = replay(alloc, source, sink);
            told(complaints, ran)
        }
        Ok(Some(Order::Serve { path, connections })) => {
            listeners.end();
            let (status, place) = serve(alloc, path.as_str(), connections, hub);
            told(complaints, (Ran::ended(status, source, sink), place))
        }
        Ok(Some(Order::Rebuild)) => {
            listeners.end();
            let (status, code) = tell_board(alloc, &mut source, &mut sink);
            complain_board(complaints, status, code);
            Ran::ended(status, source, sink)
        }
        Ok(Some(Order::Types)) => {
            listeners.end();
            let status = tell_types(alloc, &mut sink);
            told(complaints, (Ran::ended(status, source, sink), 0))
        }
        Ok(Some(Order::Demo { seed, steps })) => {
            listeners.end();
            let status = tell_demo(alloc, seed, steps, &mut sink);
            told(complaints, (Ran::ended(status, source, sink), 0))
        }
        Ok(None) => {
            listeners.end();
            told(complaints, (Ran::ended(Status::Usage, source, sink), 0))
        }
        Err(AllocError) => {
            listeners.end();
            told(complaints, (Ran::ended(Status::Memory, source, sink), 0))
        }
    }
}
