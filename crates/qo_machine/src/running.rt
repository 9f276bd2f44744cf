//! Runs: inputs from a hub, until the run ends.

ghost use Rattle.std.specs.Prelude.{◌≡◌, ◌≢◌, ◌≤◌, List, [], ◌∷◌, ◌++◌, OnErr, OnOk};
ghost use Rattle.qo_causes.specs.Cause.{HasCause, Rose};
ghost use Rattle.qo_machine.specs.Machine.{IsIn, Message, State};
ghost use Rattle.qo_listen.specs.Ears.{AllOpen, ears};
ghost use Rattle.qo_machine.specs.Listening.{RunTold, TurnTold};
ghost use Rattle.qo_machine.specs.Runs.{RunMeets, Told, is_lost, known};
ghost use Rattle.qo_machine.specs.declared.running.Ending.TheVariants as Ending;
ghost use Rattle.qo_machine.specs.Sending.{AreToLanes, IsLane, SendsAll, Sent, SentFront};

use crate::machines::{LANES, Machine};
use qo_causes::{Failed, Hub, Lane, NextError, SendError};
use qo_listen::{Listener, Listeners};
use qo_values::Chars;
use std::alloc::Global;

/// How a run ended.
#[derive(Clone, Copy, Debug, PartialEq, Eq)]
pub enum Ending {
    /// The run came to its end.
    Done,
    /// The hub has a bad place, this byte.
    Bad(u64),
    /// Memory ran out.
    Memory,
    /// The hub failed to give an input.
    NextFailed,
    /// The hub failed to send a message.
    SendFailed,
    /// As many inputs were taken as the run may take.
    Limit,
}

/// Whether the session of a lane is lost.
fn is_lost(lost: &[bool; LANES], lane: Lane) -> bool
    ensures { result ≡ is_lost lost.now lane }
{
    match lane {
        Lane::Session(session) => lost.get(usize::from(session)).copied().unwrap_or(false),
        Lane::Guest => false,
    }
}

/// Sends one message, unless its session is lost, or is lost in this.
fn send_one<H: Hub>(
    hub: &mut H,
    lost: &mut [bool; LANES],
    lane: Lane,
    text: &Chars,
) -> Result<(), Failed>
    requires { IsLane lane }
    ensures ok { OnOk result ((start : Told) (outs : List Message) → Sent (H.names hub.old) start (known (H.inputs hub.old) (H.sent hub.old) (H.got hub.old) (H.losses hub.old)) outs lost.old → Sent (H.names hub.old) start (known (H.inputs hub.new) (H.sent hub.new) (H.got hub.new) (H.losses hub.new)) (outs ++ (lane, text.now) ∷ []) lost.new) }
    ensures err { OnErr result ((start : Told) (outs : List Message) → Sent (H.names hub.old) start (known (H.inputs hub.old) (H.sent hub.old) (H.got hub.old) (H.losses hub.old)) outs lost.old → SentFront (H.names hub.old) start (known (H.inputs hub.new) (H.sent hub.new) (H.got hub.new) (H.losses hub.new)) (outs ++ (lane, text.now) ∷ [])) }
    ensures names { H.names hub.new ≡ H.names hub.old }
    ensures bad { H.bad hub.new ≡ H.bad hub.old }
    ensures asked { H.asked hub.new ≡ H.asked hub.old }
    ensures cause { HasCause (H.send_faults hub.old) (H.send_faults hub.new) result }
    ensures quiet { OnOk result (H.send_faults hub.new ≡ H.send_faults hub.old) }
    ensures next_count { H.next_faults hub.new ≡ H.next_faults hub.old }
    ensures later { H.later hub.old hub.new }
{
    if is_lost(lost, lane) {
        return Ok(());
    }
    match hub.send(lane, text.as_slice()) {
        Ok(()) => Ok(()),
        Err(SendError::Gone(session)) => {
            lost[usize::from(session)] = true;
            Ok(())
        }
        Err(SendError::Failed) => Err(Failed),
    }
}

/// Sends the messages of one step. What follows for a session that is lost is left out.
fn send_all<H: Hub>(hub: &mut H, outs: &[(Lane, Chars)]) -> Result<[bool; LANES], Failed>
    requires { AreToLanes outs.now }
    ensures sends { SendsAll (H.names hub.old) (known (H.inputs hub.old) (H.sent hub.old) (H.got hub.old) (H.losses hub.old)) (known (H.inputs hub.new) (H.sent hub.new) (H.got hub.new) (H.losses hub.new)) outs.now result }
    ensures names { H.names hub.new ≡ H.names hub.old }
    ensures bad { H.bad hub.new ≡ H.bad hub.old }
    ensures asked { H.asked hub.new ≡ H.asked hub.old }
    ensures cause { HasCause (H.send_faults hub.old) (H.send_faults hub.new) result }
    ensures quiet { OnOk result (H.send_faults hub.new ≡ H.send_faults hub.old) }
    ensures next_count { H.next_faults hub.new ≡ H.next_faults hub.old }
    ensures later { H.later hub.old hub.new }
{
    let mut lost = [false; LANES];
    for out in outs {
        if let Err(Failed) = send_one(hub, &mut lost, out.0, &out.1) {
            return Err(Failed);
        }
    }
    Ok(lost)
}

/// One turn: an input is taken and done, listeners are told, and what it makes is sent.
fn turn<H: Hub>(
    alloc: Global,
    hub: &mut H,
    machine: &mut Machine,
    listeners: &mut Listeners,
) -> Result<(), Ending>
    requires listening { AllOpen (ears ⟦<Box<dyn Listener> as Listener>⟧ listeners.old.all.items) }
    ensures meets { (s : State) → IsIn s machine.old → TurnTold s machine.new (known (H.inputs hub.old) (H.sent hub.old) (H.got hub.old) (H.losses hub.old)) (known (H.inputs hub.new) (H.sent hub.new) (H.got hub.new) (H.losses hub.new)) (H.bad hub.old) (ears ⟦<Box<dyn Listener> as Listener>⟧ listeners.old.all.items) (ears ⟦<Box<dyn Listener> as Listener>⟧ listeners.new.all.items) result }
    ensures listening { AllOpen (ears ⟦<Box<dyn Listener> as Listener>⟧ listeners.new.all.items) }
    ensures bad { H.bad hub.new ≡ H.bad hub.old }
    ensures asked { H.asked hub.new ≡ H.asked hub.old }
    ensures next_count { H.next_faults hub.old ≤ H.next_faults hub.new }
    ensures send_count { H.send_faults hub.old ≤ H.send_faults hub.new }
    ensures next_cause { result ≡ Err Ending.NextFailed → Rose (H.next_faults hub.old) (H.next_faults hub.new) }
    ensures send_cause { result ≡ Err Ending.SendFailed → Rose (H.send_faults hub.old) (H.send_faults hub.new) }
    ensures starved { result ≡ Err Ending.NextFailed → H.starved hub.new }
    ensures next_quiet { result ≢ Err Ending.NextFailed → H.next_faults hub.new ≡ H.next_faults hub.old }
    ensures send_quiet { result ≢ Err Ending.SendFailed → H.send_faults hub.new ≡ H.send_faults hub.old }
    ensures later { H.later hub.old hub.new }
{
    let input = match hub.next() {
        Ok(input) => input,
        Err(NextError::Failed) => return Err(Ending::NextFailed),
        Err(NextError::Bad(place)) => return Err(Ending::Bad(place)),
        Err(NextError::Memory) => return Err(Ending::Memory),
    };
    let Ok(outs) = machine.step_told(alloc, &input, listeners) else {
        return Err(Ending::Memory);
    };
    match send_all(hub, outs.as_slice()) {
        Ok(lost) => {
            machine.keep_outs(outs);
            machine.close_lost(&lost);
            Ok(())
        }
        Err(Failed) => Err(Ending::SendFailed),
    }
}

/// Runs a new machine on the inputs of a hub, at most `limit` of them, until the run ends.
///
/// The count of faults of `begin` and `next` rises where it answers `NextFailed` and only there, and that of
/// `send` where it answers `SendFailed` and only there: no call that failed is made again.
pub fn run<H: Hub>(alloc: Global, hub: &mut H, limit: u64) -> Ending
    ensures meets { RunMeets result limit (known (H.inputs hub.old) (H.sent hub.old) (H.got hub.old) (H.losses hub.old)) (known (H.inputs hub.new) (H.sent hub.new) (H.got hub.new) (H.losses hub.new)) (H.bad hub.old) }
    ensures bad { H.bad hub.new ≡ H.bad hub.old }
    ensures asked { H.asked hub.new ≡ H.asked hub.old }
    ensures next_count { H.next_faults hub.old ≤ H.next_faults hub.new }
    ensures send_count { H.send_faults hub.old ≤ H.send_faults hub.new }
    ensures next_cause { result ≡ Ending.NextFailed → Rose (H.next_faults hub.old) (H.next_faults hub.new) }
    ensures send_cause { result ≡ Ending.SendFailed → Rose (H.send_faults hub.old) (H.send_faults hub.new) }
    ensures starved { result ≡ Ending.NextFailed → H.starved hub.new }
    ensures next_quiet { result ≢ Ending.NextFailed → H.next_faults hub.new ≡ H.next_faults hub.old }
    ensures send_quiet { result ≢ Ending.SendFailed → H.send_faults hub.new ≡ H.send_faults hub.old }
    ensures later { H.later hub.old hub.new }
{
    let mut nobody = Listeners::new(alloc);
    let ending = run_told(alloc, hub, limit, &mut nobody);
    nobody.end();
    ending
}

/// As `run`; and after each item and each line of the guest each listener is told what was noted, in order. Each
/// has heard the notes of the run; where the run ended for want of memory, which may be that of a listener, a
/// front of them. So it is while the total of notes counts each of them.
pub fn run_told<H: Hub>(alloc: Global, hub: &mut H, limit: u64, listeners: &mut Listeners) -> Ending
    requires listening { AllOpen (ears ⟦<Box<dyn Listener> as Listener>⟧ listeners.old.all.items) }
    ensures meets { RunTold result limit (known (H.inputs hub.old) (H.sent hub.old) (H.got hub.old) (H.losses hub.old)) (known (H.inputs hub.new) (H.sent hub.new) (H.got hub.new) (H.losses hub.new)) (H.bad hub.old) (ears ⟦<Box<dyn Listener> as Listener>⟧ listeners.old.all.items) (ears ⟦<Box<dyn Listener> as Listener>⟧ listeners.new.all.items) }
    ensures listening { AllOpen (ears ⟦<Box<dyn Listener> as Listener>⟧ listeners.new.all.items) }
    ensures bad { H.bad hub.new ≡ H.bad hub.old }
    ensures asked { H.asked hub.new ≡ H.asked hub.old }
    ensures next_count { H.next_faults hub.old ≤ H.next_faults hub.new }
    ensures send_count { H.send_faults hub.old ≤ H.send_faults hub.new }
    ensures next_cause { result ≡ Ending.NextFailed → Rose (H.next_faults hub.old) (H.next_faults hub.new) }
    ensures send_cause { result ≡ Ending.SendFailed → Rose (H.send_faults hub.old) (H.send_faults hub.new) }
    ensures starved { result ≡ Ending.NextFailed → H.starved hub.new }
    ensures next_quiet { result ≢ Ending.NextFailed → H.next_faults hub.new ≡ H.next_faults hub.old }
    ensures send_quiet { result ≢ Ending.SendFailed → H.send_faults hub.new ≡ H.send_faults hub.old }
    ensures later { H.later hub.old hub.new }
{
    let Ok(mut machine) = Machine::start(alloc) else {
        return Ending::Memory;
    };
    for _ in 0..limit {
        if let Err(ending) = turn(alloc, hub, &mut machine, listeners) {
            return ending;
        }
        if machine.ended() {
            return Ending::Done;
        }
    }
    Ending::Limit
}
