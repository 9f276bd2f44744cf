//! Serving the items of a session and the lines of the guest: each makes exactly one reply, after its events.

ghost use Rattle.std.specs.Prelude.{◌≡◌, ◌<◌, [], ◌∷◌, ◌++◌, true, List, map, option_map, option_to_list, IfOk, OnErr, OnOk};
ghost use Rattle.qo_causes.specs.declared.hubs.Lane.TheVariants as LaneView;
ghost use Rattle.qo_guest.specs.declared.answers.GuestAnswer.TheVariants.{NoMemory};
ghost use Rattle.qo_replies.specs.Replies.{error_reply};
ghost use Rattle.qo_values.specs.declared.codes.Code.TheVariants.{E99};
ghost use Rattle.qo_model.specs.Board.{Board as Tree};
ghost use Rattle.qo_realize.specs.Representation.{Stands};
ghost use Rattle.qo_commands.specs.Commands.{event_of, without_events};
ghost use Rattle.qo_listen.specs.Ears.{AllOpen, ears};
ghost use Rattle.qo_machine.specs.Machine.{IsIn, Message, State, answer_line, beside, by_item, by_line, commanding, event_outs, state_with, those_commanding, event_messages};
ghost use Rattle.qo_values.specs.declared.limits.TheConstants.{SESSIONS};
ghost use Rattle.qo_machine.specs.Sending.{AreToLanes, IsLane};
ghost use Rattle.qo_machine.specs.Between.{IsWired};
ghost use Rattle.qo_machine.specs.Listening.{ServesHeardFront, ServesTold};
ghost use Rattle.qo_machine.specs.Serving.{CommandLeft, CommandServed, LinesFront, LinesTo, ServesFront, ServesTo, Tells};
ghost use Rattle.qo_commands.specs.Touched.{IsLeft};

use crate::machines::{Core, Reply};
use crate::outs::Outs;
use crate::replying::{EMPTY, guest_text};
use crate::telling::Emitted;
use qo_causes::{Lane, Moment};
use qo_commands::{Touched, without_return};
use qo_events::DeviceEvent;
use qo_framing::Item;
use qo_guest::GuestAnswer;
use qo_heap::Steps;
use qo_listen::{Listener, Listeners};
use qo_replies::{Event, error_text, return_written};
use qo_requests::Call;
use qo_sessions::{Mode, SessionAct};
use qo_values::{Chars, Code, SESSIONS, Text};
use std::alloc::{AllocError, Global};
use std::sync::ledger::Ledger;

/// What is sent in one step: the moment that stamps its events, and the messages so far.
#[derive(Drop)]
struct Outbox {
    alloc: Global,
    at: Moment,
    outs: Outs,
}

impl Outbox {
    /// Nothing is sent so far. It takes no memory.
    fn new(alloc: Global, at: Moment) -> Outbox
        ensures moment { result.at ≡ at }
        ensures none { result.outs ≡ [] }
    {
        Outbox {
            alloc,
            at,
            outs: Outs::none(alloc),
        }
    }

    /// Nothing is sent so far, and there is room for so many messages. The error is want of memory.
    fn with_room(
        machine: &mut Core,
        alloc: Global,
        at: Moment,
        count: usize,
    ) -> Result<Outbox, AllocError>
        ensures moment { IfOk result (λ outbox. outbox.at ≡ at) }
        ensures none { IfOk result (λ outbox. outbox.outs ≡ []) }
        ensures same { machine.new ≡ machine.old }
    {
        Ok(Outbox {
            alloc,
            at,
            outs: machine.out_room(alloc, count)?,
        })
    }

    /// The messages. It takes no memory.
    fn into_outs(self) -> Outs
        ensures { result ≡ self.outs }
    {
        self.outs
    }

    /// One message more, to a lane.
    #[inline(always)]
    fn push(&mut self, lane: Lane, text: Chars) -> Result<(), AllocError>
        ensures moment { self.new.at ≡ self.old.at }
        ensures sent { OnOk result (self.new.outs ≡ self.old.outs ++ (lane, text) ∷ []) }
    {
        self.outs.push(lane, text)
    }

    /// One session is told of an event, if it commands.
    fn send_event<E: Emitted>(
        &mut self,
        machine: &Core,
        session: u8,
        event: &E,
    ) -> Result<(), AllocError>
        requires { session < SESSIONS }
        ensures moment { self.new.at ≡ self.old.at }
        ensures told { OnOk result (self.new.outs ≡ self.old.outs ++ event_messages (E.event event.now) self.old.at (those_commanding (beside machine.now) (session ∷ []))) }
    {
        if machine.mode(session) == Mode::Commanding {
            let line = event.line(self.alloc, self.at)?;
            self.push(Lane::Session(session), line)?;
        }
        Ok(())
    }

    /// Each session that commands is told of an event.
    fn broadcast<E: Emitted>(&mut self, machine: &Core, event: &E) -> Result<(), AllocError>
        ensures moment { self.new.at ≡ self.old.at }
        ensures told { OnOk result (self.new.outs ≡ self.old.outs ++ event_messages (E.event event.now) self.old.at (commanding (beside machine.now))) }
    {
        for session in 0..SESSIONS {
            self.send_event(machine, session, event)?;
        }
        Ok(())
    }

    /// Each session that commands is told of each event on a device, in their order.
    fn send_device_events(
        &mut self,
        machine: &Core,
        events: &[DeviceEvent],
    ) -> Result<(), AllocError>
        ensures moment { self.new.at ≡ self.old.at }
        ensures told { OnOk result (self.new.outs ≡ self.old.outs ++ event_outs self.old.at (beside machine.now) (map event_of events.now)) }
    {
        for event in events {
            self.broadcast(machine, event)?;
        }
        Ok(())
    }

    /// Each session that commands is told of the event of a command, if it has one.
    fn send_command_event(
        &mut self,
        machine: &Core,
        event: Option<&Event>,
    ) -> Result<(), AllocError>
        ensures moment { self.new.at ≡ self.old.at }
        ensures told { OnOk result (self.new.outs ≡ self.old.outs ++ event_outs self.old.at (beside machine.now) (option_to_list (option_map (λ e. e.now) event.entry))) }
    {
        if let Some(event) = event {
            self.broadcast(machine, event)?;
        }
        Ok(())
    }

    /// A session is told that memory ran out for its command.
    fn send_memory_error(&mut self, session: u8, id: Option<&Text>) -> Result<(), AllocError>
        ensures moment { self.new.at ≡ self.old.at }
        ensures told { OnOk result (self.new.outs ≡ self.old.outs ++ (LaneView.Session session, error_reply (option_map (λ id. id.now) id.entry) E99) ∷ []) }
    {
        let text = error_text(self.alloc, id, Code::E99)?;
        self.push(Lane::Session(session), text)
    }

    /// The guest is told that memory ran out for its line.
    fn send_guest_memory_error(&mut self) -> Result<(), AllocError>
        ensures moment { self.new.at ≡ self.old.at }
        ensures told { OnOk result (self.new.outs ≡ self.old.outs ++ (LaneView.Guest, answer_line NoMemory) ∷ []) }
    {
        let text = guest_text(self.alloc, &GuestAnswer::NoMemory)?;
        self.push(Lane::Guest, text)
    }
}

/// Each session that commands is told of the events that wait on the board, which no longer wait then,
/// and of those of a command or a line; its reply goes to its lane.
#[inline(always)]
fn send_reply(
    machine: &mut Core,
    lane: Lane,
    reply: Reply,
    outbox: &mut Outbox,
) -> Result<(), AllocError>
    requires { IsLane lane }
    ensures sent { OnOk result ((front : List Message) × (outbox.new.outs ≡ outbox.old.outs ++ front) × AreToLanes front × Tells outbox.old.at lane machine.old reply front) }
    ensures board { (b : Tree) → Stands b machine.old.board → Stands (without_events b) machine.new.board }
    ensures rest { (b : Tree) → state_with b machine.new ≡ state_with b machine.old }
    ensures wires { machine.new.lines ≡ machine.old.lines }
    ensures lasts { machine.new.out_of_memory ≡ machine.old.out_of_memory }
    ensures moment { outbox.new.at ≡ outbox.old.at }
{
    let told = outbox.send_device_events(machine, machine.waiting());
    machine.forget_waiting();
    told?;
    outbox.send_command_event(machine, reply.event.as_ref())?;
    outbox.push(lane, reply.text?)
}

/// A command is done, or refused for want of memory. The interrupt lines are then as they were, and it tells
/// what was touched since.
fn reply_to_command<L: Ledger>(
    machine: &mut Core,
    session: u8,
    command: &Call,
    id: Option<&Text>,
    outbox: &mut Outbox,
    steps: &mut Steps<L>,
) -> Result<Touched, AllocError>
    requires session { session < SESSIONS }
    requires wired { IsWired machine.old }
    ensures served { OnOk result ((front : List Message) × (outbox.new.outs ≡ outbox.old.outs ++ front) × AreToLanes front × ((s : State) → IsIn s machine.old → CommandServed outbox.old.at session s command.now (option_map (λ id. id.now) id.entry) front machine.new)) }
    ensures left { OnErr result ((s : State) → IsIn s machine.old → CommandLeft outbox.old.at session s command.now (option_map (λ id. id.now) id.entry) machine.new) }
    ensures touched { IfOk result (λ touched. IsLeft touched machine.new.board machine.new.lines) }
    ensures lasts { machine.new.out_of_memory ≡ machine.old.out_of_memory }
    ensures moment { outbox.new.at ≡ outbox.old.at }
{
    match machine.perform(outbox.alloc, command, id, steps) {
        Ok(reply) => {
            let ends = reply.ends;
            let touched = reply.touched;
            let sent = send_reply(machine, Lane::Session(session), reply, outbox);
            machine.conclude(ends);
            sent?;
            Ok(touched)
        }
        Err(AllocError) => {
            outbox.send_memory_error(session, id)?;
            Ok(Touched::Nothing)
        }
    }
}

/// A command is served: it is done, or refused for want of memory, and the interrupt lines are those of the
/// board that it leaves.
fn serve_command<L: Ledger>(
    machine: &mut Core,
    session: u8,
    command: &Call,
    id: Option<&Text>,
    outbox: &mut Outbox,
    steps: &mut Steps<L>,
) -> Result<(), AllocError>
    requires session { session < SESSIONS }
    requires wired { IsWired machine.old }
    ensures served { OnOk result ((front : List Message) × (outbox.new.outs ≡ outbox.old.outs ++ front) × AreToLanes front × ((s : State) → IsIn s machine.old → CommandServed outbox.old.at session s command.now (option_map (λ id. id.now) id.entry) front machine.new)) }
    ensures left { OnErr result ((s : State) → IsIn s machine.old → CommandLeft outbox.old.at session s command.now (option_map (λ id. id.now) id.entry) machine.new) }
    ensures wired { OnOk result (IsWired machine.new) }
    ensures lasts { machine.new.out_of_memory ≡ machine.old.out_of_memory }
    ensures moment { outbox.new.at ≡ outbox.old.at }
{
    let touched = reply_to_command(machine, session, command, id, outbox, steps)?;
    machine.settle(outbox.alloc, touched, steps)
}

/// An item of a session is served, unless the run has ended.
fn serve_item<L: Ledger>(
    machine: &mut Core,
    session: u8,
    item: &Item,
    outbox: &mut Outbox,
    steps: &mut Steps<L>,
) -> Result<(), AllocError>
    requires session { session < SESSIONS }
    requires wired { IsWired machine.old }
    ensures served { OnOk result ((front : List Message) × (outbox.new.outs ≡ outbox.old.outs ++ front) × AreToLanes front × ((s : State) → IsIn s machine.old → ServesTo outbox.old.at session s (item.now ∷ []) front machine.new)) }
    ensures left { OnErr result ((s : State) → IsIn s machine.old → ServesFront outbox.old.at session s (item.now ∷ []) machine.new) }
    ensures wired { OnOk result (IsWired machine.new) }
    ensures lasts { machine.new.out_of_memory ≡ machine.old.out_of_memory }
    ensures moment { outbox.new.at ≡ outbox.old.at }
{
    if machine.ended() {
        return Ok(());
    }
    match machine.interpret(outbox.alloc, session, item)? {
        SessionAct::Answer(code, id) => {
            let text = error_text(outbox.alloc, id.as_ref(), code)?;
            outbox.push(Lane::Session(session), text)?;
        }
        SessionAct::Negotiated(id) => {
            let text = return_written(outbox.alloc, id.as_ref(), EMPTY)?;
            outbox.push(Lane::Session(session), text)?;
        }
        SessionAct::Do(command, id) => {
            serve_command(machine, session, &command, id.as_ref(), outbox, steps)?;
        }
    }
    Ok(())
}

/// An item of a session is served, unless the run has ended, and each listener is told what was noted.
#[inline(always)]
fn serve_item_told<L: Ledger>(
    machine: &mut Core,
    session: u8,
    item: &Item,
    outbox: &mut Outbox,
    steps: &mut Steps<L>,
    listeners: &mut Listeners,
) -> Result<(), AllocError>
    requires session { session < SESSIONS }
    requires wired { IsWired machine.old }
    requires listening { AllOpen (ears ⟦<Box<dyn Listener> as Listener>⟧ listeners.old.all.items) }
    ensures served { OnOk result ((front : List Message) × (outbox.new.outs ≡ outbox.old.outs ++ front) × AreToLanes front × ((s : State) → IsIn s machine.old → ServesTold (by_item outbox.old.at session) s (item.now ∷ []) front machine.new (ears ⟦<Box<dyn Listener> as Listener>⟧ listeners.old.all.items) (ears ⟦<Box<dyn Listener> as Listener>⟧ listeners.new.all.items))) }
    ensures left { OnErr result ((s : State) → IsIn s machine.old → ServesFront outbox.old.at session s (item.now ∷ []) machine.new) }
    ensures heard { OnErr result ((s : State) → IsIn s machine.old → ServesHeardFront (by_item outbox.old.at session) s (item.now ∷ []) (ears ⟦<Box<dyn Listener> as Listener>⟧ listeners.old.all.items) (ears ⟦<Box<dyn Listener> as Listener>⟧ listeners.new.all.items)) }
    ensures listening { AllOpen (ears ⟦<Box<dyn Listener> as Listener>⟧ listeners.new.all.items) }
    ensures wired { OnOk result (IsWired machine.new) }
    ensures lasts { machine.new.out_of_memory ≡ machine.old.out_of_memory }
    ensures moment { outbox.new.at ≡ outbox.old.at }
{
    let from = machine.notes_total();
    serve_item(machine, session, item, outbox, steps)?;
    machine.tell_new(outbox.alloc, from, listeners)
}

/// Items of a session are served in turn. After each one each listener is told what was noted.
pub(crate) fn serve_items<L: Ledger>(
    machine: &mut Core,
    alloc: Global,
    at: Moment,
    session: u8,
    items: &[Item],
    steps: &mut Steps<L>,
    listeners: &mut Listeners,
) -> Result<Outs, AllocError>
    requires session { session < SESSIONS }
    requires wired { IsWired machine.old }
    requires listening { AllOpen (ears ⟦<Box<dyn Listener> as Listener>⟧ listeners.old.all.items) }
    ensures served { IfOk result (λ outs. (s : State) → IsIn s machine.old → ServesTold (by_item at session) s items.now outs machine.new (ears ⟦<Box<dyn Listener> as Listener>⟧ listeners.old.all.items) (ears ⟦<Box<dyn Listener> as Listener>⟧ listeners.new.all.items)) }
    ensures left { OnErr result ((s : State) → IsIn s machine.old → ServesFront at session s items.now machine.new) }
    ensures heard { OnErr result ((s : State) → IsIn s machine.old → ServesHeardFront (by_item at session) s items.now (ears ⟦<Box<dyn Listener> as Listener>⟧ listeners.old.all.items) (ears ⟦<Box<dyn Listener> as Listener>⟧ listeners.new.all.items)) }
    ensures listening { AllOpen (ears ⟦<Box<dyn Listener> as Listener>⟧ listeners.new.all.items) }
    ensures lanes { IfOk result AreToLanes }
    ensures wired { OnOk result (IsWired machine.new) }
    ensures lasts { machine.new.out_of_memory ≡ machine.old.out_of_memory }
{
    let mut outbox = Outbox::with_room(machine, alloc, at, items.len())?;
    for item in items {
        serve_item_told(machine, session, item, &mut outbox, steps, listeners)?;
    }
    Ok(outbox.into_outs())
}

/// A line of the guest is answered, unless the run has ended. The interrupt lines are then as they were, and
/// it tells what was touched since.
fn reply_to_line<L: Ledger>(
    machine: &mut Core,
    line: &Chars,
    outbox: &mut Outbox,
    steps: &mut Steps<L>,
) -> Result<Touched, AllocError>
    requires { IsWired machine.old }
    ensures served { OnOk result ((front : List Message) × (outbox.new.outs ≡ outbox.old.outs ++ front) × AreToLanes front × ((s : State) → IsIn s machine.old → LinesTo outbox.old.at s (line.now ∷ []) front machine.new)) }
    ensures left { OnErr result ((s : State) → IsIn s machine.old → LinesFront outbox.old.at s (line.now ∷ []) machine.new) }
    ensures touched { IfOk result (λ touched. IsLeft touched machine.new.board machine.new.lines) }
    ensures lasts { machine.new.out_of_memory ≡ machine.old.out_of_memory }
    ensures moment { outbox.new.at ≡ outbox.old.at }
{
    if machine.ended() {
        return Ok(Touched::Nothing);
    }
    match machine.hear(outbox.alloc, without_return(line.as_slice()), steps) {
        Ok(reply) => {
            let ends = reply.ends;
            let touched = reply.touched;
            let sent = send_reply(machine, Lane::Guest, reply, outbox);
            machine.conclude(ends);
            sent?;
            Ok(touched)
        }
        Err(AllocError) => {
            outbox.send_guest_memory_error()?;
            Ok(Touched::Nothing)
        }
    }
}

/// A line of the guest is served: it is answered, and the interrupt lines are those of the board that it leaves.
fn serve_line<L: Ledger>(
    machine: &mut Core,
    line: &Chars,
    outbox: &mut Outbox,
    steps: &mut Steps<L>,
) -> Result<(), AllocError>
    requires { IsWired machine.old }
    ensures served { OnOk result ((front : List Message) × (outbox.new.outs ≡ outbox.old.outs ++ front) × AreToLanes front × ((s : State) → IsIn s machine.old → LinesTo outbox.old.at s (line.now ∷ []) front machine.new)) }
    ensures left { OnErr result ((s : State) → IsIn s machine.old → LinesFront outbox.old.at s (line.now ∷ []) machine.new) }
    ensures wired { OnOk result (IsWired machine.new) }
    ensures lasts { machine.new.out_of_memory ≡ machine.old.out_of_memory }
    ensures moment { outbox.new.at ≡ outbox.old.at }
{
    let touched = reply_to_line(machine, line, outbox, steps)?;
    machine.settle(outbox.alloc, touched, steps)
}

/// A line of the guest is served, and each listener is told what was noted.
#[inline(always)]
fn serve_line_told<L: Ledger>(
    machine: &mut Core,
    line: &Chars,
    outbox: &mut Outbox,
    steps: &mut Steps<L>,
    listeners: &mut Listeners,
) -> Result<(), AllocError>
    requires wired { IsWired machine.old }
    requires listening { AllOpen (ears ⟦<Box<dyn Listener> as Listener>⟧ listeners.old.all.items) }
    ensures served { OnOk result ((front : List Message) × (outbox.new.outs ≡ outbox.old.outs ++ front) × AreToLanes front × ((s : State) → IsIn s machine.old → ServesTold (by_line outbox.old.at) s (line.now ∷ []) front machine.new (ears ⟦<Box<dyn Listener> as Listener>⟧ listeners.old.all.items) (ears ⟦<Box<dyn Listener> as Listener>⟧ listeners.new.all.items))) }
    ensures left { OnErr result ((s : State) → IsIn s machine.old → LinesFront outbox.old.at s (line.now ∷ []) machine.new) }
    ensures heard { OnErr result ((s : State) → IsIn s machine.old → ServesHeardFront (by_line outbox.old.at) s (line.now ∷ []) (ears ⟦<Box<dyn Listener> as Listener>⟧ listeners.old.all.items) (ears ⟦<Box<dyn Listener> as Listener>⟧ listeners.new.all.items)) }
    ensures listening { AllOpen (ears ⟦<Box<dyn Listener> as Listener>⟧ listeners.new.all.items) }
    ensures wired { OnOk result (IsWired machine.new) }
    ensures lasts { machine.new.out_of_memory ≡ machine.old.out_of_memory }
    ensures moment { outbox.new.at ≡ outbox.old.at }
{
    let from = machine.notes_total();
    serve_line(machine, line, outbox, steps)?;
    machine.tell_new(outbox.alloc, from, listeners)
}

/// Lines of the guest are served in turn. After each one each listener is told what was noted.
pub(crate) fn serve_lines<L: Ledger>(
    machine: &mut Core,
    alloc: Global,
    at: Moment,
    lines: &[Chars],
    steps: &mut Steps<L>,
    listeners: &mut Listeners,
) -> Result<Outs, AllocError>
    requires wired { IsWired machine.old }
    requires listening { AllOpen (ears ⟦<Box<dyn Listener> as Listener>⟧ listeners.old.all.items) }
    ensures served { IfOk result (λ outs. (s : State) → IsIn s machine.old → ServesTold (by_line at) s lines.now outs machine.new (ears ⟦<Box<dyn Listener> as Listener>⟧ listeners.old.all.items) (ears ⟦<Box<dyn Listener> as Listener>⟧ listeners.new.all.items)) }
    ensures left { OnErr result ((s : State) → IsIn s machine.old → LinesFront at s lines.now machine.new) }
    ensures heard { OnErr result ((s : State) → IsIn s machine.old → ServesHeardFront (by_line at) s lines.now (ears ⟦<Box<dyn Listener> as Listener>⟧ listeners.old.all.items) (ears ⟦<Box<dyn Listener> as Listener>⟧ listeners.new.all.items)) }
    ensures listening { AllOpen (ears ⟦<Box<dyn Listener> as Listener>⟧ listeners.new.all.items) }
    ensures lanes { IfOk result AreToLanes }
    ensures wired { OnOk result (IsWired machine.new) }
    ensures lasts { machine.new.out_of_memory ≡ machine.old.out_of_memory }
{
    let mut outbox = Outbox::new(alloc, at);
    for line in lines {
        serve_line_told(machine, line, &mut outbox, steps, listeners)?;
    }
    Ok(outbox.into_outs())
}
