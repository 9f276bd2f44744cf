//! The machine: its board and its sessions, and what one input does.

ghost use Rattle.std.specs.Prelude.{◌≡◌, ◌<◌, [], List, length, option_map, replicate, IfOk};
ghost use Rattle.qo_values.specs.declared.limits.TheConstants.{SESSIONS};
ghost use Rattle.qo_causes.specs.declared.inputs.Moment.{Moment};
ghost use Rattle.qo_causes.specs.declared.inputs.What.TheVariants as What;
ghost use Rattle.qo_listen.specs.Ears.{AllOpen, ears};
ghost use Rattle.qo_sessions.specs.Sessions.{closed};
ghost use Rattle.qo_machine.specs.Listening.{AnswersTold, Hears, HearsFront, StepHeardFront};
ghost use Rattle.qo_machine.specs.Machine.{Choice};
ghost use Rattle.qo_machine.specs.Runs.{closed_where};

use crate::outs::Outs;
use crate::replying::{EMPTY, NOTHING_TOLD, changed_text, guest_text, line_text, reply_text};
use crate::serving::{serve_items, serve_lines};
use json::Scratch;
use qo_causes::{Input, Lane, Moment, What};
use qo_commands::{
    Done, Touched, ask, cut_lines, hear, interrupt_lines, no_view, refresh_lines, settle_lines,
    tell_buses, tell_tree, tell_unreadable,
};
use qo_events::DeviceEvent;
use qo_framing::Item;
use qo_heap::Steps;
use qo_layout::{KeptView, Lines};
use qo_listen::{Listener, Listeners};
use qo_realize::Board;
use qo_replies::{Event, return_written};
use qo_requests::{Call, Change, Query};
use qo_sessions::{Mode, Session, SessionAct};
use qo_telling::tell_new;
use qo_text::{Line, line_request};
use qo_values::{Chars, SESSIONS, Text};
use std::alloc::{AllocError, Global};
use std::marker::{Brand, Model};
use std::mem::replace;
use std::sync::ledger::{Blank, Ledger};

/// How many sessions there are, as a length.
pub(crate) const LANES: usize = SESSIONS as usize;

/// Sessions that are not open, all of them.
fn closed_sessions(alloc: Global) -> Result<Vec<Session>, AllocError>
    ensures { IfOk result (λ sessions. sessions.items ≡ replicate SESSIONS closed) }
{
    let mut sessions = Vec::with_capacity(alloc, LANES)?;
    for _ in 0..SESSIONS {
        sessions.push(Session::closed(alloc)?)?;
    }
    Ok(sessions)
}

/// Closes the sessions whose flag is set.
#[inline(always)]
fn close_where(sessions: &mut Vec<Session>, lost: &[bool; LANES])
    requires { length sessions.old.items ≡ SESSIONS }
    ensures closed { sessions.new.items ≡ closed_where lost.now sessions.old.items }
    ensures size { length sessions.new.items ≡ SESSIONS }
{
    for session in 0..LANES {
        if lost[session] {
            sessions[session].close();
        }
    }
}

/// What a command or a line of the guest comes to, but for the events on devices that wait on the board.
#[derive(Drop)]
pub(crate) struct Reply {
    /// The text of its reply; an error where there was no memory for it when the board was changed.
    pub(crate) text: Result<Chars, AllocError>,
    /// Its own event, if it has one.
    pub(crate) event: Option<Event>,
    /// Whether it ends the run.
    pub(crate) ends: bool,
    /// What it touched of what interrupt lines hang on.
    pub(crate) touched: Touched,
}

/// What a machine is made of, also while a command is served and events on devices wait on the board.
#[derive(Drop)]
pub(crate) struct Core {
    board: Board,
    /// The interrupt lines, which are the board's before and after each item and line.
    lines: Lines,
    /// What is kept of the view of its memory map, which is the board's at all times.
    view: KeptView,
    sessions: Vec<Session>,
    guest_line: Vec<u8>,
    ended: bool,
    out_of_memory: bool,
    /// Room for reading messages, which is kept from one to the next.
    scratch: Box<Scratch>,
    /// Room for the items of a step, and for what it sends, which are kept from one to the next.
    items: Vec<Item>,
    outs: Outs,
}

impl Model for Core {
    ghost use Rattle.std.specs.Prelude.{◌≡◌, length};
    ghost use Rattle.qo_values.specs.declared.limits.TheConstants.{SESSIONS};
    ghost use Rattle.qo_commands.specs.KeptViews.{HasView};
    ghost use Rattle.qo_machine.specs.Machine.{Seen};

    ghost Value = { Seen };

    ghost view = { λ m. record { board = m.board; lines = m.lines; sessions = m.sessions.items; guest_line = m.guest_line.items; ended = m.ended; out_of_memory = m.out_of_memory } };

    ghost invariant = { λ m. (length m.sessions.items ≡ SESSIONS) × HasView m.board m.view };
}

/// The machine.
///
/// It is driven by one input at a time. A step that runs out of memory ends it: every later one
/// answers `AllocError`. Between two inputs no event on a device waits on its board, and its interrupt lines
/// are the board's.
#[derive(Drop)]
pub struct Machine {
    core: Core,
}

impl Model for Machine {
    ghost use Rattle.qo_machine.specs.Machine.{Seen};
    ghost use Rattle.std.specs.Prelude.{◌≡◌, false};
    ghost use Rattle.qo_machine.specs.Between.{IsSettled, IsWired};

    ghost Value = { Seen };

    ghost view = { λ m. m.core };

    ghost invariant = { λ m. IsSettled m.core × (m.core.out_of_memory ≡ false → IsWired m.core) };
}

impl Machine {
    ghost use Rattle.std.specs.Prelude.{true, false, IsErr, OnErr, OnOk};
    ghost use Rattle.qo_model.specs.Board.{Board as Tree};
    ghost use Rattle.qo_machine.specs.Machine.{Answers, BreaksOff, IsIn, State, finished, opening, state_with};
    ghost use Rattle.qo_machine.specs.Runs.{close_lost};
    ghost use Rattle.qo_machine.specs.Sending.{AreToLanes};
    ghost use Rattle.qo_machine.specs.Between.{IsSoundBetween, IsWired};

    /// The machine at first: the opening board, and all sessions closed. Each board that it stands at is
    /// sound, and no event waits.
    pub fn start(alloc: Global) -> Result<Machine, AllocError>
        ensures state { IfOk result (λ m. IsIn opening m × (m.out_of_memory ≡ false)) }
        ensures sound { IfOk result (λ m. (s : State) → IsIn s m → IsSoundBetween s.board) }
        ensures lines { IfOk result IsWired }
    {
        Ok(Machine {
            core: Core::start(alloc)?,
        })
    }

    /// Whether the run has ended. It takes no memory.
    pub fn ended(&self) -> bool
        ensures { result ≡ self.now.ended }
    {
        self.core.ended()
    }

    /// Does what one input does, and gives the messages that it makes.
    ///
    /// A reply may instead be E99, where memory runs out for the defined one; the item has then done
    /// nothing, but that `object-add` and `device_add` may have made and ended objects. It answers `AllocError` where
    /// memory runs out otherwise, and from then on always: the run has then ended, and all sessions
    /// are closed. The board is then one that a front of the input's items leads to. After each step, also
    /// after such a one, each board that the machine stands at is sound, and no event waits.
    pub fn step(&mut self, alloc: Global, input: &Input) -> Result<Outs, AllocError>
        ensures answered { (s : State) → IsIn s self.old → IfOk result (λ outs. Answers s input.now outs self.new) }
        ensures lanes { IfOk result AreToLanes }
        ensures closes { OnErr result ((b : Tree) → state_with b self.new ≡ finished (state_with b self.old)) }
        ensures lasts { OnOk result (self.new.out_of_memory ≡ false) }
        ensures spends { OnErr result (self.new.out_of_memory ≡ true) }
        ensures out_of_memory { self.old.out_of_memory ≡ true → IsErr result }
        ensures breaks { (s : State) → IsIn s self.old → OnErr result (BreaksOff s input.now self.new) }
        ensures sound { (s : State) → IsIn s self.new → IsSoundBetween s.board }
        ensures lines { OnOk result (IsWired self.new) }
    {
        let mut nobody = Listeners::new(alloc);
        let done = self.step_told(alloc, input, &mut nobody);
        nobody.end();
        done
    }

    /// As `step`; and after each item and each line of the guest each listener is told what was noted, in order.
    /// Where a listener has no memory for a note, that is want of memory of the step. What was noted is what is
    /// noted on the way to the state after the step, by the same choices; where memory runs out each listener
    /// has heard a front of what some choices note. While the total of notes counts each of them, none is missed.
    pub fn step_told(
        &mut self,
        alloc: Global,
        input: &Input,
        listeners: &mut Listeners,
    ) -> Result<Outs, AllocError>
        requires listening { AllOpen (ears ⟦<Box<dyn Listener> as Listener>⟧ listeners.old.all.items) }
        ensures answered { (s : State) → IsIn s self.old → IfOk result (λ outs. AnswersTold s input.now outs self.new (ears ⟦<Box<dyn Listener> as Listener>⟧ listeners.old.all.items) (ears ⟦<Box<dyn Listener> as Listener>⟧ listeners.new.all.items)) }
        ensures heard { (s : State) → IsIn s self.old → OnErr result (StepHeardFront s input.now (ears ⟦<Box<dyn Listener> as Listener>⟧ listeners.old.all.items) (ears ⟦<Box<dyn Listener> as Listener>⟧ listeners.new.all.items)) }
        ensures listening { AllOpen (ears ⟦<Box<dyn Listener> as Listener>⟧ listeners.new.all.items) }
        ensures lanes { IfOk result AreToLanes }
        ensures closes { OnErr result ((b : Tree) → state_with b self.new ≡ finished (state_with b self.old)) }
        ensures lasts { OnOk result (self.new.out_of_memory ≡ false) }
        ensures spends { OnErr result (self.new.out_of_memory ≡ true) }
        ensures out_of_memory { self.old.out_of_memory ≡ true → IsErr result }
        ensures breaks { (s : State) → IsIn s self.old → OnErr result (BreaksOff s input.now self.new) }
        ensures sound { (s : State) → IsIn s self.new → IsSoundBetween s.board }
        ensures lines { OnOk result (IsWired self.new) }
    {
        self.core.reveal_board();
        let done = self.core.step(alloc, input, listeners);
        self.core.reveal_board();
        done
    }

    /// Keeps the room of messages that were sent, for those of later steps. It takes no memory.
    pub(crate) fn keep_outs(&mut self, outs: Outs)
        ensures { self.new ≡ self.old }
    {
        self.core.reveal_board();
        self.core.keep_outs(outs);
    }

    /// Closes the sessions that are lost, as if each was shut. It takes no memory.
    pub(crate) fn close_lost(&mut self, lost: &[bool; LANES])
        ensures state { (s : State) → IsIn s self.old → IsIn (close_lost lost.now s) self.new }
        ensures lasts { self.new.out_of_memory ≡ self.old.out_of_memory }
    {
        self.core.close_lost(lost);
    }
}

impl Core {
    ghost use Rattle.std.specs.Prelude.{true, false, IsErr, OnErr, OnOk, Some};
    ghost use Rattle.qo_model.specs.Board.{Board as Tree};
    ghost use Rattle.qo_model.specs.Notes.{total_of};
    ghost use Rattle.qo_model.specs.declared.notes.Note.{Note};
    ghost use Rattle.qo_listen.specs.Ears.{AllHeard};
    ghost use Rattle.qo_telling.specs.Telling.{HeardFronts, IsNew};
    ghost use Rattle.qo_sessions.specs.Acts.{act};
    ghost use Rattle.qo_sessions.specs.Sessions.{fed};
    ghost use Rattle.qo_commands.specs.Changes.{Changes, Left};
    ghost use Rattle.qo_requests.specs.declared.calls.Call.TheVariants as call;
    ghost use Rattle.qo_commands.specs.Commands.{monitored, without_events};
    ghost use Rattle.qo_commands.specs.Views.{done_of};
    ghost use Rattle.qo_text.specs.declared.lines.Line.TheVariants as line;
    ghost use Rattle.qo_realize.specs.Representation.{Stands, StandsForGood};
    ghost use Rattle.qo_realize.specs.Time.{advanced};
    ghost use Rattle.qo_machine.specs.Machine.{BreaksOff, IsIn, State, after_command, beside, finished, input_step, mode_of, opening, session_of, state_with, with_line, with_session};
    ghost use Rattle.qo_machine.specs.Runs.{close_lost};
    ghost use Rattle.qo_machine.specs.Sending.{AreToLanes};
    ghost use Rattle.qo_commands.specs.Hearing.{heard};
    ghost use Rattle.qo_commands.specs.Lines.{lines_of};
    ghost use Rattle.qo_commands.specs.Interrupts.{HasLines};
    ghost use Rattle.qo_commands.specs.Touched.{IsLeft};
    ghost use Rattle.qo_commands.specs.declared.touched.Touched.TheVariants.{Nothing};
    ghost use Rattle.qo_model.specs.Opening.{opening_board};
    ghost use Rattle.qo_machine.specs.Between.{IsWired};
    ghost use Rattle.qo_machine.specs.Serving.{Came, CameAs, CameTo, moved};

    /// The machine at first: the opening board, and all sessions closed.
    fn start(alloc: Global) -> Result<Core, AllocError>
        ensures state { IfOk result (λ m. IsIn opening m × (m.out_of_memory ≡ false)) }
        ensures wired { IfOk result IsWired }
    {
        Core::start_counting::<Brand>(alloc, Blank::new(1))
    }

    /// The machine at first, made with a counter of steps over a blank.
    fn start_counting<L: Ledger>(alloc: Global, blank: Blank) -> Result<Core, AllocError>
        requires name { blank.name ≡ L.name }
        requires parts { blank.parts ≡ L.parts }
        requires some { 0 < blank.parts }
        ensures state { IfOk result (λ m. IsIn opening m × (m.out_of_memory ≡ false)) }
        ensures wired { IfOk result IsWired }
    {
        let mut steps = Steps::<L>::from_blank(blank);
        let board = Board::start(alloc, &mut steps)?;
        let lines = interrupt_lines(alloc, &board, &mut steps)?;
        Core::begun(alloc, board, lines)
    }

    /// A machine that begins on a board with its interrupt lines; all sessions are closed.
    fn begun(alloc: Global, board: Board, lines: Lines) -> Result<Core, AllocError>
        ensures state { Stands opening_board board → IfOk result (λ m. IsIn opening m × (m.out_of_memory ≡ false)) }
        ensures wired { HasLines board lines → IfOk result IsWired }
    {
        Ok(Core {
            board,
            lines,
            view: no_view(),
            sessions: closed_sessions(alloc)?,
            guest_line: Vec::new(alloc),
            ended: false,
            out_of_memory: false,
            scratch: Box::new(alloc, Scratch::new(alloc))?,
            items: Vec::new(alloc),
            outs: Outs::none(alloc),
        })
    }

    /// What its board stands for: there is a sound board that stands at it.
    fn reveal_board(&self)
        ensures { StandsForGood self.now.board }
    {
        self.board.reveal_board();
    }

    /// Whether the run has ended. It takes no memory.
    pub(crate) fn ended(&self) -> bool
        ensures { result ≡ self.now.ended }
    {
        self.ended
    }

    /// Does what one input does, as `Machine::step_told` says.
    fn step(
        &mut self,
        alloc: Global,
        input: &Input,
        listeners: &mut Listeners,
    ) -> Result<Outs, AllocError>
        requires wired { self.old.out_of_memory ≡ false → IsWired self.old }
        requires listening { AllOpen (ears ⟦<Box<dyn Listener> as Listener>⟧ listeners.old.all.items) }
        ensures answered { (s : State) → IsIn s self.old → IfOk result (λ outs. AnswersTold s input.now outs self.new (ears ⟦<Box<dyn Listener> as Listener>⟧ listeners.old.all.items) (ears ⟦<Box<dyn Listener> as Listener>⟧ listeners.new.all.items)) }
        ensures heard { (s : State) → IsIn s self.old → OnErr result (StepHeardFront s input.now (ears ⟦<Box<dyn Listener> as Listener>⟧ listeners.old.all.items) (ears ⟦<Box<dyn Listener> as Listener>⟧ listeners.new.all.items)) }
        ensures listening { AllOpen (ears ⟦<Box<dyn Listener> as Listener>⟧ listeners.new.all.items) }
        ensures lanes { IfOk result AreToLanes }
        ensures closes { OnErr result ((b : Tree) → state_with b self.new ≡ finished (state_with b self.old)) }
        ensures lasts { OnOk result (self.new.out_of_memory ≡ false) }
        ensures spends { OnErr result (self.new.out_of_memory ≡ true) }
        ensures out_of_memory { self.old.out_of_memory ≡ true → IsErr result }
        ensures breaks { (s : State) → IsIn s self.old → OnErr result (BreaksOff s input.now self.new) }
        ensures wired { OnOk result (IsWired self.new) }
    {
        if self.out_of_memory {
            self.finish();
            return Err(AllocError);
        }
        match self.step_counting::<Brand>(alloc, input, Blank::new(1), listeners) {
            Ok(outs) => Ok(outs),
            Err(AllocError) => {
                self.out_of_memory = true;
                self.finish();
                Err(AllocError)
            }
        }
    }

    /// One step, with a counter of steps over a blank.
    fn step_counting<L: Ledger>(
        &mut self,
        alloc: Global,
        input: &Input,
        blank: Blank,
        listeners: &mut Listeners,
    ) -> Result<Outs, AllocError>
        requires name { blank.name ≡ L.name }
        requires parts { blank.parts ≡ L.parts }
        requires wired { IsWired self.old }
        requires some { 0 < blank.parts }
        requires listening { AllOpen (ears ⟦<Box<dyn Listener> as Listener>⟧ listeners.old.all.items) }
        ensures answered { (s : State) → IsIn s self.old → IfOk result (λ outs. AnswersTold s input.now outs self.new (ears ⟦<Box<dyn Listener> as Listener>⟧ listeners.old.all.items) (ears ⟦<Box<dyn Listener> as Listener>⟧ listeners.new.all.items)) }
        ensures heard { (s : State) → IsIn s self.old → OnErr result (StepHeardFront s input.now (ears ⟦<Box<dyn Listener> as Listener>⟧ listeners.old.all.items) (ears ⟦<Box<dyn Listener> as Listener>⟧ listeners.new.all.items)) }
        ensures listening { AllOpen (ears ⟦<Box<dyn Listener> as Listener>⟧ listeners.new.all.items) }
        ensures breaks { (s : State) → IsIn s self.old → OnErr result (BreaksOff s input.now self.new) }
        ensures lanes { IfOk result AreToLanes }
        ensures lasts { self.new.out_of_memory ≡ self.old.out_of_memory }
        ensures wired { OnOk result (IsWired self.new) }
    {
        let mut steps = Steps::<L>::from_blank(blank);
        self.serve(alloc, input, &mut steps, listeners)
    }

    /// Closes the sessions that are lost, as if each was shut. It takes no memory.
    fn close_lost(&mut self, lost: &[bool; LANES])
        ensures state { (s : State) → IsIn s self.old → IsIn (close_lost lost.now s) self.new }
        ensures lasts { self.new.out_of_memory ≡ self.old.out_of_memory }
        ensures board { self.new.board ≡ self.old.board }
        ensures wires { self.new.lines ≡ self.old.lines }
    {
        close_where(&mut self.sessions, lost);
    }

    /// One step, while memory has not run out.
    fn serve<L: Ledger>(
        &mut self,
        alloc: Global,
        input: &Input,
        steps: &mut Steps<L>,
        listeners: &mut Listeners,
    ) -> Result<Outs, AllocError>
        requires wired { IsWired self.old }
        requires listening { AllOpen (ears ⟦<Box<dyn Listener> as Listener>⟧ listeners.old.all.items) }
        ensures answered { (s : State) → IsIn s self.old → IfOk result (λ outs. AnswersTold s input.now outs self.new (ears ⟦<Box<dyn Listener> as Listener>⟧ listeners.old.all.items) (ears ⟦<Box<dyn Listener> as Listener>⟧ listeners.new.all.items)) }
        ensures heard { (s : State) → IsIn s self.old → OnErr result (StepHeardFront s input.now (ears ⟦<Box<dyn Listener> as Listener>⟧ listeners.old.all.items) (ears ⟦<Box<dyn Listener> as Listener>⟧ listeners.new.all.items)) }
        ensures listening { AllOpen (ears ⟦<Box<dyn Listener> as Listener>⟧ listeners.new.all.items) }
        ensures breaks { (s : State) → IsIn s self.old → OnErr result (BreaksOff s input.now self.new) }
        ensures lanes { IfOk result AreToLanes }
        ensures lasts { self.new.out_of_memory ≡ self.old.out_of_memory }
        ensures wired { OnOk result (IsWired self.new) }
    {
        if self.ended {
            return Ok(Outs::none(alloc));
        }
        match &input.what {
            What::Open(session) => self.open(alloc, *session),
            What::Bytes(session, bytes) => self.take(
                alloc,
                input.at,
                *session,
                bytes.as_slice(),
                steps,
                listeners,
            ),
            What::Shut(session) => {
                self.shut(*session);
                Ok(Outs::none(alloc))
            }
            What::End => {
                self.finish();
                Ok(Outs::none(alloc))
            }
            What::Guest(piece) => {
                self.take_guest(alloc, input.at, piece.as_slice(), steps, listeners)
            }
            What::Step(ns) => {
                self.go_on(*ns, steps);
                Ok(Outs::none(alloc))
            }
        }
    }

    /// A session opens, and is greeted.
    fn open(&mut self, alloc: Global, session: u8) -> Result<Outs, AllocError>
        ensures answered { (b : Tree) (at : Moment) → IfOk result (λ outs. input_step (state_with b self.old) at (What.Open session) [] ≡ record { outs = outs; state = state_with b self.new; rest = [] }) }
        ensures lanes { IfOk result AreToLanes }
        ensures board { self.new.board ≡ self.old.board }
        ensures lasts { self.new.out_of_memory ≡ self.old.out_of_memory }
        ensures wires { self.new.lines ≡ self.old.lines }
    {
        let mut outs = Outs::none(alloc);
        if session >= SESSIONS || self.sessions[usize::from(session)].mode() != Mode::Closed {
            return Ok(outs);
        }
        let begun = Session::begin(alloc)?;
        outs.push(Lane::Session(session), begun.greet_text(alloc)?)?;
        self.sessions[usize::from(session)] = begun;
        Ok(outs)
    }

    /// A session is shut: what is unfinished of it is dropped. It takes no memory.
    fn shut(&mut self, session: u8)
        ensures answered { (b : Tree) (at : Moment) → input_step (state_with b self.old) at (What.Shut session) [] ≡ record { outs = []; state = state_with b self.new; rest = [] } }
        ensures board { self.new.board ≡ self.old.board }
        ensures lasts { self.new.out_of_memory ≡ self.old.out_of_memory }
        ensures wires { self.new.lines ≡ self.old.lines }
    {
        if session < SESSIONS {
            self.sessions[usize::from(session)].close();
        }
    }

    /// Bytes of a session come: the items that they complete are served in turn, and listeners are told.
    fn take<L: Ledger>(
        &mut self,
        alloc: Global,
        at: Moment,
        session: u8,
        bytes: &[u8],
        steps: &mut Steps<L>,
        listeners: &mut Listeners,
    ) -> Result<Outs, AllocError>
        requires wired { IsWired self.old }
        requires listening { AllOpen (ears ⟦<Box<dyn Listener> as Listener>⟧ listeners.old.all.items) }
        ensures answered { (s : State) → IsIn s self.old → IfOk result (λ outs. (choices : List Choice) × (t : State) × IsIn t self.new × (input_step s at (What.Bytes session bytes.now) choices ≡ record { outs = outs; state = t; rest = [] }) × Hears s.board t.board (ears ⟦<Box<dyn Listener> as Listener>⟧ listeners.old.all.items) (ears ⟦<Box<dyn Listener> as Listener>⟧ listeners.new.all.items)) }
        ensures heard { (s : State) → IsIn s self.old → OnErr result ((choices : List Choice) × HearsFront s.board (input_step s at (What.Bytes session bytes.now) choices).state.board (ears ⟦<Box<dyn Listener> as Listener>⟧ listeners.old.all.items) (ears ⟦<Box<dyn Listener> as Listener>⟧ listeners.new.all.items)) }
        ensures listening { AllOpen (ears ⟦<Box<dyn Listener> as Listener>⟧ listeners.new.all.items) }
        ensures breaks { (s : State) → IsIn s self.old → OnErr result (BreaksOff s (record { at = at; what = What.Bytes session bytes.now }) self.new) }
        ensures lanes { IfOk result AreToLanes }
        ensures lasts { self.new.out_of_memory ≡ self.old.out_of_memory }
        ensures wired { OnOk result (IsWired self.new) }
    {
        if session >= SESSIONS {
            return Ok(Outs::none(alloc));
        }
        let room = self.item_room(alloc);
        let items = self.feed(alloc, session, bytes, room)?;
        let outs = serve_items(self, alloc, at, session, &items, steps, listeners);
        self.keep_items(items);
        outs
    }

    /// The room of the items before. It takes no memory.
    fn item_room(&mut self, alloc: Global) -> Vec<Item>
        ensures { self.new ≡ self.old }
    {
        replace(&mut self.items, Vec::new(alloc))
    }

    /// Keeps the room of items that were served, with that of the first of them, and lets the others go. It
    /// takes no memory.
    fn keep_items(&mut self, items: Vec<Item>)
        ensures { self.new ≡ self.old }
    {
        let mut room = items;
        room.truncate(1);
        self.items = room;
    }

    /// No message, and room for so many, in that of the messages before. The error is want of memory.
    pub(crate) fn out_room(&mut self, alloc: Global, count: usize) -> Result<Outs, AllocError>
        ensures none { IfOk result (λ outs. outs ≡ []) }
        ensures same { self.new ≡ self.old }
    {
        replace(&mut self.outs, Outs::none(alloc)).emptied(count)
    }

    /// Keeps the room of messages that were sent. It takes no memory.
    fn keep_outs(&mut self, outs: Outs)
        ensures { self.new ≡ self.old }
    {
        self.outs = outs;
    }

    /// The items that bytes of a session complete.
    fn feed(
        &mut self,
        alloc: Global,
        session: u8,
        bytes: &[u8],
        room: Vec<Item>,
    ) -> Result<Vec<Item>, AllocError>
        requires { session < SESSIONS }
        ensures items { (b : Tree) → IfOk result (λ items. items.items ≡ (fed (session_of (state_with b self.old) session) bytes.now).items) }
        ensures state { (b : Tree) → IfOk result (λ items. state_with b self.new ≡ with_session (state_with b self.old) session (fed (session_of (state_with b self.old) session) bytes.now).session) }
        ensures board { self.new.board ≡ self.old.board }
        ensures lasts { self.new.out_of_memory ≡ self.old.out_of_memory }
        ensures wires { self.new.lines ≡ self.old.lines }
    {
        self.sessions[usize::from(session)].feed(alloc, bytes, room)
    }

    /// Bytes of the guest come: the lines that end in them are served in turn, and listeners are told.
    fn take_guest<L: Ledger>(
        &mut self,
        alloc: Global,
        at: Moment,
        bytes: &[u8],
        steps: &mut Steps<L>,
        listeners: &mut Listeners,
    ) -> Result<Outs, AllocError>
        requires wired { IsWired self.old }
        requires listening { AllOpen (ears ⟦<Box<dyn Listener> as Listener>⟧ listeners.old.all.items) }
        ensures answered { (s : State) → IsIn s self.old → IfOk result (λ outs. (choices : List Choice) × (t : State) × IsIn t self.new × (input_step s at (What.Guest bytes.now) choices ≡ record { outs = outs; state = t; rest = [] }) × Hears s.board t.board (ears ⟦<Box<dyn Listener> as Listener>⟧ listeners.old.all.items) (ears ⟦<Box<dyn Listener> as Listener>⟧ listeners.new.all.items)) }
        ensures heard { (s : State) → IsIn s self.old → OnErr result ((choices : List Choice) × HearsFront s.board (input_step s at (What.Guest bytes.now) choices).state.board (ears ⟦<Box<dyn Listener> as Listener>⟧ listeners.old.all.items) (ears ⟦<Box<dyn Listener> as Listener>⟧ listeners.new.all.items)) }
        ensures listening { AllOpen (ears ⟦<Box<dyn Listener> as Listener>⟧ listeners.new.all.items) }
        ensures breaks { (s : State) → IsIn s self.old → OnErr result (BreaksOff s (record { at = at; what = What.Guest bytes.now }) self.new) }
        ensures lanes { IfOk result AreToLanes }
        ensures lasts { self.new.out_of_memory ≡ self.old.out_of_memory }
        ensures wired { OnOk result (IsWired self.new) }
    {
        let lines = self.cut(alloc, bytes)?;
        serve_lines(self, alloc, at, &lines, steps, listeners)
    }

    /// The lines of the guest that end in some bytes; the front of the unfinished one is kept.
    fn cut(&mut self, alloc: Global, bytes: &[u8]) -> Result<Vec<Chars>, AllocError>
        ensures lines { IfOk result (λ lines. lines.items ≡ (lines_of self.old.guest_line bytes.now).lines) }
        ensures state { (b : Tree) → OnOk result (state_with b self.new ≡ with_line (state_with b self.old) (lines_of self.old.guest_line bytes.now).rest) }
        ensures board { self.new.board ≡ self.old.board }
        ensures lasts { self.new.out_of_memory ≡ self.old.out_of_memory }
        ensures wires { self.new.lines ≡ self.old.lines }
    {
        cut_lines(alloc, &mut self.guest_line, bytes)
    }

    /// Does what a line of the guest does, and gives its answer. The error is want of memory, and
    /// leaves the machine as it was.
    pub(crate) fn hear<L: Ledger>(
        &mut self,
        alloc: Global,
        line: &[u8],
        steps: &mut Steps<L>,
    ) -> Result<Reply, AllocError>
        requires wired { IsWired self.old }
        ensures came { (b : Tree) → Stands b self.old.board → IfOk result (λ r. CameTo (heard b line.now) r self.new.board) }
        ensures left { IfOk result (λ r. IsLeft r.touched self.new.board self.new.lines) }
        ensures kept { OnErr result (self.new.board ≡ self.old.board) }
        ensures rest { (b : Tree) → state_with b self.new ≡ state_with b self.old }
        ensures lasts { self.new.out_of_memory ≡ self.old.out_of_memory }
        ensures wires { self.new.lines ≡ self.old.lines }
    {
        let heard = hear(
            &mut self.board,
            &self.lines,
            &mut self.view,
            line,
            alloc,
            steps,
        )?;
        self.board.reveal_board();
        Ok(Reply {
            text: guest_text(alloc, &heard.answer),
            event: heard.event,
            ends: heard.ends,
            touched: heard.touched,
        })
    }

    /// The virtual time goes on, where the machine runs; a step that is refused changes nothing. It
    /// takes no memory.
    fn go_on<L: Ledger>(&mut self, ns: u64, steps: &mut Steps<L>)
        requires wired { IsWired self.old }
        ensures board { (b : Tree) → Stands b self.old.board → Stands (advanced b ns).board self.new.board }
        ensures rest { (b : Tree) → state_with b self.new ≡ state_with b self.old }
        ensures lasts { self.new.out_of_memory ≡ self.old.out_of_memory }
        ensures wired { IsWired self.new }
    {
        let _time = self.board.advance(ns);
        self.board.reveal_board();
        refresh_lines(&mut self.lines, &self.board, steps);
    }

    /// The interrupt lines are the board's again, where this was touched since they were. The error is want
    /// of memory.
    pub(crate) fn settle<L: Ledger>(
        &mut self,
        alloc: Global,
        touched: Touched,
        steps: &mut Steps<L>,
    ) -> Result<(), AllocError>
        requires { IsLeft touched self.old.board self.old.lines }
        ensures wired { OnOk result (IsWired self.new) }
        ensures board { self.new.board ≡ self.old.board }
        ensures rest { (b : Tree) → state_with b self.new ≡ state_with b self.old }
        ensures lasts { self.new.out_of_memory ≡ self.old.out_of_memory }
    {
        settle_lines(alloc, &mut self.lines, &self.board, touched, steps)
    }

    /// The mode of a session.
    pub(crate) fn mode(&self, session: u8) -> Mode
        requires { session < SESSIONS }
        ensures { result ≡ mode_of (beside self.now) session }
    {
        self.sessions[usize::from(session)].mode()
    }

    /// What an item of a session comes to; a negotiation changes its mode.
    pub(crate) fn interpret(
        &mut self,
        alloc: Global,
        session: u8,
        item: &Item,
    ) -> Result<SessionAct, AllocError>
        requires { session < SESSIONS }
        ensures act { (b : Tree) → IfOk result (λ what. what ≡ act (mode_of (state_with b self.old) session) item.now) }
        ensures state { (b : Tree) → IfOk result (λ what. state_with b self.new ≡ moved (state_with b self.old) session what) }
        ensures kept { (b : Tree) → OnErr result (state_with b self.new ≡ state_with b self.old) }
        ensures board { self.new.board ≡ self.old.board }
        ensures lasts { self.new.out_of_memory ≡ self.old.out_of_memory }
        ensures wires { self.new.lines ≡ self.old.lines }
    {
        self.sessions[usize::from(session)].act(alloc, item, &mut self.scratch)
    }

    /// What a command comes to that leaves the board, and the text of its reply.
    fn answer<L: Ledger>(
        &self,
        alloc: Global,
        query: &Query,
        id: Option<&Text>,
        steps: &mut Steps<L>,
    ) -> Result<Reply, AllocError>
        ensures came { (b : Tree) → Stands b self.now.board → IfOk result (λ r. Came b (call.Query query.now) (option_map (λ id. id.now) id.entry) r self.now.board) }
        ensures touched { IfOk result (λ r. r.touched ≡ Nothing) }
    {
        let done = ask(alloc, &self.board, query, steps)?;
        let text = reply_text(alloc, &self.board, id, &done.result, steps)?;
        Ok(Reply {
            text: Ok(text),
            event: done.event,
            ends: done.ends,
            touched: Touched::Nothing,
        })
    }

    /// Does a command that changes the board. Where memory runs out the board is as it was, or an attempt was
    /// cut; the interrupt lines are the board's then.
    fn apply<L: Ledger>(
        &mut self,
        alloc: Global,
        change: &Change,
        steps: &mut Steps<L>,
    ) -> Result<Done, AllocError>
        requires wired { IsWired self.old }
        ensures came { (b : Tree) → Stands b self.old.board → Changes b change.now result self.new.board }
        ensures left { IfOk result (λ d. IsLeft d.touched self.new.board self.new.lines) }
        ensures same { OnErr result (IsWired self.new) }
        ensures rest { (b : Tree) → state_with b self.new ≡ state_with b self.old }
        ensures lasts { self.new.out_of_memory ≡ self.old.out_of_memory }
        ensures wires { self.new.lines ≡ self.old.lines }
    {
        let done = qo_commands::change(
            alloc,
            &mut self.board,
            &self.lines,
            &mut self.view,
            change,
            steps,
        );
        self.board.reveal_board();
        done
    }

    /// Does a command that changes the board, and gives the text of its reply. The text that says that
    /// it was done is made first, so that nothing is done that could not be answered. Where memory
    /// runs out the board is as it was, or an attempt was cut.
    fn change<L: Ledger>(
        &mut self,
        alloc: Global,
        change: &Change,
        id: Option<&Text>,
        steps: &mut Steps<L>,
    ) -> Result<Reply, AllocError>
        requires wired { IsWired self.old }
        ensures came { (b : Tree) → Stands b self.old.board → IfOk result (λ r. Came b (call.Change change.now) (option_map (λ id. id.now) id.entry) r self.new.board) }
        ensures left { IfOk result (λ r. IsLeft r.touched self.new.board self.new.lines) }
        ensures same { OnErr result (IsWired self.new) }
        ensures kept { (b : Tree) → Stands b self.old.board → OnErr result (Left b (call.Change change.now) self.new.board) }
        ensures rest { (b : Tree) → state_with b self.new ≡ state_with b self.old }
        ensures lasts { self.new.out_of_memory ≡ self.old.out_of_memory }
        ensures wires { self.new.lines ≡ self.old.lines }
    {
        let empty = return_written(alloc, id, EMPTY)?;
        let done = self.apply(alloc, change, steps)?;
        let text = changed_text(alloc, &self.board, id, empty, &done.result, steps);
        Ok(Reply {
            text,
            event: done.event,
            ends: done.ends,
            touched: done.touched,
        })
    }

    /// The reply of a line of the monitor that leaves the board, by what it comes to.
    fn tell<L: Ledger>(
        &self,
        alloc: Global,
        done: Done,
        id: Option<&Text>,
        steps: &mut Steps<L>,
    ) -> Result<Reply, AllocError>
        ensures came { (b : Tree) → Stands b self.now.board → IfOk result (λ r. CameAs (done_of b done) (option_map (λ id. id.now) id.entry) r self.now.board) }
        ensures touched { IfOk result (λ r. r.touched ≡ Nothing) }
    {
        let text = reply_text(alloc, &self.board, id, &done.result, steps)?;
        Ok(Reply {
            text: Ok(text),
            event: done.event,
            ends: done.ends,
            touched: Touched::Nothing,
        })
    }

    /// Does the command of a line of the monitor, and gives the text of its reply. The text that says that
    /// it was done is made first. Where memory runs out the board is as it was, or an attempt was cut.
    fn change_by_line<L: Ledger>(
        &mut self,
        alloc: Global,
        change: &Change,
        id: Option<&Text>,
        steps: &mut Steps<L>,
    ) -> Result<Reply, AllocError>
        requires wired { IsWired self.old }
        ensures came { (b : Tree) → Stands b self.old.board → IfOk result (λ r. CameAs (monitored b (Some (line.Do change.now))) (option_map (λ id. id.now) id.entry) r self.new.board) }
        ensures left { IfOk result (λ r. IsLeft r.touched self.new.board self.new.lines) }
        ensures same { OnErr result (IsWired self.new) }
        ensures kept { (b : Tree) → Stands b self.old.board → OnErr result (Left b (call.Change change.now) self.new.board) }
        ensures rest { (b : Tree) → state_with b self.new ≡ state_with b self.old }
        ensures lasts { self.new.out_of_memory ≡ self.old.out_of_memory }
        ensures wires { self.new.lines ≡ self.old.lines }
    {
        let told = return_written(alloc, id, NOTHING_TOLD)?;
        let done = self.apply(alloc, change, steps)?;
        let text = line_text(alloc, id, told, &done.result);
        Ok(Reply {
            text,
            event: done.event,
            ends: done.ends,
            touched: done.touched,
        })
    }

    /// What a line of the monitor comes to, and the text of its reply. Where memory runs out the board is as
    /// it was, or an attempt was cut.
    fn monitor<L: Ledger>(
        &mut self,
        alloc: Global,
        command_line: &Text,
        id: Option<&Text>,
        steps: &mut Steps<L>,
    ) -> Result<Reply, AllocError>
        requires wired { IsWired self.old }
        ensures came { (b : Tree) → Stands b self.old.board → IfOk result (λ r. Came b (call.Monitor command_line.now) (option_map (λ id. id.now) id.entry) r self.new.board) }
        ensures kept { (b : Tree) → Stands b self.old.board → OnErr result (Left b (call.Monitor command_line.now) self.new.board) }
        ensures left { IfOk result (λ r. IsLeft r.touched self.new.board self.new.lines) }
        ensures same { OnErr result (IsWired self.new) }
        ensures rest { (b : Tree) → state_with b self.new ≡ state_with b self.old }
        ensures lasts { self.new.out_of_memory ≡ self.old.out_of_memory }
        ensures wires { self.new.lines ≡ self.old.lines }
    {
        let Some(line) = line_request(alloc, command_line.as_str())? else {
            return self.tell(alloc, tell_unreadable(alloc)?, id, steps);
        };
        match line {
            Line::Do(change) => self.change_by_line(alloc, &change, id, steps),
            Line::Tree => self.tell(alloc, tell_tree(alloc, &self.board, steps)?, id, steps),
            Line::Bus => self.tell(alloc, tell_buses(alloc, &self.board, steps)?, id, steps),
        }
    }

    /// What a command comes to, and the text of its reply. Where memory runs out the board is as it
    /// was, or an attempt was cut.
    #[inline(always)]
    pub(crate) fn perform<L: Ledger>(
        &mut self,
        alloc: Global,
        command: &Call,
        id: Option<&Text>,
        steps: &mut Steps<L>,
    ) -> Result<Reply, AllocError>
        requires wired { IsWired self.old }
        ensures came { (b : Tree) → Stands b self.old.board → IfOk result (λ r. Came b command.now (option_map (λ id. id.now) id.entry) r self.new.board) }
        ensures kept { (b : Tree) → Stands b self.old.board → OnErr result (Left b command.now self.new.board) }
        ensures rest { (b : Tree) → state_with b self.new ≡ state_with b self.old }
        ensures lasts { self.new.out_of_memory ≡ self.old.out_of_memory }
        ensures wires { self.new.lines ≡ self.old.lines }
        ensures left { IfOk result (λ r. IsLeft r.touched self.new.board self.new.lines) }
        ensures same { OnErr result (IsWired self.new) }
    {
        match command {
            Call::Query(query) => self.answer(alloc, query, id, steps),
            Call::Change(change) => self.change(alloc, change, id, steps),
            Call::Monitor { command_line } => self.monitor(alloc, command_line, id, steps),
        }
    }

    /// How many notes there were. It takes no memory.
    #[inline(always)]
    pub(crate) fn notes_total(&self) -> u64
        ensures good { StandsForGood self.now.board }
        ensures total { (b : Tree) → Stands b self.now.board → result ≡ total_of b.notes }
    {
        self.board.reveal_board();
        self.board.notes_total()
    }

    /// Each listener is told the notes from a number on, in order. The error is want of memory: each has then
    /// heard a front of them.
    #[inline(always)]
    pub(crate) fn tell_new(
        &self,
        alloc: Global,
        from: u64,
        listeners: &mut Listeners,
    ) -> Result<(), AllocError>
        requires listening { AllOpen (ears ⟦<Box<dyn Listener> as Listener>⟧ listeners.old.all.items) }
        ensures told { (b : Tree) (more : List Note) → Stands b self.now.board → IsNew b from more → OnOk result (AllHeard more (ears ⟦<Box<dyn Listener> as Listener>⟧ listeners.old.all.items) (ears ⟦<Box<dyn Listener> as Listener>⟧ listeners.new.all.items)) }
        ensures left { (b : Tree) (more : List Note) → Stands b self.now.board → IsNew b from more → OnErr result (HeardFronts more (ears ⟦<Box<dyn Listener> as Listener>⟧ listeners.old.all.items) (ears ⟦<Box<dyn Listener> as Listener>⟧ listeners.new.all.items)) }
        ensures listening { AllOpen (ears ⟦<Box<dyn Listener> as Listener>⟧ listeners.new.all.items) }
    {
        tell_new(alloc, &self.board, from, listeners)
    }

    /// The events on devices that wait on the board, in the order of their coming. It takes no memory.
    pub(crate) fn waiting(&self) -> &[DeviceEvent]
        ensures { (b : Tree) → Stands b self.now.board → result.now ≡ b.events }
    {
        self.board.events()
    }

    /// Lets the events on devices that wait on the board go, as they were told. It takes no memory.
    pub(crate) fn forget_waiting(&mut self)
        ensures board { (b : Tree) → Stands b self.old.board → Stands (without_events b) self.new.board }
        ensures rest { (b : Tree) → state_with b self.new ≡ state_with b self.old }
        ensures lasts { self.new.out_of_memory ≡ self.old.out_of_memory }
        ensures wires { self.new.lines ≡ self.old.lines }
    {
        self.board.reveal_board();
        self.board.clear_events();
    }

    /// The run ends where a command ends it. It takes no memory.
    pub(crate) fn conclude(&mut self, ends: bool)
        ensures state { (b : Tree) → state_with b self.new ≡ after_command ends (state_with b self.old) }
        ensures board { self.new.board ≡ self.old.board }
        ensures lasts { self.new.out_of_memory ≡ self.old.out_of_memory }
        ensures wires { self.new.lines ≡ self.old.lines }
    {
        if ends {
            self.finish();
        }
    }

    /// The run ends: all sessions are closed. It takes no memory.
    fn finish(&mut self)
        ensures done { (b : Tree) → state_with b self.new ≡ finished (state_with b self.old) }
        ensures board { self.new.board ≡ self.old.board }
        ensures lasts { self.new.out_of_memory ≡ self.old.out_of_memory }
        ensures wires { self.new.lines ≡ self.old.lines }
    {
        close_where(&mut self.sessions, &[true; LANES]);
        self.guest_line.clear();
        self.ended = true;
    }
}
