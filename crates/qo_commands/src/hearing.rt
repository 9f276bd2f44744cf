//! One line of the guest.

ghost use Rattle.std.specs.Prelude.{◌≡◌, false, IfOk, None, OnErr, Some, option_map};
ghost use Rattle.qo_heap.specs.Rows.{IsLive};
ghost use Rattle.qo_model.specs.Board.{Board as Tree};
ghost use Rattle.qo_realize.specs.Representation.{Stands};
ghost use Rattle.qo_buses.specs.Addresses.{addressed};
ghost use Rattle.qo_commands.specs.Hearing.{Came, acked, acted, heard, nacked, irq_by, outcome_of, polled_by, read_by, reset_by, shut_down, notice_answer, value_answer, written_by};
ghost use Rattle.qo_commands.specs.Interrupts.{HasLines};
ghost use Rattle.qo_commands.specs.Touched.{Touches};
ghost use Rattle.qo_commands.specs.declared.touched.Touched.TheVariants.{Nothing};
ghost use Rattle.qo_guest.specs.declared.answers.GuestAnswer.TheVariants.{Fine};
ghost use Rattle.qo_commands.specs.KeptViews.{HasView, leaves_objects};
ghost use Rattle.qo_layout.specs.Rows.{LinesAre};
ghost use Rattle.qo_sound_devices.specs.SoundDevices.{SoundDevices};

use crate::memory::{peek, poke};
use crate::touched::Touched;
use qo_guest::{Addr, GuestAct, GuestAnswer, read_line};
use qo_heap::{Oid, Steps};
use qo_hotplug::Notice;
use qo_layout::{KeptView, Lines};
use qo_realize::Board;
use qo_replies::Event;
use std::alloc::{AllocError, Global};
use std::sync::ledger::Ledger;

/// What a line of the guest comes to, but for the events on devices that wait on the board.
#[derive(Drop)]
pub struct Heard {
    /// What it is answered.
    pub answer: GuestAnswer,
    /// Its own event, if it has one.
    pub event: Option<Event>,
    /// Whether it ends the run.
    pub ends: bool,
    /// What it touched of what interrupt lines hang on.
    pub touched: Touched,
}

/// An answer, and nothing else.
pub(crate) fn answered(answer: GuestAnswer) -> Heard
    ensures { result ≡ record { answer = answer; event = None; ends = false; touched = Nothing } }
{
    Heard {
        answer,
        event: None,
        ends: false,
        touched: Touched::Nothing,
    }
}

/// It is done, and touched this.
fn fine(touched: Touched) -> Heard
    ensures { result ≡ record { answer = Fine; event = None; ends = false; touched = touched } }
{
    Heard {
        answer: GuestAnswer::Fine,
        event: None,
        ends: false,
        touched,
    }
}

/// The guest lets the device at an address go. It takes no memory.
fn ack<L: Ledger>(board: &mut Board, at: &Addr, steps: &mut Steps<L>) -> Heard
    ensures came { (b : Tree) → Stands b board.old → Came (acked b (addressed b at.now)) result board.new }
    ensures touched { (b : Tree) → Stands b board.old → Touches result.touched b (acked b (addressed b at.now)).board }
{
    let Some(dev) = board.guest_find(at, steps) else {
        return answered(GuestAnswer::NoDevice);
    };
    if !board.is_pending(dev) {
        return answered(GuestAnswer::NoPending);
    }
    board.complete(dev, steps);
    fine(Touched::Devices)
}

/// The guest refuses that the device at an address goes. The error is want of memory, and leaves the
/// board as it was.
fn nack<L: Ledger>(
    board: &mut Board,
    at: &Addr,
    alloc: Global,
    steps: &mut Steps<L>,
) -> Result<Heard, AllocError>
    ensures came { (b : Tree) → Stands b board.old → IfOk result (λ h. Came (nacked b (addressed b at.now)) h board.new) }
    ensures touched { IfOk result (λ h. h.touched ≡ Nothing) }
    ensures err { OnErr result (board.new ≡ board.old) }
{
    let Some(dev) = board.guest_find(at, steps) else {
        return Ok(answered(GuestAnswer::NoDevice));
    };
    if !board.is_pending(dev) {
        return Ok(answered(GuestAnswer::NoPending));
    }
    board.refuse(dev, alloc, steps)?;
    Ok(answered(GuestAnswer::Fine))
}

/// What the guest is told by a notice, if there is one.
fn notice_answer<L: Ledger>(
    board: &Board,
    notice: Option<&Notice>,
    steps: &mut Steps<L>,
) -> GuestAnswer
    ensures { (b : Tree) → Stands b board.now → result ≡ notice_answer b (option_map (λ n. n.now) notice.entry) }
{
    let Some(notice) = notice else {
        return GuestAnswer::NoNotice;
    };
    let at = board.guest_address(notice.device().birth, steps);
    if notice.is_plug() {
        GuestAnswer::Plug(at)
    } else {
        GuestAnswer::Unplug(at)
    }
}

/// The guest takes the notice that has waited longest. It takes no memory.
fn poll<L: Ledger>(board: &mut Board, steps: &mut Steps<L>) -> Heard
    ensures came { (b : Tree) → Stands b board.old → Came (polled_by b) result board.new }
    ensures touched { result.touched ≡ Nothing }
{
    let notice = board.poll();
    answered(notice_answer(board, notice.as_ref(), steps))
}

/// What the guest is told that a register reads.
fn value_answer(value: Option<u32>) -> GuestAnswer
    ensures { result ≡ value_answer value }
{
    match value {
        Some(value) => GuestAnswer::Value(value),
        None => GuestAnswer::NoRegister,
    }
}

/// The guest reads a register of a device. It takes no memory.
pub(crate) fn read_register<L: Ledger>(
    board: &Board,
    dev: Oid,
    reg: u8,
    steps: &mut Steps<L>,
) -> Heard
    requires { IsLive board.now.objects.rows dev }
    ensures came { (b : Tree) → Stands b board.now → outcome_of b result ≡ read_by b reg (Some dev.birth) }
    ensures touched { result.touched ≡ Nothing }
{
    answered(value_answer(board.guest_read(dev, reg, steps)))
}

/// The guest writes to a register of a device. It takes no memory.
pub(crate) fn write_register<L: Ledger>(
    board: &mut Board,
    dev: Oid,
    reg: u8,
    value: u32,
    steps: &mut Steps<L>,
) -> Heard
    requires { IsLive board.old.objects.rows dev }
    ensures came { (b : Tree) → Stands b board.old → Came (written_by b reg value (Some dev.birth)) result board.new }
    ensures touched { (b : Tree) → Stands b board.old → Touches result.touched b (written_by b reg value (Some dev.birth)).board }
{
    match board.guest_write(dev, reg, value, steps) {
        Some(()) => fine(Touched::Registers),
        None => answered(GuestAnswer::NoRegister),
    }
}

/// The guest reads a register of the device at an address. It takes no memory.
fn read<L: Ledger>(board: &Board, at: &Addr, reg: u8, steps: &mut Steps<L>) -> Heard
    ensures came { (b : Tree) → Stands b board.now → outcome_of b result ≡ read_by b reg (addressed b at.now) }
    ensures touched { result.touched ≡ Nothing }
{
    let Some(dev) = board.guest_find(at, steps) else {
        return answered(GuestAnswer::NoDevice);
    };
    read_register(board, dev, reg, steps)
}

/// The guest writes to a register of the device at an address. It takes no memory.
fn write<L: Ledger>(
    board: &mut Board,
    at: &Addr,
    reg: u8,
    value: u32,
    steps: &mut Steps<L>,
) -> Heard
    ensures came { (b : Tree) → Stands b board.old → Came (written_by b reg value (addressed b at.now)) result board.new }
    ensures touched { (b : Tree) → Stands b board.old → Touches result.touched b (written_by b reg value (addressed b at.now)).board }
{
    let Some(dev) = board.guest_find(at, steps) else {
        return answered(GuestAnswer::NoDevice);
    };
    write_register(board, dev, reg, value, steps)
}

/// The guest reads the interrupt lines: the bit of a slot of the root bus is the line of the device in it. It
/// takes no memory.
fn irq(lines: &Lines) -> Heard
    ensures came { (b : Tree) → SoundDevices b → LinesAre b lines.now → outcome_of b result ≡ irq_by b }
    ensures touched { result.touched ≡ Nothing }
{
    answered(GuestAnswer::Value(lines.irq()))
}

/// The guest resets the whole board. It takes no memory.
fn reset<L: Ledger>(board: &mut Board, steps: &mut Steps<L>) -> Heard
    ensures came { (b : Tree) → Stands b board.old → Came (reset_by b) result board.new }
    ensures touched { (b : Tree) → Stands b board.old → Touches result.touched b (reset_by b).board }
{
    board.system_reset(steps);
    Heard {
        answer: GuestAnswer::Fine,
        event: Some(Event::Reset { guest: true }),
        ends: false,
        touched: Touched::Devices,
    }
}

/// The guest ends the run.
fn shut_down() -> Heard
    ensures came { (b : Tree) → outcome_of b result ≡ shut_down b }
    ensures touched { result.touched ≡ Nothing }
{
    Heard {
        answer: GuestAnswer::Fine,
        event: Some(Event::Shutdown { guest: true }),
        ends: true,
        touched: Touched::Nothing,
    }
}

/// Whether an act of the guest leaves all objects of a board where they are.
fn leaves_objects(act: &GuestAct) -> bool
    ensures { result ≡ leaves_objects act.now }
{
    !matches!(act, GuestAct::Ack(_) | GuestAct::Reset)
}

/// What an act of the guest comes to where the machine runs. The view that is kept stays that of the board
/// before. The error is want of memory, and leaves the board as it was.
fn act<L: Ledger>(
    board: &mut Board,
    lines: &Lines,
    view: &mut KeptView,
    act: &GuestAct,
    alloc: Global,
    steps: &mut Steps<L>,
) -> Result<Heard, AllocError>
    requires lines { HasLines board.old lines.now }
    requires view { HasView board.old view.old }
    ensures came { (b : Tree) → Stands b board.old → IfOk result (λ h. Came (acted b act.now) h board.new) }
    ensures touched { (b : Tree) → Stands b board.old → IfOk result (λ h. Touches h.touched b (acted b act.now).board) }
    ensures view { HasView board.old view.new }
    ensures err { OnErr result (board.new ≡ board.old) }
{
    match act {
        GuestAct::Ack(at) => Ok(ack(board, at, steps)),
        GuestAct::Nack(at) => nack(board, at, alloc, steps),
        GuestAct::Poll => Ok(poll(board, steps)),
        GuestAct::Read(at, reg) => Ok(read(board, at, *reg, steps)),
        GuestAct::Write(at, reg, value) => Ok(write(board, at, *reg, *value, steps)),
        GuestAct::Peek(at) => peek(board, view, *at, alloc, steps),
        GuestAct::Poke(at, value) => poke(board, view, *at, *value, alloc, steps),
        GuestAct::Irq => Ok(irq(lines)),
        GuestAct::Reset => Ok(reset(board, steps)),
        GuestAct::Shutdown => Ok(shut_down()),
    }
}

/// What one line of the guest does, without its line end, and what it is answered: `no line` where it
/// is none, `no stopped` where the machine does not run, `no device` where none is at its address, `no
/// pending` where no removal of that one is pending, `no address` where no register shows at its hardware
/// address, and `no register` where the device has none of its number. `lines` are the interrupt lines of the
/// board, and `view` is what is kept of its view, also after the line. Events on devices wait on the board after
/// it. The error is want of memory, and leaves the board as it was.
pub fn hear<L: Ledger>(
    board: &mut Board,
    lines: &Lines,
    view: &mut KeptView,
    line: &[u8],
    alloc: Global,
    steps: &mut Steps<L>,
) -> Result<Heard, AllocError>
    requires lines { HasLines board.old lines.now }
    requires view { HasView board.old view.old }
    ensures came { (b : Tree) → Stands b board.old → IfOk result (λ h. Came (heard b line.now) h board.new) }
    ensures touched { (b : Tree) → Stands b board.old → IfOk result (λ h. Touches h.touched b (heard b line.now).board) }
    ensures view { HasView board.new view.new }
    ensures err { OnErr result (board.new ≡ board.old) }
{
    let Ok(read) = read_line(line) else {
        return Ok(answered(GuestAnswer::NoLine));
    };
    if !board.running() {
        return Ok(answered(GuestAnswer::NoStopped));
    }
    let heard = act(board, lines, view, &read, alloc, steps);
    view.keep_if(leaves_objects(&read));
    heard
}
