//! Commands that change the board, or are refused.

ghost use Rattle.std.specs.Prelude.{◌≡◌, [], ◌∷◌, false, true, if◌then◌else◌, IfOk, Ok, option_map};
ghost use Rattle.qo_model.specs.Board.{Board as Tree};
ghost use Rattle.qo_requests.specs.declared.calls.Addition.TheVariants as addition;
ghost use Rattle.qo_requests.specs.declared.calls.Alteration.TheVariants as alteration;
ghost use Rattle.qo_requests.specs.declared.calls.Change.TheVariants as change;
ghost use Rattle.qo_commands.specs.Changes.{Alters, Came, Changes};
ghost use Rattle.qo_commands.specs.Commands.{altered, empty, guest_reply, made};
ghost use Rattle.qo_commands.specs.Touched.{Touches};
ghost use Rattle.qo_commands.specs.declared.touched.Touched.TheVariants.{Nothing};
ghost use Rattle.qo_commands.specs.Views.{done_of};
ghost use Rattle.qo_commands.specs.Hearing.{outcome_of};
ghost use Rattle.qo_commands.specs.Interrupts.{HasLines};
ghost use Rattle.qo_commands.specs.KeptViews.{HasView, is_guest_line};
ghost use Rattle.qo_realize.specs.Representation.{Stands};

use crate::commands::{Done, ReplyBody, done_by, having_touched, outcome_of, refused};
use crate::hearing::{Heard, hear};
use crate::rings::{add_ring, read_ring, remove_ring, write_ring};
use crate::touched::Touched;
use qo_guest::GuestAnswer;
use qo_heap::Steps;
use qo_layout::{KeptView, Lines};
use qo_plug::{AddRefusal, DeviceOptions};
use qo_realize::Board;
use qo_replies::Event;
use qo_requests::{Addition, Alteration, Change};
use qo_values::{Code, PropList, ResetKind, Text, Val};
use std::alloc::{AllocError, Global};
use std::sync::ledger::Ledger;

/// Writes the property of a name of the object at a path.
fn set<L: Ledger>(
    alloc: Global,
    board: &mut Board,
    path: &str,
    name: &str,
    val: &Val,
    steps: &mut Steps<L>,
) -> Result<Done, AllocError>
    ensures came { (b : Tree) → Stands b board.old → Alters b (altered b (alteration.QomSet path.now name.now val.now)) result board.new }
    ensures touched { (b : Tree) → Stands b board.old → IfOk result (λ d. Touches d.touched b (altered b (alteration.QomSet path.now name.now val.now)).board) }
{
    let answer = board.qom_set(path, name, val, alloc, steps);
    outcome_of(answer, Touched::Registers)
}

/// Removes the object of an id.
fn remove<L: Ledger>(board: &mut Board, id: &str, steps: &mut Steps<L>) -> Done
    ensures came { (b : Tree) → Stands b board.old → Came (altered b (alteration.ObjectDel id.now)) result board.new }
    ensures touched { (b : Tree) → Stands b board.old → Touches result.touched b (altered b (alteration.ObjectDel id.now)).board }
{
    done_by(board.object_del(id, steps), Touched::Registers)
}

/// Adds an object of a type's name under an id, with properties.
fn add<L: Ledger>(
    alloc: Global,
    board: &mut Board,
    driver: &str,
    id: &str,
    props: &PropList,
    steps: &mut Steps<L>,
) -> Result<Done, AllocError>
    ensures came { (b : Tree) → Stands b board.old → Changes b (change.Add (addition.ObjectAdd driver.now id.now props.now)) result board.new }
    ensures touched { (b : Tree) → Stands b board.old → IfOk result (λ d. Touches d.touched b (made b (change.Add (addition.ObjectAdd driver.now id.now props.now))).board) }
{
    let answer = board.object_add(driver, id, props, alloc, steps);
    outcome_of(answer, Touched::Registers)
}

/// Cuts the strong links of the detached object of a birth.
fn sever<L: Ledger>(board: &mut Board, birth: u64, steps: &mut Steps<L>) -> Done
    ensures came { (b : Tree) → Stands b board.old → Came (altered b (alteration.XSever birth)) result board.new }
    ensures touched { (b : Tree) → Stands b board.old → Touches result.touched b (altered b (alteration.XSever birth)).board }
{
    done_by(board.sever(birth, steps), Touched::Registers)
}

/// The words of a text, if there is one.
fn words_of(text: Option<&Text>) -> Option<&str>
    ensures { option_map (λ t. t.now) result ≡ option_map (λ t. t.now) text.entry }
{
    match text {
        Some(text) => Some(text.as_str()),
        None => None,
    }
}

/// Adds a device of a type's name, under an id if one is given, on a bus if one is given, with
/// properties.
fn plug<L: Ledger>(
    alloc: Global,
    board: &mut Board,
    driver: &str,
    id: Option<&Text>,
    bus: Option<&Text>,
    props: &PropList,
    steps: &mut Steps<L>,
) -> Result<Done, AllocError>
    ensures came { (b : Tree) → Stands b board.old → Changes b (change.Add (addition.DeviceAdd driver.now (option_map (λ t. t.now) id.entry) (option_map (λ t. t.now) bus.entry) props.now)) result board.new }
    ensures touched { (b : Tree) → Stands b board.old → IfOk result (λ d. Touches d.touched b (made b (change.Add (addition.DeviceAdd driver.now (option_map (λ t. t.now) id.entry) (option_map (λ t. t.now) bus.entry) props.now))).board) }
{
    let options = DeviceOptions {
        driver,
        id: words_of(id),
        bus: words_of(bus),
        props,
    };
    match board.add(&options, alloc, steps) {
        Ok(_) => Ok(having_touched(Touched::Devices, ReplyBody::Empty)),
        Err(AddRefusal::Refused { code, .. }) => Ok(refused(code)),
        Err(AddRefusal::Memory) => Err(AllocError),
    }
}

/// Asks for the removal of the device that a text is of.
fn unplug<L: Ledger>(board: &mut Board, id: &str, steps: &mut Steps<L>) -> Done
    ensures came { (b : Tree) → Stands b board.old → Came (altered b (alteration.DeviceDel id.now)) result board.new }
    ensures touched { (b : Tree) → Stands b board.old → Touches result.touched b (altered b (alteration.DeviceDel id.now)).board }
{
    done_by(board.ask_removal(id, steps), Touched::Nothing)
}

/// What a line of the guest comes to as a command: one that is none is refused.
fn guest_reply(heard: Heard) -> Done
    ensures done { (b : Tree) → done_of b result ≡ guest_reply (outcome_of b heard) }
    ensures touched { result.touched ≡ heard.touched }
{
    let result = match heard.answer {
        GuestAnswer::NoLine => Err(Code::E54),
        answer => Ok(ReplyBody::Answer(answer)),
    };
    Done {
        result,
        event: heard.event,
        ends: heard.ends,
        touched: heard.touched,
    }
}

/// Does what a line of the guest does.
fn guest<L: Ledger>(
    alloc: Global,
    board: &mut Board,
    lines: &Lines,
    view: &mut KeptView,
    line: &str,
    steps: &mut Steps<L>,
) -> Result<Done, AllocError>
    requires lines { HasLines board.old lines.now }
    requires view { HasView board.old view.old }
    ensures came { (b : Tree) → Stands b board.old → Alters b (altered b (alteration.XGuest line.now)) result board.new }
    ensures touched { (b : Tree) → Stands b board.old → IfOk result (λ d. Touches d.touched b (altered b (alteration.XGuest line.now)).board) }
    ensures view { HasView board.new view.new }
{
    let heard = hear(board, lines, view, line.as_bytes(), alloc, steps)?;
    Ok(guest_reply(heard))
}

/// The machine runs, or stands still: it is told of where that is a change.
fn switched(changes: bool, event: Event) -> Done
    ensures done { (b : Tree) → done_of b result ≡ record { result = Ok empty; board = b; events = if changes then event ∷ [] else []; ends = false } }
    ensures touched { result.touched ≡ Nothing }
{
    Done {
        result: Ok(ReplyBody::Empty),
        event: if changes { Some(event) } else { None },
        ends: false,
        touched: Touched::Nothing,
    }
}

/// The machine stops.
fn stop(board: &mut Board) -> Done
    ensures came { (b : Tree) → Stands b board.old → Came (altered b alteration.Stop) result board.new }
    ensures touched { (b : Tree) → Stands b board.old → Touches result.touched b (altered b alteration.Stop).board }
{
    switched(board.set_running(false), Event::Stop)
}

/// The machine runs again.
fn cont(board: &mut Board) -> Done
    ensures came { (b : Tree) → Stands b board.old → Came (altered b alteration.Cont) result board.new }
    ensures touched { (b : Tree) → Stands b board.old → Touches result.touched b (altered b alteration.Cont).board }
{
    switched(board.set_running(true), Event::Resume)
}

/// The virtual time goes on by so many ns, where the machine runs.
fn step(board: &mut Board, ns: u64) -> Done
    ensures came { (b : Tree) → Stands b board.old → Came (altered b (alteration.XStep ns)) result board.new }
    ensures touched { (b : Tree) → Stands b board.old → Touches result.touched b (altered b (alteration.XStep ns)).board }
{
    match board.advance(ns) {
        Ok(now) => having_touched(Touched::Registers, ReplyBody::Time(now)),
        Err(code) => refused(code),
    }
}

/// The whole board is reset, and sessions are told so.
fn reset<L: Ledger>(board: &mut Board, steps: &mut Steps<L>) -> Done
    ensures came { (b : Tree) → Stands b board.old → Came (altered b alteration.SystemReset) result board.new }
    ensures touched { (b : Tree) → Stands b board.old → Touches result.touched b (altered b alteration.SystemReset).board }
{
    board.system_reset(steps);
    Done {
        result: Ok(ReplyBody::Empty),
        event: Some(Event::Reset { guest: false }),
        ends: false,
        touched: Touched::Devices,
    }
}

/// Holds the object at a path in a reset of a type, or in a cold one where none is named.
fn hold<L: Ledger>(
    board: &mut Board,
    path: &str,
    kind: Option<ResetKind>,
    steps: &mut Steps<L>,
) -> Result<Done, AllocError>
    ensures came { (b : Tree) → Stands b board.old → Alters b (altered b (alteration.XResetHold path.now kind)) result board.new }
    ensures touched { (b : Tree) → Stands b board.old → IfOk result (λ d. Touches d.touched b (altered b (alteration.XResetHold path.now kind)).board) }
{
    let kind = kind.unwrap_or(ResetKind::Cold);
    outcome_of(board.hold(path, kind, steps), Touched::Registers)
}

/// Releases a hold on the object at a path.
fn release<L: Ledger>(board: &mut Board, path: &str, steps: &mut Steps<L>) -> Done
    ensures came { (b : Tree) → Stands b board.old → Came (altered b (alteration.XResetRelease path.now)) result board.new }
    ensures touched { (b : Tree) → Stands b board.old → Touches result.touched b (altered b (alteration.XResetRelease path.now)).board }
{
    done_by(board.release(path, steps), Touched::Registers)
}

/// The machine wakes up.
fn wake<L: Ledger>(board: &mut Board, steps: &mut Steps<L>) -> Done
    ensures came { (b : Tree) → Stands b board.old → Came (altered b alteration.XWakeup) result board.new }
    ensures touched { (b : Tree) → Stands b board.old → Touches result.touched b (altered b alteration.XWakeup).board }
{
    board.wakeup(steps);
    done_by(Ok(()), Touched::Registers)
}

/// A command that makes objects. Where it is refused the board is as it was, but for an attempt that
/// was given up. The error is want of memory; the board is then as it was, or after an attempt that
/// was cut.
fn extend<L: Ledger>(
    alloc: Global,
    board: &mut Board,
    addition: &Addition,
    steps: &mut Steps<L>,
) -> Result<Done, AllocError>
    ensures came { (b : Tree) → Stands b board.old → Changes b (change.Add addition.now) result board.new }
    ensures touched { (b : Tree) → Stands b board.old → IfOk result (λ d. Touches d.touched b (made b (change.Add addition.now)).board) }
{
    match addition {
        Addition::ObjectAdd { driver, id, props } => {
            add(alloc, board, driver.as_str(), id.as_str(), props, steps)
        }
        Addition::DeviceAdd {
            driver,
            id,
            bus,
            props,
        } => plug(
            alloc,
            board,
            driver.as_str(),
            id.as_ref(),
            bus.as_ref(),
            props,
            steps,
        ),
    }
}

/// Whether a command is a line of the guest, which itself keeps what it can of the view.
fn is_guest_line(alteration: &Alteration) -> bool
    ensures { result ≡ is_guest_line alteration.now }
{
    matches!(alteration, Alteration::XGuest { .. })
}

/// A command that changes the board and makes no object. Where it is refused the board is as it was.
/// The error is want of memory; the board is then as it was too.
#[tactic(auto, using(crate::proofs::KeptViewLemmas::view_none))]
fn alter<L: Ledger>(
    alloc: Global,
    board: &mut Board,
    lines: &Lines,
    view: &mut KeptView,
    alteration: &Alteration,
    steps: &mut Steps<L>,
) -> Result<Done, AllocError>
    requires lines { HasLines board.old lines.now }
    requires view { HasView board.old view.old }
    ensures came { (b : Tree) → Stands b board.old → Alters b (altered b alteration.now) result board.new }
    ensures touched { (b : Tree) → Stands b board.old → IfOk result (λ d. Touches d.touched b (altered b alteration.now).board) }
    ensures view { HasView board.new view.new }
{
    view.keep_if(is_guest_line(alteration));
    match alteration {
        Alteration::QomSet {
            path,
            property,
            value,
        } => set(alloc, board, path.as_str(), property.as_str(), value, steps),
        Alteration::ObjectDel { id } => Ok(remove(board, id.as_str(), steps)),
        Alteration::XSever { birth } => Ok(sever(board, *birth, steps)),
        Alteration::DeviceDel { id } => Ok(unplug(board, id.as_str(), steps)),
        Alteration::ChardevAdd { id, kind, size } => {
            add_ring(alloc, board, id.as_str(), kind.as_str(), *size)
        }
        Alteration::ChardevRemove { id } => Ok(remove_ring(board, id.as_str())),
        Alteration::RingbufRead {
            device,
            size,
            format,
        } => read_ring(board, device.as_str(), *size, *format),
        Alteration::RingbufWrite {
            device,
            payload,
            format,
        } => Ok(write_ring(board, device.as_str(), payload.as_str(), *format)),
        Alteration::XGuest { line } => guest(alloc, board, lines, view, line.as_str(), steps),
        Alteration::Stop => Ok(stop(board)),
        Alteration::Cont => Ok(cont(board)),
        Alteration::XStep { ns } => Ok(step(board, *ns)),
        Alteration::SystemReset => Ok(reset(board, steps)),
        Alteration::XResetHold { path, kind } => hold(board, path.as_str(), *kind, steps),
        Alteration::XResetRelease { path } => Ok(release(board, path.as_str(), steps)),
        Alteration::XWakeup => Ok(wake(board, steps)),
    }
}

/// A command that changes the board, or is refused. Events on devices wait on the board after it.
/// Where it is refused the board is as it was, but for an attempt of one that makes objects, which was
/// given up. `lines` are the interrupt lines of the board, and `view` is what is kept of its view, also after the
/// command. The error is want of memory; the board is then as it was, or after an attempt that was cut.
#[tactic(auto, using(crate::proofs::KeptViewLemmas::view_none))]
pub fn change<L: Ledger>(
    alloc: Global,
    board: &mut Board,
    lines: &Lines,
    view: &mut KeptView,
    change: &Change,
    steps: &mut Steps<L>,
) -> Result<Done, AllocError>
    requires lines { HasLines board.old lines.now }
    requires view { HasView board.old view.old }
    ensures came { (b : Tree) → Stands b board.old → Changes b change.now result board.new }
    ensures touched { (b : Tree) → Stands b board.old → IfOk result (λ d. Touches d.touched b (made b change.now).board) }
    ensures view { HasView board.new view.new }
{
    match change {
        Change::Add(addition) => {
            view.forget();
            extend(alloc, board, addition, steps)
        }
        Change::Alter(alteration) => alter(alloc, board, lines, view, alteration, steps),
    }
}
