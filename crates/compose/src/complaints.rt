//! The lines that tell how a call ended.

ghost use Rattle.std.specs.Prelude.{◌≡◌, ◌∷◌, [], ◌++◌, OnOk, Some, decimal};
ghost use Rattle.qo_causes.specs.Bytes.{PutsAll};
ghost use Rattle.qo_causes.specs.Cause.{HasCause};
ghost use Rattle.compose.specs.Rebuild.{board_line};
ghost use Rattle.compose.specs.Replay.{Complained, line_of};

use crate::statuses::Status;
use itoa::Buffer;
use qo_causes::{Failed, Sink, put_all};
use qo_values::Code;

/// Puts the line of a bad record.
fn put_place<K: Sink>(sink: &mut K, place: u64) -> Result<(), Failed>
    ensures bytes { PutsAll (K.held sink.old) (K.held sink.new) result (line_of Status.BadRecord place) }
    ensures cause { HasCause (K.faults sink.old) (K.faults sink.new) result }
    ensures quiet { OnOk result (K.faults sink.new ≡ K.faults sink.old) }
{
    if let Err(Failed) = put_all(sink, b"compose: bad record at byte ") {
        return Err(Failed);
    }
    put_number(sink, place)
}

/// Puts a number and the end of the line.
fn put_number<K: Sink>(sink: &mut K, number: u64) -> Result<(), Failed>
    ensures bytes { PutsAll (K.held sink.old) (K.held sink.new) result (decimal number ++ 10 ∷ []) }
    ensures cause { HasCause (K.faults sink.old) (K.faults sink.new) result }
    ensures quiet { OnOk result (K.faults sink.new ≡ K.faults sink.old) }
{
    let mut buffer = Buffer::new();
    if let Err(Failed) = put_all(sink, buffer.format(number).as_bytes()) {
        return Err(Failed);
    }
    match put_all(sink, b"\n") {
        Ok(()) => Ok(()),
        Err(Failed) => Err(Failed),
    }
}

/// Puts the line of a status; of a bad record with its place.
fn put_line<K: Sink>(sink: &mut K, status: Status, place: u64) -> Result<(), Failed>
    ensures bytes { PutsAll (K.held sink.old) (K.held sink.new) result (line_of status place) }
    ensures cause { HasCause (K.faults sink.old) (K.faults sink.new) result }
    ensures quiet { OnOk result (K.faults sink.new ≡ K.faults sink.old) }
{
    match status {
        Status::Done => put_all(sink, b""),
        Status::Usage => put_all(
            sink,
            b"usage: compose replay | serve --socket PATH --connections N | demo --seed N --steps K | types | rebuild | watch\n",
        ),
        Status::BadRecord => put_place(sink, place),
        Status::Memory => put_all(sink, b"compose: out of memory\n"),
        Status::ReadFault => put_all(sink, b"compose: read fault\n"),
        Status::WriteFault => put_all(sink, b"compose: write fault\n"),
        Status::HubFault => put_all(sink, b"compose: hub fault\n"),
        Status::InputLimit => put_all(sink, b"compose: input limit\n"),
        Status::BadBoard => put_all(sink, b"compose: bad board: not a description\n"),
    }
}

/// Puts the line of a bad board that a code refuses.
fn put_code<K: Sink>(sink: &mut K, code: Code) -> Result<(), Failed>
    ensures bytes { PutsAll (K.held sink.old) (K.held sink.new) result (board_line Status.BadBoard (Some code)) }
    ensures cause { HasCause (K.faults sink.old) (K.faults sink.new) result }
    ensures quiet { OnOk result (K.faults sink.new ≡ K.faults sink.old) }
{
    if let Err(Failed) = put_all(sink, b"compose: bad board: ") {
        return Err(Failed);
    }
    put_text_line(sink, code.description())
}

/// Puts a text and the end of the line.
fn put_text_line<K: Sink>(sink: &mut K, text: &str) -> Result<(), Failed>
    ensures bytes { PutsAll (K.held sink.old) (K.held sink.new) result (text.now ++ 10 ∷ []) }
    ensures cause { HasCause (K.faults sink.old) (K.faults sink.new) result }
    ensures quiet { OnOk result (K.faults sink.new ≡ K.faults sink.old) }
{
    if let Err(Failed) = put_all(sink, text.as_bytes()) {
        return Err(Failed);
    }
    match put_all(sink, b"\n") {
        Ok(()) => Ok(()),
        Err(Failed) => Err(Failed),
    }
}

/// Puts the line of a status of `rebuild`; of a bad board with the code that refuses it, if one does.
fn put_board_line<K: Sink>(sink: &mut K, status: Status, code: Option<Code>) -> Result<(), Failed>
    ensures bytes { PutsAll (K.held sink.old) (K.held sink.new) result (board_line status code) }
    ensures cause { HasCause (K.faults sink.old) (K.faults sink.new) result }
    ensures quiet { OnOk result (K.faults sink.new ≡ K.faults sink.old) }
{
    match status {
        Status::BadBoard => match code {
            Some(code) => put_code(sink, code),
            None => put_line(sink, status, 0),
        },
        _ => put_line(sink, status, 0),
    }
}

/// Tells a status of `rebuild`, as far as the sink takes the line.
pub(crate) fn complain_board<K: Sink>(sink: &mut K, status: Status, code: Option<Code>)
    ensures { Complained (K.held sink.old) (K.held sink.new) (K.faults sink.old) (K.faults sink.new) (board_line status code) }
{
    match put_board_line(sink, status, code) {
        Ok(()) => {}
        Err(Failed) => {}
    }
}

/// Tells that memory ran out before the call, as for its words, and gives the status of that.
pub fn out_of_memory<E: Sink>(complaints: &mut E) -> Status
    ensures status { result ≡ Status.Memory }
    ensures told { Complained (E.held complaints.old) (E.held complaints.new) (E.faults complaints.old) (E.faults complaints.new) (line_of Status.Memory 0) }
{
    complain(complaints, Status::Memory, 0);
    Status::Memory
}

/// Tells that the words are no order before the call, as where one of them is no text, and gives the status of that.
pub fn no_order<E: Sink>(complaints: &mut E) -> Status
    ensures status { result ≡ Status.Usage }
    ensures told { Complained (E.held complaints.old) (E.held complaints.new) (E.faults complaints.old) (E.faults complaints.new) (line_of Status.Usage 0) }
{
    complain(complaints, Status::Usage, 0);
    Status::Usage
}

/// Tells a status, as far as the sink takes the line.
pub(crate) fn complain<K: Sink>(sink: &mut K, status: Status, place: u64)
    ensures { Complained (K.held sink.old) (K.held sink.new) (K.faults sink.old) (K.faults sink.new) (line_of status place) }
{
    match put_line(sink, status, place) {
        Ok(()) => {}
        Err(Failed) => {}
    }
}
