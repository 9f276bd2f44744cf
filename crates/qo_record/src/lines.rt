//! The transcript's lines, put into a sink.

ghost use Rattle.std.specs.Prelude.{◌≡◌, [], ◌∷◌, ◌++◌, decimal, OnOk};
ghost use Rattle.qo_causes.specs.Bytes.{PutsAll};
ghost use Rattle.qo_causes.specs.Cause.{HasCause};
ghost use Rattle.qo_causes.specs.Hub.{lane_text, line};

use crate::names::{SessionNames, name_of};
use itoa::Buffer;
use qo_causes::{Failed, Lane, Sink, put_all};
use std::alloc::AllocError;

/// Puts a session's number and a space.
fn put_number<K: Sink>(sink: &mut K, number: u8) -> Result<(), Failed>
    ensures bytes { PutsAll (K.held sink.old) (K.held sink.new) result (decimal number ++ 32 ∷ []) }
    ensures cause { HasCause (K.faults sink.old) (K.faults sink.new) result }
    ensures quiet { OnOk result (K.faults sink.new ≡ K.faults sink.old) }
{
    let ones = b'0' + number % 10;
    if number < 10 {
        return put_all(sink, &[ones, b' ']);
    }
    let tens = b'0' + number / 10 % 10;
    if number < 100 {
        return put_all(sink, &[tens, ones, b' ']);
    }
    put_all(sink, &[b'0' + number / 100, tens, ones, b' '])
}

/// Puts some bytes and then others.
fn put_both<K: Sink>(sink: &mut K, first: &[u8], second: &[u8]) -> Result<(), Failed>
    ensures bytes { PutsAll (K.held sink.old) (K.held sink.new) result (first.now ++ second.now) }
    ensures cause { HasCause (K.faults sink.old) (K.faults sink.new) result }
    ensures quiet { OnOk result (K.faults sink.new ≡ K.faults sink.old) }
{
    if let Err(Failed) = put_all(sink, first) {
        return Err(Failed);
    }
    match put_all(sink, second) {
        Ok(()) => Ok(()),
        Err(Failed) => Err(Failed),
    }
}

/// Puts a lane's name and a space.
fn put_lane<K: Sink>(sink: &mut K, names: &SessionNames, lane: Lane) -> Result<(), Failed>
    ensures bytes { PutsAll (K.held sink.old) (K.held sink.new) result (lane_text names.now lane ++ 32 ∷ []) }
    ensures cause { HasCause (K.faults sink.old) (K.faults sink.new) result }
    ensures quiet { OnOk result (K.faults sink.new ≡ K.faults sink.old) }
{
    match lane {
        Lane::Session(number) => match name_of(names, number) {
            Some(name) => put_both(sink, name.as_slice(), b" "),
            None => put_number(sink, number),
        },
        Lane::Guest => put_all(sink, b"g "),
    }
}

/// Puts the transcript's line of one message. It takes no memory.
fn put_line<K: Sink>(
    sink: &mut K,
    names: &SessionNames,
    lane: Lane,
    bytes: &[u8],
) -> Result<(), Failed>
    ensures bytes { PutsAll (K.held sink.old) (K.held sink.new) result (line names.now lane bytes.now) }
    ensures cause { HasCause (K.faults sink.old) (K.faults sink.new) result }
    ensures quiet { OnOk result (K.faults sink.new ≡ K.faults sink.old) }
{
    if let Err(Failed) = put_lane(sink, names, lane) {
        return Err(Failed);
    }
    match put_all(sink, bytes) {
        Ok(()) => Ok(()),
        Err(Failed) => Err(Failed),
    }
}

/// Adds a lane's name to a buffer.
#[inline(always)]
fn add_lane(buffer: &mut Vec<u8>, names: &SessionNames, lane: Lane) -> Result<(), AllocError>
    ensures { OnOk result (buffer.new.items ≡ buffer.old.items ++ lane_text names.now lane) }
{
    match lane {
        Lane::Session(number) => match name_of(names, number) {
            Some(name) => buffer.extend_from_slice(name.as_slice())?,
            None => {
                let mut digits = Buffer::new();
                buffer.extend_from_slice(digits.format(number).as_bytes())?;
            }
        },
        Lane::Guest => buffer.extend_from_slice(b"g")?,
    }
    Ok(())
}

/// Makes a buffer the transcript's line of one message.
#[inline(always)]
fn spell_line(
    buffer: &mut Vec<u8>,
    names: &SessionNames,
    lane: Lane,
    bytes: &[u8],
) -> Result<(), AllocError>
    ensures { OnOk result (buffer.new.items ≡ line names.now lane bytes.now) }
{
    buffer.clear();
    add_lane(buffer, names, lane)?;
    buffer.push(b' ')?;
    buffer.extend_from_slice(bytes)?;
    Ok(())
}

/// Puts the transcript's line of one message, while sessions of these names are open: in one piece, which is made in the buffer, or where
/// memory runs out for that in two. It does not fail for want of memory.
pub(crate) fn put_message<K: Sink>(
    sink: &mut K,
    buffer: &mut Vec<u8>,
    names: &SessionNames,
    lane: Lane,
    bytes: &[u8],
) -> Result<(), Failed>
    ensures bytes { PutsAll (K.held sink.old) (K.held sink.new) result (line names.now lane bytes.now) }
    ensures cause { HasCause (K.faults sink.old) (K.faults sink.new) result }
    ensures quiet { OnOk result (K.faults sink.new ≡ K.faults sink.old) }
{
    match spell_line(buffer, names, lane, bytes) {
        Ok(()) => match put_all(sink, buffer.as_slice()) {
            Ok(()) => Ok(()),
            Err(Failed) => Err(Failed),
        },
        Err(AllocError) => match put_line(sink, names, lane, bytes) {
            Ok(()) => Ok(()),
            Err(Failed) => Err(Failed),
        },
    }
}
