//! A source that is read to its end.

ghost use Rattle.std.specs.Prelude.{◌≡◌, ◌≢◌, ◌<◌, ◌≤◌, ℕ, List, [], ◌++◌, length, None, Some, IfSome};
ghost use Rattle.std.specs.Io.KnownBytes.{prepend_known};
ghost use Rattle.qo_causes.specs.Cause.{Rose};
ghost use Rattle.compose.specs.declared.whole_sources.Stop.TheVariants as stop;
ghost use Rattle.compose.specs.declared.whole_sources.TheConstants.{DESCRIPTION_MAX};

use qo_causes::Source;
use std::alloc::AllocError;

/// How the reading of a source ended.
#[derive(Clone, Copy, Debug)]
pub(crate) enum Stop {
    /// At its end.
    End,
    /// It gave more bytes than `DESCRIPTION_MAX`.
    Limit,
    /// It failed.
    Fault,
    /// Memory ran out.
    Memory,
}

/// Bytes of the longest text that is rebuilt; of a longer one the input limit is told.
pub const DESCRIPTION_MAX: usize = 16_777_216;

/// How many bytes are taken at once, at most.
const PIECE: usize = 4_096;

/// Takes bytes from a source, once, and adds them to a list; tells where the reading stops with that.
fn take_piece<S: Source>(source: &mut S, bytes: &mut Vec<u8>) -> Option<Stop>
    ensures took { (taken : List ℕ) × (S.left source.old ≡ prepend_known taken (S.left source.new)) × (result ≢ Some stop.Memory → bytes.new.items ≡ bytes.old.items ++ taken) }
    ensures more { result ≡ None → length bytes.old.items < length bytes.new.items }
    ensures same { result ≡ Some stop.End → bytes.new.items ≡ bytes.old.items }
    ensures ended { result ≡ Some stop.End → IfSome (S.left source.new) (λ left. left ≡ []) }
    ensures unlimited { result ≢ Some stop.Limit }
    ensures cause { result ≡ Some stop.Fault → Rose (S.faults source.old) (S.faults source.new) }
    ensures quiet { result ≢ Some stop.Fault → S.faults source.new ≡ S.faults source.old }
{
    let mut buffer = [0u8; PIECE];
    let Ok(count) = source.take(&mut buffer) else {
        return Some(Stop::Fault);
    };
    if count == 0 {
        return Some(Stop::End);
    }
    match bytes.extend_from_slice(&buffer[..count]) {
        Ok(()) => None,
        Err(AllocError) => Some(Stop::Memory),
    }
}

/// Reads a source to its end, and adds its bytes to a list; no further than a piece after
/// `DESCRIPTION_MAX` bytes.
pub(crate) fn read_all<S: Source>(source: &mut S, bytes: &mut Vec<u8>) -> Stop
    requires { length bytes.old.items ≡ 0 }
    ensures took { (taken : List ℕ) × (S.left source.old ≡ prepend_known taken (S.left source.new)) × (result ≢ stop.Memory → taken ≡ bytes.new.items) }
    ensures few { result ≡ stop.End → length bytes.new.items ≤ DESCRIPTION_MAX }
    ensures ended { result ≡ stop.End → IfSome (S.left source.new) (λ left. left ≡ []) }
    ensures many { result ≡ stop.Limit → DESCRIPTION_MAX < length bytes.new.items }
    ensures cause { result ≡ stop.Fault → Rose (S.faults source.old) (S.faults source.new) }
    ensures quiet { result ≢ stop.Fault → S.faults source.new ≡ S.faults source.old }
{
    while bytes.len() <= DESCRIPTION_MAX {
        if let Some(stop) = take_piece(source, bytes) {
            return stop;
        }
    }
    Stop::Limit
}
