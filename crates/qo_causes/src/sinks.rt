//! Where bytes go.
ghost use Rattle.std.specs.Prelude.{ℕ, List, Option, ◌≡◌, ◌≤◌, length, IfOk, OnOk};
ghost use Rattle.qo_causes.specs.Bytes.{Puts, PutsAll};
ghost use Rattle.qo_causes.specs.Cause.{HasCause, PutQuiet, StuckRose};

use crate::faults::Failed;

/// Where bytes go, a piece at a time.
pub trait Sink {
    // The bytes that the sink holds, where it tells them.
    ghost held: { Self → Option (List ℕ) };

    // How many faults there were. A count at its last value, 2^64 - 1, is taken as risen.
    ghost faults: { Self → ℕ };

    /// Appends a front of the piece, and answers how many bytes it has. It answers `Failed`, and 0 for a
    /// piece that is not empty, only where the count of faults rose; what is held is then as before. The
    /// count does not rise where it took something, or where the piece is empty.
    fn put(&mut self, piece: &[u8]) -> Result<usize, Failed>
        ensures bound { IfOk result (λ n. n ≤ length piece.now) }
        ensures bytes { Puts (held self.old) (held self.new) result piece.now }
        ensures cause { HasCause (faults self.old) (faults self.new) result }
        ensures stuck { StuckRose (faults self.old) (faults self.new) piece.now result }
        ensures quiet { PutQuiet (faults self.old) (faults self.new) piece.now result };
}

/// Puts all the bytes, piece by piece. After `Failed` the sink has a front of them, and its count of faults
/// rose: a put failed, or took nothing of a piece that is not empty. After Ok no put did: the count is as
/// before. It takes no memory.
pub fn put_all<K: Sink>(sink: &mut K, bytes: &[u8]) -> Result<(), Failed>
    ensures bytes { PutsAll (K.held sink.old) (K.held sink.new) result bytes.now }
    ensures cause { HasCause (K.faults sink.old) (K.faults sink.new) result }
    ensures quiet { OnOk result (K.faults sink.new ≡ K.faults sink.old) }
{
    let mut at = 0;
    while at < bytes.len() {
        let count = sink.put(&bytes[at..])?;
        if count == 0 {
            return Err(Failed);
        }
        at += count;
    }
    Ok(())
}
