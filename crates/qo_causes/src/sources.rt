//! Where bytes come from.
ghost use Rattle.std.specs.Prelude.{ℕ, List, Option, ◌≡◌, ◌≤◌, length, IfOk, OnOk};
ghost use Rattle.qo_causes.specs.Bytes.{Takes};
ghost use Rattle.qo_causes.specs.Cause.{HasCause};

use crate::faults::Failed;

/// Where bytes come from, a piece at a time.
pub trait Source {
    // The bytes that are left, where the source tells them.
    ghost left: { Self → Option (List ℕ) };

    // How many faults there were. A count at its last value, 2^64 - 1, is taken as risen.
    ghost faults: { Self → ℕ };

    /// Puts bytes from the front of what is left into the front of `buf`, and answers how many. It answers
    /// 0 for a buffer that is not empty only at the end, and `Failed` only where the count of faults rose;
    /// what is left is then as before. The count does not rise where it answers how many.
    fn take(&mut self, buf: &mut [u8]) -> Result<usize, Failed>
        ensures bound { IfOk result (λ n. n ≤ length buf.new) }
        ensures bytes { Takes (left self.old) (left self.new) result buf.new }
        ensures cause { HasCause (faults self.old) (faults self.new) result }
        ensures quiet { OnOk result (faults self.new ≡ faults self.old) };
}
