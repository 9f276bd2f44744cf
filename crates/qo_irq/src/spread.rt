//! A changed level, spread to the lines that depend on it.

ghost use Rattle.std.specs.Prelude.{◌≡◌, ℕ, ◌+◌, ◌<◌, ◌≤◌, false, length};
ghost use Rattle.qo_irq.specs.Kept.{AreWired, AreCalm, IsSettled, InputsStay, IsSpreading, depends, dependants_at};

use crate::dependants::Dependants;
use crate::gate::Gate;
use crate::net::MAX_LINES;

/// Settles a line, if it waits, and lets the lines wait that depend on it, if its level has changed.
/// Answers the highest line that waits, or `last`.
fn settle(
    gates: &[Gate],
    dependants: &[Dependants],
    levels: &mut [bool],
    pending: &mut [bool],
    line: usize,
    last: usize,
) -> usize
    requires wired { AreWired gates.now dependants.now }
    requires dependants_all { length dependants.now ≡ length gates.now }
    requires spreading { IsSpreading gates.now levels.old pending.old line last }
    requires within { line ≤ last }
    requires fits { length gates.now ≤ MAX_LINES }
    ensures spreading { IsSpreading gates.now levels.new pending.new (line + 1) result }
    ensures inputs { InputsStay gates.now levels.old levels.new }
{
    if !pending[line] {
        return last;
    }
    pending[line] = false;
    let level = gates[line].level(levels, line as u32);
    if level == levels[line] {
        return last;
    }
    levels[line] = level;
    dependants[line].mark(pending, last)
}

/// Settles the lines above one whose level has changed. It looks only at those whose level may have
/// to change, by rising numbers, so at each at most once.
pub(crate) fn spread(
    gates: &[Gate],
    dependants: &[Dependants],
    levels: &mut [bool],
    pending: &mut [bool],
    changed: usize,
)
    requires wired { AreWired gates.now dependants.now }
    requires dependants_all { length dependants.now ≡ length gates.now }
    requires levels_all { length levels.old ≡ length gates.now }
    requires pending_all { length pending.old ≡ length gates.now }
    requires within { changed < length gates.now }
    requires fits { length gates.now ≤ MAX_LINES }
    requires calm { AreCalm pending.old }
    requires settled { (line : ℕ) → line < length gates.now → depends line (dependants_at dependants.now changed) ≡ false → IsSettled gates.now levels.old line }
    ensures settled { (line : ℕ) → line < length gates.now → IsSettled gates.now levels.new line }
    ensures inputs { InputsStay gates.now levels.old levels.new }
    ensures calm { AreCalm pending.new }
{
    let mut last = dependants[changed].mark(pending, changed);
    let mut line = changed + 1;
    while line <= last {
        last = settle(gates, dependants, levels, pending, line, last);
        line += 1;
    }
}
