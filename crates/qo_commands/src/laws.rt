//! What holds of the commands and of the lines of a guest. Each is a function with no effect, whose
//! contract is the law.

ghost use Rattle.qo_commands.specs.LineRefusals.{RefusedLinesLaw};
ghost use Rattle.qo_commands.specs.Lines.{LinesCutAnywhere};
ghost use Rattle.qo_commands.specs.Refusals.{RefusedCommandsLaw};

/// A command that is refused leaves the board as it was: its tree, and all that stands beside it. It has
/// no event of its own, and the run goes on. Only births and notes may be left, of an attempt that
/// `object-add` or `device_add` made; any other command leaves nothing at all. So it is where an attempt was
/// cut for want of memory.
#[tactic(auto, using(crate::proofs::RefusedCommandLemmas::refused_commands_lem))]
pub fn law_refused_commands()
    ensures { RefusedCommandsLaw }
{}

/// The bytes of a guest may be cut anywhere: the lines are the same, and the front that is kept.
pub fn law_lines_cut()
    ensures { LinesCutAnywhere }
{}

/// A line that is refused changes nothing: it has its answer, the board is as it was, no event comes of it,
/// and the run goes on.
#[tactic(auto, using(crate::proofs::RefusedLineLemmas::refused_lines_lem))]
pub fn law_refused_lines()
    ensures { RefusedLinesLaw }
{}
