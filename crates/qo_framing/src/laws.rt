//! What holds of the cut, whatever the code does.

ghost use Rattle.qo_framing.specs.Laws.{CutsAnywhere, CutsByParts, EndsAreFirst};

/// Two stretches of a stream are cut as one: the items of the first, and then those of the second
/// from where the first ended.
pub fn law_cut()
    ensures { CutsAnywhere }
{}

/// The cut is that of the first part and then of the rest, however many parts there are.
pub fn law_parts()
    ensures { CutsByParts }
{}

/// An object ends with the fewest bytes with which one can end.
pub fn law_ends()
    ensures { EndsAreFirst }
{}
