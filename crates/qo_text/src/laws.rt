//! What holds of the definitions alone.

ghost use Rattle.qo_text.specs.Spellings.{LinesAreSpelled, NumbersAreSpelled, PartsAreSpelled};
ghost use Rattle.qo_text.specs.TreeLaw.{TextsTellTrees};

/// Two boards whose children have names of one word, and whose texts are equal, have the same tree:
/// the same list of depths, names and types.
#[tactic(auto, using(crate::proofs::TreeLemmas::texts_tell_trees))]
pub fn law_tree()
    ensures { TextsTellTrees }
{}

/// Parts in which each comma stands twice, joined by commas, are the parts that are read of a line, where
/// no part behind a comma is empty or begins with one.
#[tactic(auto, using(crate::proofs::PartLemmas::parts_are_spelled))]
pub fn law_parts()
    ensures { PartsAreSpelled }
{}

/// A text is read as a number exactly where it is the number's decimal digits, and the number is below
/// 2^64.
pub fn law_numbers()
    ensures { NumbersAreSpelled }
{}

/// A line that spells `device_add` of a driver and options, or `device_del` of an id, is read as that; a line
/// with a key that comes twice as none.
#[tactic(auto, using(crate::proofs::SpelledLemmas::lines_are_spelled))]
pub fn law_lines()
    ensures { LinesAreSpelled }
{}
