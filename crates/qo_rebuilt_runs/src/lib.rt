//! Which boards of a run can be rebuilt of their descriptions. A function without effect, whose contract
//! says so. The definitions stand in `specs/`.
#![tactic(auto)]

ghost use Rattle.qo_rebuilt_runs.specs.DescribedRuns.{DescribedInRuns};

/// Over every run from the opening the board is in order, and sound in all that a description is of, and each
/// object tells the name of its type. So where it has a description, that is rebuilt without refusal, to a board
/// that is like it and has the same description. So is the text of the description, where the plain values of the
/// board are told as they are: each text of it is in UTF-8.
#[tactic(auto, using(crate::proofs::DescribedRunLemmas::described_in_runs))]
pub fn law_described()
    ensures { DescribedInRuns }
{}
