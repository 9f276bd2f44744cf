//! What the log of some notes gives of them.

ghost use Rattle.qo_heap.specs.Laws.{LogLaw, GivenLaw};

/// The log without notes is that of no notes, and notes added make it the log of those before and
/// these, whether they are added at once or in parts.
#[tactic(auto, using(crate::proofs::Logs::log_lem))]
pub fn law_log()
    ensures { LogLaw }
{}

/// Of the log of some notes, fewer than 2^64 - 1, a reading gives the notes from its first number
/// on, at most `NOTES_PER_REPLY`.
#[tactic(auto, using(crate::proofs::Logs::given_lem))]
pub fn law_given()
    ensures { GivenLaw }
{}
