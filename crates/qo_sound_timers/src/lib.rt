//! What timers count over whole runs. Functions without effect, whose contracts say so. The
//! definitions stand in `specs/`.
#![tactic(auto)]

ghost use Rattle.qo_sound_timers.specs.TimerRuns.{TimersInRuns};

/// Over every run from the opening each timer that is there is as a list of its calls leaves a new one.
/// Their moments rise, and each Update follows a Pre. So the ticks that it has counted are the sum over
/// the segments that these calls mark out: the spans in which it was enabled under one period.
#[tactic(auto, using(crate::proofs::TimerLemmas::timers_in_runs))]
pub fn law_timers()
    ensures { TimersInRuns }
{}
