//! Laws over the definitions of a timer. Each is a function with no effect, whose contract is the law.

ghost use Rattle.qo_timer.specs.Sum.{LawSum};

/// After every list of a timer's calls in which each Update directly follows a Pre, the ticks that the
/// timer counts are the sum over the segments that the calls mark out, each rounded down.
pub fn law_sum()
    ensures { LawSum }
{}
