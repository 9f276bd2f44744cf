//! Laws over the definitions of claims. Each is a function with no effect, whose contract is the law.

ghost use Rattle.qo_claims.specs.Laws.{LawGivenBack};

/// A claim on what was not held, taken and ended, leaves all that is held as it was.
pub fn law_given_back()
    ensures { LawGivenBack }
{}
