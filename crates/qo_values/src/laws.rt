//! Laws over the limits. Each is a function with no effect, whose contract is the law.

ghost use Rattle.qo_values.specs.Limits.{LimitsAre};

/// The named limits are the numbers of the profile.
pub fn law_limits()
    ensures { LimitsAre }
{}
