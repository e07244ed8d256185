//! The law of the greatest limits.
ghost use Rattle.bw_questions.specs.OtherLimits.{LimitsAreOne};

/// Law: an instance, its goals, the rows that may change and the lowest limits have one answer of
/// greatest limits.
pub fn limits_are_one()
    ensures { LimitsAreOne }
{}
