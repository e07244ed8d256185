//! Laws of a host that has more to give, and of groups that may have more.
ghost use Rattle.bw_questions.specs.changes.Host.{CapacityTakesNothing, RaisedLimitsServeNoLess};

/// Law: a host with a greater capacity gives no group less.
pub fn capacity_takes_nothing()
    ensures { CapacityTakesNothing }
{}

/// Law: with greater limits, greater demands or a greater capacity, the plan serves no less.
pub fn raised_limits_serve_no_less()
    ensures { RaisedLimitsServeNoLess }
{}
