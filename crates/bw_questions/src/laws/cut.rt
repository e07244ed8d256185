//! Laws of a limit, and of the groups that lack something below a group that gets no more.
ghost use Rattle.bw_questions.specs.changes.Cut.{LimitOnlyCuts, NoMoreBelow, LimitGivesOrLetsGo};

/// Law: with a limit a group gets what it gets without one, or the limit if that is less.
pub fn limit_only_cuts()
    ensures { LimitOnlyCuts }
{}

/// Law: below a group that gets no more, whatever other limits and demands are raised, a group that
/// lacks something gets no more, if each between the two lacks something too.
pub fn no_more_below()
    ensures { NoMoreBelow }
{}

/// Law: a group that gets its limit and wants more gets a slice more with a limit that is a slice
/// greater, or as much as before, and then less than it can be given.
pub fn limit_gives_or_lets_go()
    ensures { LimitGivesOrLetsGo }
{}
