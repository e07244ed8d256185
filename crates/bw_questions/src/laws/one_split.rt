//! Laws of a split that changes: its amount, a child's weight or maximum, or its children.
//!
//! They hold of any amount, any weights above 0 and any maxima.
ghost use Rattle.bw_questions.specs.changes.OneSplit.{MoreTakesFromNobody, RaisedChildAloneGains};
ghost use Rattle.bw_questions.specs.changes.OneSplit.{RestStaysSplit, LighterHasNoMore};

/// Law: with one slice more to split, exactly one child gets one slice more, and no other child's
/// part changes.
pub fn more_takes_from_nobody()
    ensures { MoreTakesFromNobody }
{}

/// Law: a raised weight or a raised maximum of a child, or both, takes nothing from that child and
/// gives nothing to another.
pub fn raised_child_alone_gains()
    ensures { RaisedChildAloneGains }
{}

/// Law: without one child and its part, the other children's parts are the best split of the rest.
pub fn rest_stays_split()
    ensures { RestStaysSplit }
{}

/// Law: a child of no greater weight that could take more has no more where no sibling is lighter
/// and there is no more to split.
pub fn lighter_has_no_more()
    ensures { LighterHasNoMore }
{}
