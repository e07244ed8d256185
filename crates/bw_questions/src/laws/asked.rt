//! Laws of leaves that ask for more.
ghost use Rattle.bw_questions.specs.changes.Asked.{DemandOnlyCuts, GreaterDemandsServeNoMore};
ghost use Rattle.bw_questions.specs.changes.Asked.{UnmetDemandChangesNothing};
ghost use Rattle.bw_questions.specs.changes.Asked.{UnusedDemandChangesNothing};
ghost use Rattle.bw_questions.specs.changes.Asked.{DemandsInsideOnlyCut};

/// Law: a leaf gets what it gets with any greater demand, or its demand if that is less.
pub fn demand_only_cuts()
    ensures { DemandOnlyCuts }
{}

/// Law: where any leaves ask for more, no leaf gets more of what it asked for before.
pub fn greater_demands_serve_no_more()
    ensures { GreaterDemandsServeNoMore }
{}

/// Law: where a leaf that gets less than it asks for asks for more, no amount changes.
pub fn unmet_demand_changes_nothing()
    ensures { UnmetDemandChangesNothing }
{}

/// Law: a plan that gives no leaf more than a smaller demand is the plan of the smaller demands.
pub fn unused_demand_changes_nothing()
    ensures { UnusedDemandChangesNothing }
{}

/// Law: a group has what it has where leaves of it ask for more, or the most that it can be given
/// if that is less. So the plan in which each leaf asks for the most tells all guarantees.
pub fn demands_inside_only_cut()
    ensures { DemandsInsideOnlyCut }
{}
