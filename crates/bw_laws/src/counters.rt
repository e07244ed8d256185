//! Law that joins the ids of a tree and the counters.
ghost use Rattle.bw_laws.specs.Counters.{NewGroupsCountNothing};

/// Law: after any calls on a new hierarchy, a group that one more call makes has no counters,
/// whatever group had its name before.
///
/// The calls are those of the hierarchy, its handles and its builder.
pub fn new_groups_count_nothing()
    ensures { NewGroupsCountNothing }
{}
