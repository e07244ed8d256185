//! Laws about the files and the calls: contracts of functions with an empty body.
ghost use Rattle.bw_hierarchy.specs.Bursts.{CallsKeepBurstsWithin};
ghost use Rattle.bw_hierarchy.specs.Written.{IsWeightRead, IsMaxRead, IsBurstRead, KeepsOtherFiles};
ghost use Rattle.bw_hierarchy.specs.Written.{KeepsOtherGroups, KeepsCounters, KeepsRest};

/// Law: a write changes only the value that its file names.
///
/// The file then has that value's text. Every other file, of this group and of all others, keeps
/// its text, and each group its counters. No group moves. Each keeps its name, demand and carry.
pub fn write_changes_one_value()
    ensures weight { IsWeightRead }
    ensures max { IsMaxRead }
    ensures burst { IsBurstRead }
    ensures other_files { KeepsOtherFiles }
    ensures other_groups { KeepsOtherGroups }
    ensures counters { KeepsCounters }
    ensures rest { KeepsRest }
{}

/// Law: after any calls on a new hierarchy, a group's burst is at most its quota, in microseconds.
///
/// The calls are those of the hierarchy, its handles and its builder. A quota `max` bounds no
/// burst.
pub fn bursts_are_within_quotas()
    ensures { CallsKeepBurstsWithin }
{}
