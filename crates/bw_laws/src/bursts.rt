//! Law that joins the lines of a script and the calls of a hierarchy.
ghost use Rattle.bw_laws.specs.Bursts.{ScriptsKeepBurstsWithin};

/// Law: after the lines of any script, a group's burst is at most its quota, in microseconds.
///
/// A quota `max` bounds no burst.
pub fn scripts_keep_bursts_within()
    ensures { ScriptsKeepBurstsWithin }
{}
