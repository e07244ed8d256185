//! Law of a group that asks for nothing.
ghost use Rattle.bw_questions.specs.changes.Idle.{IdleGroupChangesNothing};

/// Law: a new group that asks for nothing gets nothing, and changes no other amount, wherever its
/// row is.
pub fn idle_group_changes_nothing()
    ensures { IdleGroupChangesNothing }
{}
