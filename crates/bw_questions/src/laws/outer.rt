//! Law of an outer group around a group, which is its one child.
ghost use Rattle.bw_questions.specs.changes.Outer.{OuterGroupChangesNothing};

/// Law: an outer group around a group has what the group has, and changes no other amount.
///
/// The outer group has the group's weight and place, and no limit. The group's weight inside it may
/// be any.
pub fn outer_group_changes_nothing()
    ensures { OuterGroupChangesNothing }
{}
