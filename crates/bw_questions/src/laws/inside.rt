//! Law of isolation.
ghost use Rattle.bw_questions.specs.changes.Inside.{InsideStaysInside};

/// Law: a change below a group that leaves the most that the group can be given changes no amount
/// of that group, and none outside it.
pub fn inside_stays_inside()
    ensures { InsideStaysInside }
{}
