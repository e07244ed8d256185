//! Laws of a group that may have more, and of a group beside which others ask for more.
ghost use Rattle.bw_questions.specs.changes.Room.{MoreRoomTakesNothing, OthersDemandsGiveNothing};
ghost use Rattle.bw_questions.specs.changes.Room.{OthersRoomGivesNothing};

/// Law: a group whose limit or demand is raised gets no less, and neither does a group above it. No
/// sibling gets more, unless their parent does.
pub fn more_room_takes_nothing()
    ensures { MoreRoomTakesNothing }
{}

/// Law: where groups that are not under it ask for more, a group gets no more.
pub fn others_demands_give_nothing()
    ensures { OthersDemandsGiveNothing }
{}

/// Law: a group gets no more where groups that are not under it ask for more, and groups neither
/// above nor below it have greater limits.
pub fn others_room_gives_nothing()
    ensures { OthersRoomGivesNothing }
{}
