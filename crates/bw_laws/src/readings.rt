//! Laws of readings, in an owner's words: which groups are hungry, and what they ask for.
ghost use Rattle.bw_laws.specs.Readings.{AskedCoversUse, EverythingHasAReason, HungerIsLack};
ghost use Rattle.bw_laws.specs.Readings.{LeafAsksForItsWaiting, SlicesCoverTime, TasksBoundUse};

/// Law: slices of a reading cover the time that they stand for, and one less would not.
///
/// Whole processors for the whole round are exactly their slices. More time is no fewer slices.
pub fn slices_cover_time()
    ensures { SlicesCoverTime }
{}

/// Law: a group that used all that its limit allows is hungry, and so is one that was throttled.
///
/// Let no limit stop a group whose tasks ran for half of what it used. It is hungry where a task
/// never slept and waited for a hundredth of the round. It is not where each task waited for less,
/// or slept for longer than it waited or for more than a twentieth of the round. A group whose
/// tasks ran for less is hungry if and only if tasks waited for half of the round.
pub fn hunger_is_lack()
    ensures { HungerIsLack }
{}

/// Law: a group could have used no less than it used, and no more than the round for each task.
///
/// The round counts for each task of a group that a limit stopped, for each that came, and for one
/// that lacked processors. It could have used what it used where no limit stopped it, no task came
/// and all were rested.
pub fn tasks_bound_use()
    ensures { TasksBoundUse }
{}

/// Law: a group asks for no less than it used, and for just that where it is not hungry.
///
/// Unless for everything, it asks for no more than a processor for each task, or what it used.
pub fn asked_covers_use()
    ensures { AskedCoversUse }
{}

/// Law: a group asks for everything if and only if it is hungry, and one of three things is so.
///
/// It used nothing. Or its tasks that were there at both readings ran for less than 19 twentieths
/// of what it used. Or it could have used the whole host. Premise: it used no more than the host
/// has.
pub fn everything_has_a_reason()
    ensures { EverythingHasAReason }
{}

/// Law: a leaf of a scheduler is hungry if and only if it asks for more than it used.
///
/// It is not hungry where no task waited, or where it was idle for more than a twentieth of the
/// round. Else it is where its tasks waited for a slice of each period.
pub fn leaf_asks_for_its_waiting()
    ensures { LeafAsksForItsWaiting }
{}
