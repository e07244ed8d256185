//! Laws of the reasons, each the contract of a function that does nothing.
ghost use Rattle.bw_questions.specs.Laws.{BlamedHasItsLimit, ThereIsOneReason};
ghost use Rattle.bw_questions.specs.Laws.{OnlyTheBlamedLimitHelps, BlamedGainsOrIsClear};

use crate::laws::{limit_gives_or_lets_go, no_more_below};

/// Law: of the reasons, exactly one holds of a group.
pub fn there_is_one_reason()
    ensures { ThereIsOneReason }
{}

/// Law: a group that is to blame gets its limit, and wants more. Of the host the limit is its
/// capacity.
pub fn blamed_has_its_limit()
    ensures { BlamedHasItsLimit }
{}

/// Law: a group that gets less than it wants gets no more, whatever other limits and demands are
/// raised, while the limit of the group to blame is as it is. Of the host it is the capacity.
pub fn only_the_blamed_limit_helps()
    ensures { OnlyTheBlamedLimitHelps }
{
    no_more_below();
}

/// Law: a group to blame whose limit is raised by a slice gets a slice more, or as much as before.
/// Then it is to blame for no group any more.
pub fn blamed_gains_or_is_clear()
    ensures { BlamedGainsOrIsClear }
{
    limit_gives_or_lets_go();
}
