//! Laws of what a scheduler is given for a round, in an owner's words.
ghost use Rattle.bw_laws.specs.Parts.{AmountsKeepShares, PartsAreWithin, PartsFillTheLimit};

/// Law: no amount is below the plan or the floor, and one above the plan is the floor's share.
///
/// It stands to the plans of others as the floor to theirs, but for less than one slice. It rises
/// with the floor and with the plans of others, and falls with their floors.
pub fn amounts_keep_shares()
    ensures { AmountsKeepShares }
{}

/// Law: a leaf's part of a limit is at most the limit, and at least what the round limits it to.
///
/// It is all of the limit in a calm round, and for a leaf that has all of its row's plan. Else it
/// is the leaf's share of the limit, but for less than one slice. It rises with the limit and with
/// the leaf's plan, and falls with the row's.
pub fn parts_are_within()
    ensures { PartsAreWithin }
{}

/// Law: the parts of all leaves under a limit are all of it, but for less than one slice each.
///
/// They are no more than the limit where no leaf is limited to more than its share.
pub fn parts_fill_the_limit()
    ensures { PartsFillTheLimit }
{}
