//! Laws about allocations, each the contract of a function that does nothing.
ghost use Rattle.bw_demand.specs.Laws.{AmountsAreReached, MostIsUnique, MostIsTheWantCut};
ghost use Rattle.bw_demand.specs.Laws.{AllocationsJoin, BoundsHold};

/// Some allocation within the demands and limits at a group and below it gives the group any
/// amount from 0 to its most.
pub fn amounts_are_reached()
    ensures { AmountsAreReached }
{}

/// Each group has one most: its want, or its limit if that is less.
pub fn most_is_the_want_cut()
    ensures unique { MostIsUnique }
    ensures rule { MostIsTheWantCut }
{}

/// Allocations of the children of a group join into one.
pub fn allocations_join()
    ensures { AllocationsJoin }
{}

/// No allocation passes the bounds that flags at any groups give.
pub fn bounds_hold()
    ensures { BoundsHold }
{}
