//! Laws about the definitions: contracts of functions with an empty body.
ghost use Rattle.std.specs.Prelude.{◌≡◌};
ghost use Rattle.bw_tree.specs.Booked.{IsBoundedByBurst, IsBoundedByCarry, IsCarryBounded};
ghost use Rattle.bw_tree.specs.Booked.{IsLeftOver, AreLimitsQuotas, IsCarryUnseen, KeepsNoBurst};
ghost use Rattle.bw_tree.specs.Groups.{TreeState, IsTree};
ghost use Rattle.bw_tree.specs.Paths.{IsInverse, AreNamesUnique};

use crate::limits::{DEFAULT_PERIOD_US, DEFAULT_WEIGHT, FIRST_ID, MAX_NAME, MAX_SHORT_NAME};

/// Law: in each tree the path of a group, and no other path, finds the group.
///
/// Siblings have different names.
pub fn paths_are_exact()
    ensures inverse { (t : TreeState) → IsTree t → IsInverse t.groups }
    ensures names { (t : TreeState) → IsTree t → AreNamesUnique t.groups }
{}

/// Law: a group's draw over any n booked periods in a row is bounded.
///
/// Premise: its quota and its burst in slices stay the same. Any calls may come between.
/// - `burst`: it draws at most n quotas and one burst, whatever it carried before.
/// - `carry`: it draws at most n quotas and what it carried before.
/// - `next_carry`: after each period it carries at most its quota and its burst.
/// - `left`: the carry is its limit less its draw. Nothing else of any group changes.
pub fn bursts_are_bounded()
    ensures burst { IsBoundedByBurst }
    ensures carry { IsBoundedByCarry }
    ensures next_carry { IsCarryBounded }
    ensures left { IsLeftOver }
{}

/// Law: if no group has a burst, the limit of each is its quota in slices, whatever it carries.
///
/// A booked period then leaves the same instance.
pub fn carries_need_a_burst()
    ensures limits { AreLimitsQuotas }
    ensures unseen { IsCarryUnseen }
    ensures stays { KeepsNoBurst }
{}

/// Law: numbers of a new group, which the definitions read from the code.
///
/// A name has up to 255 bytes, and is stored in place up to 24. The weight is 100, the period
/// 100000 microseconds, the first id 1.
pub fn new_group_numbers()
    ensures name { MAX_NAME ≡ 255 }
    ensures short_name { MAX_SHORT_NAME ≡ 24 }
    ensures first_id { FIRST_ID ≡ 1 }
    ensures first_weight { DEFAULT_WEIGHT ≡ 100 }
    ensures first_period { DEFAULT_PERIOD_US ≡ 100000 }
{}
