//! Laws about the numbers that the definitions read from the code, and about limits of periods.
ghost use Rattle.std.specs.Prelude.{◌≡◌};
ghost use Rattle.bw_columns.specs.PeriodLaws.{PeriodLimitsAreThoseAsked};

use crate::columns::{NO_LIMIT, NO_PARENT};
use crate::from_root::NO_GOAL;

/// Law: the numbers of columns for no parent, no limit and no goal are the greatest of their types.
pub fn column_numbers()
    ensures parent { NO_PARENT ≡ 4294967295 }
    ensures limit { NO_LIMIT ≡ 18446744073709551615 }
    ensures goal { NO_GOAL ≡ 18446744073709551615 }
{}

/// Law: in each of many periods the limit of a group is the one that [`crate::limit_of_period`]
/// gives.
pub fn limits_of_periods()
    ensures { PeriodLimitsAreThoseAsked }
{}
