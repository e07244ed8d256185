//! Laws that join the conditions of `check` and the plan: which conditions are needed.
//!
//! Each example has three slices and two groups of equal weight, of which one asks for 5 slices.
ghost use Rattle.bw_laws.specs.Needed.{IsNeeded, IsNotNeeded};

use bw_check::CheckFault;

/// Law: the lengths are needed. With a fourth amount behind them, 2 and 1 keep all else.
pub fn lengths_are_needed()
    ensures { IsNeeded CheckFault.WrongLength }
{}

/// Law: the limits are needed. With a limit of 1, amounts 2 and 1 keep all else.
pub fn limits_are_needed()
    ensures { IsNeeded CheckFault.OverLimit }
{}

/// Law: the demands are needed. With a demand of 1, amounts 2 and 1 keep all else.
pub fn demands_are_needed()
    ensures { IsNeeded CheckFault.OverDemand }
{}

/// Law: the sums are needed. Amounts 1 and 1 under 3 keep all else.
pub fn sums_are_needed()
    ensures { IsNeeded CheckFault.SumDiffers }
{}

/// Law: the greatest total is needed. Amounts of 0 keep all else.
pub fn greatest_total_is_needed()
    ensures { IsNeeded CheckFault.NotGreatest }
{}

/// Law: the levels are needed. Without a level, amounts 1 and 2 keep all else.
pub fn levels_are_needed()
    ensures { IsNeeded CheckFault.LevelMissing }
{}

/// Law: the test of last marks is needed. At a low level, amounts 1 and 2 keep all else.
pub fn last_marks_are_needed()
    ensures { IsNeeded CheckFault.LastMarkAbove }
{}

/// Law: the test of next marks is needed. At a high level, amounts 1 and 2 keep all else.
pub fn next_marks_are_needed()
    ensures { IsNeeded CheckFault.NextMarkNotAbove }
{}

/// Law: a limit at each flag is not needed. From all other conditions the amounts are the plan.
pub fn limits_at_flags_are_not_needed()
    ensures { IsNotNeeded CheckFault.FlagWithoutLimit }
{}
