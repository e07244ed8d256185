//! Laws about plans, each the contract of a function that does nothing.
ghost use Rattle.std.specs.Prelude.{◌≡◌};
ghost use Rattle.bw_plan.specs.Laws.{ThereIsOnePlan};

use crate::by_depth::PIECE_CHILDREN;

/// Each instance has exactly one plan.
pub fn there_is_one_plan()
    ensures { ThereIsOnePlan }
{}

/// Law: a piece of work splits among 2048 children.
pub fn piece_numbers()
    ensures { PIECE_CHILDREN ≡ 2048 }
{}
