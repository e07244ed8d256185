//! Laws of the weights with which all goals are met and of these goals, and the numbers of a split.
ghost use Rattle.std.specs.Prelude.{◌≡◌};
ghost use Rattle.bw_questions.specs.Beside.{GoalsComeTo, HalvesAreHad};
ghost use Rattle.bw_questions.specs.Lowered.{ThereIsOneTuned};

use bw_split::limits::{GREATEST_LEVEL, MAX_PART, STEPS};

/// Law: an instance, its goals and the rows that may change have one answer of weights with which
/// all goals are met.
pub fn there_is_one_from_root()
    ensures { ThereIsOneTuned }
{}

/// Law: a plan that gives a row and each row below it its goal gives the row what these goals come
/// to.
pub fn goals_come_to()
    ensures { GoalsComeTo }
{}

/// Law: no leaf is to keep more beside the goals of others than the plan gives it.
pub fn halves_are_had()
    ensures { HalvesAreHad }
{}

/// States the numbers of a split: a cost of one has 2^27 steps, the greatest level is the cost of
/// the last slice of 64,000 by the weight 1, and a part in a list has 16 bits.
pub fn level_numbers()
    ensures steps { STEPS ≡ 134217728 }
    ensures greatest { GREATEST_LEVEL ≡ 17179734966272 }
    ensures part { MAX_PART ≡ 65535 }
{}
