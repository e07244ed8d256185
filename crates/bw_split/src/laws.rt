//! Laws about splits, each the contract of a function that does nothing.
ghost use Rattle.std.specs.Prelude.{◌≡◌};
ghost use Rattle.bw_split.specs.OneSlice.{UnmovedIsBest, BestIsUnmoved};

use crate::limits::{MAX_CHILDREN, MAX_ROUNDS};

/// A split is the best one if and only if no move of one slice between two siblings gains.
pub fn no_move_gains()
    ensures best { UnmovedIsBest }
    ensures unmoved { BestIsUnmoved }
{}

/// A split has at most 16,383 children, and its search at most 44 rounds. The definitions read both
/// numbers from the code.
pub fn split_numbers()
    ensures children { MAX_CHILDREN ≡ 16383 }
    ensures rounds { MAX_ROUNDS ≡ 44 }
{}
