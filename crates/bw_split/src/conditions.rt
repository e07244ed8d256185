//! The test of what can be split.
ghost use Rattle.std.specs.Prelude.{◌↔◌, ◌≤◌, IsTrue, sum};
ghost use Rattle.bw_split.specs.Conditions.{CanSplit};

use crate::limits::MAX_CHILDREN;
use bw_model::limits::{MAX_CAPACITY, MAX_WEIGHT, MIN_WEIGHT};

/// Whether the sum of the numbers is at most the bound. The sum itself may pass 64 bits.
pub fn fits_in(numbers: &[u64], bound: u64) -> bool
    ensures { IsTrue result ↔ sum numbers.now ≤ bound }
{
    let mut left = bound;
    for i in 0..numbers.len() {
        if numbers[i] > left {
            return false;
        }
        left -= numbers[i];
    }
    true
}

/// Whether an amount of slices can be split: the condition of [`split`](crate::split).
///
/// There are as many maxima as weights, at most [`MAX_CHILDREN`]. Each weight is 1 to 10,000. The
/// amount is at most 64,000 slices and at most the sum of the maxima.
pub fn can_split(amount: u64, weights: &[u64], most: &[u64]) -> bool
    ensures { IsTrue result ↔ CanSplit amount weights.now most.now }
{
    if most.len() != weights.len() || weights.len() > MAX_CHILDREN || amount > MAX_CAPACITY {
        return false;
    }
    for i in 0..weights.len() {
        if weights[i] < MIN_WEIGHT || weights[i] > MAX_WEIGHT {
            return false;
        }
    }
    amount == 0 || !fits_in(most, amount - 1)
}
