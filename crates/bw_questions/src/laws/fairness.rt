//! Laws of what a weight is worth in a split.
ghost use Rattle.bw_questions.specs.changes.Fairness.{FairWithinHalfASlice, WeightIsAFloor};

/// Law: a child that could take more has at least its proportion of a sibling's part, less half a
/// slice of its own and half a slice of the sibling's.
///
/// Of child i and sibling j, with parts x and weights w: (2 x_j - 1) w_i ≤ (2 x_i + 1) w_j.
pub fn fair_within_half_a_slice()
    ensures { FairWithinHalfASlice }
{}

/// Law: a bound from below on the part of a child that could take more, whatever others ask for.
///
/// The child has the part x and the weight w. The n children that may take something have the
/// weight W together: (2 amount + 2) w ≤ (2 x + 1) W + n w. So the child has a slice if
/// (2 amount + 2 - n) w is above W.
pub fn weight_is_a_floor()
    ensures { WeightIsAFloor }
{}
