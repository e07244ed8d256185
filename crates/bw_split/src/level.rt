//! The level of a split: its greatest last mark.
ghost use Rattle.std.specs.Prelude.{◌≡◌, ◌≤◌, length, slice_index, EachIndex, IfSome, IfNone};
ghost use Rattle.bw_model.specs.Marks.{price_of};
ghost use Rattle.bw_model.specs.Split.{IsGreatestLast};
ghost use Rattle.bw_split.specs.Conditions.{AreWeights};

use crate::limits::MAX_CHILDREN;
use bw_model::Mark;
use bw_model::limits::MAX_CAPACITY;

/// The level of a split: the greatest last mark `(2x - 1) / weight` over the parts x above 0, with
/// the child's place; None if all parts are 0. Parts are in slices, 0 to 64,000 each.
pub fn level_of(parts: &[u64], weights: &[u64]) -> Option<Mark>
    requires weights_each { length weights.now ≡ length parts.now }
    requires few { length parts.now ≤ MAX_CHILDREN }
    requires weights_in_range { AreWeights weights.now }
    requires small { EachIndex parts.now (λ k. slice_index parts.now k ≤ MAX_CAPACITY) }
    ensures greatest { IfSome result
        (λ mark. IsGreatestLast weights.now parts.now (price_of mark)) }
    ensures none { IfNone result (EachIndex parts.now (λ k. slice_index parts.now k ≡ 0)) }
{
    let mut best = None;
    for i in 0..parts.len() {
        if parts[i] > 0 {
            best = match best {
                None => Some(i),
                Some(b) => {
                    if (2 * parts[i] - 1) * weights[b] < (2 * parts[b] - 1) * weights[i] {
                        Some(b)
                    } else {
                        Some(i)
                    }
                }
            };
        }
    }
    match best {
        None => None,
        Some(b) => Some(Mark {
            num: 2 * parts[b] - 1,
            den: weights[b],
            place: b as u32,
        }),
    }
}
