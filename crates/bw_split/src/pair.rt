//! The split between two children: a division, without a search.
ghost use Rattle.std.specs.Prelude.{◌≡◌, ◌-◌, ◌≤◌, [], ◌∷◌, length};
ghost use Rattle.bw_model.specs.Split.{IsBestSplit};
ghost use Rattle.bw_split.specs.Conditions.{CanSplit};

/// The part of the first of two children, in slices. The second child gets the rest.
///
/// It is the first child's share by weight, rounded to the nearest slice, and a half up: a tie goes
/// to the earlier sibling. What a child cannot take goes to the other.
pub(crate) fn first_of_two(amount: u64, weights: &[u16], most: &[u16]) -> u64
    requires can { CanSplit amount weights.now most.now }
    requires two { length weights.now ≡ 2 }
    ensures within { result ≤ amount }
    ensures best { IsBestSplit amount weights.now most.now
        (result ∷ (amount - result) ∷ []) }
{
    let weight = u64::from(weights[0]);
    let both = weight + u64::from(weights[1]);
    let share = (2 * amount * weight + both) / (2 * both);
    let left = amount.saturating_sub(u64::from(most[1]));
    share.max(left).min(u64::from(most[0]))
}
