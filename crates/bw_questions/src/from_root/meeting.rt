//! The least weights of siblings with which each gets what it needs of one amount.
ghost use Rattle.std.specs.Prelude.{◌≡◌, ℕ, ◌<◌, ◌≤◌, true, false, length, slice_index};
ghost use Rattle.std.specs.Prelude.{List, IfOk, IfSome, IfNone};
ghost use Rattle.bw_split.specs.Conditions.{CanSplit};
ghost use Rattle.bw_questions.specs.Needs.{AreWithin, CanMeet, IsLeastAmount, IsLeastMeeting};

use super::level::{bound_of_amounts, level_of_needs, raised};
use crate::laws::lighter_has_no_more;
use bw_split::{fits_in, split};
use std::alloc::{AllocError, Global};

/// Weights of siblings, and the parts of an amount that the siblings have with them.
#[derive(Debug, Drop)]
pub(crate) struct Meeting {
    /// The weight of each sibling.
    pub(crate) weights: Vec<u64>,
    /// The slices of each sibling.
    pub(crate) parts: Vec<u64>,
}

fn copied(alloc: Global, numbers: &[u64]) -> Result<Vec<u64>, AllocError>
    ensures { IfOk result (λ copy. copy.items ≡ numbers.now) }
{
    numbers.iter().copied().collect(alloc)
}

// The first child that has less than it needs, by its place.
fn short(parts: &[u64], needs: &[u64]) -> Option<usize>
    requires { length parts.now ≡ length needs.now }
    ensures some { IfSome result (λ k. (k < length parts.now)
        × (slice_index parts.now k < slice_index needs.now k)) }
    ensures none { IfNone result ((k : ℕ) → k < length parts.now
        → slice_index needs.now k ≤ slice_index parts.now k) }
{
    for k in 0..parts.len() {
        if parts[k] < needs[k] {
            return Some(k);
        }
    }
    None
}

/// The least weights of siblings, from their floors to their tops, with which each gets what it
/// needs of an amount. None: no such weights do, of this amount or of a smaller one.
///
/// Each round raises all weights that are too small. The weights of a solution are no less than
/// those that stand. So the last slice that a child needs costs no more there than the level of the
/// needs, and a child that falls short needs a greater weight. No raise goes too far.
///
/// # Errors
/// `AllocError` if memory was refused.
pub(crate) fn least_raise(
    alloc: Global,
    amount: u64,
    floors: &[u64],
    tops: &[u64],
    most: &[u64],
    needs: &[u64],
) -> Result<Option<Meeting>, AllocError>
    requires can { CanSplit amount floors.now most.now }
    requires within { AreWithin floors.now tops.now most.now needs.now }
    ensures { IfOk result (IsLeastMeeting floors.now tops.now most.now needs.now amount) }
{
    lighter_has_no_more();
    if !fits_in(needs, amount) {
        return Ok(None);
    }
    let mut weights = copied(alloc, floors)?;
    let mut parts = split(alloc, amount, weights.as_slice(), most)?;
    while let Some(_child) = short(parts.as_slice(), needs) {
        let level = level_of_needs(amount, weights.as_slice(), most, needs);
        let found = raised(
            alloc,
            level,
            weights.as_slice(),
            tops,
            parts.as_slice(),
            needs,
        )?;
        let Some(heavier) = found else {
            return Ok(None);
        };
        weights = heavier;
        parts = split(alloc, amount, weights.as_slice(), most)?;
    }
    Ok(Some(Meeting { weights, parts }))
}

// Whether some weights of siblings give each what it needs of an amount.
fn can_meet(
    alloc: Global,
    amount: u64,
    floors: &[u64],
    tops: &[u64],
    most: &[u64],
    needs: &[u64],
) -> Result<bool, AllocError>
    requires can { CanSplit amount floors.now most.now }
    requires within { AreWithin floors.now tops.now most.now needs.now }
    ensures some { IfOk result
        (λ can. can ≡ true → CanMeet floors.now tops.now most.now needs.now amount) }
    ensures none { IfOk result (λ can. can ≡ false → (less : ℕ) → less ≤ amount
        → CanMeet floors.now tops.now most.now needs.now less → ⊥) }
{
    match least_raise(alloc, amount, floors, tops, most, needs)? {
        Some(_) => Ok(true),
        None => Ok(false),
    }
}

/// The least amount from `first` to `limit` of which some weights of siblings, from their floors to
/// their tops, give each what it needs. None: there is no such amount.
///
/// # Errors
/// `AllocError` if memory was refused.
pub(crate) fn least_amount(
    alloc: Global,
    first: u64,
    limit: u64,
    floors: &[u64],
    tops: &[u64],
    most: &[u64],
    needs: &[u64],
) -> Result<Option<u64>, AllocError>
    requires can { CanSplit limit floors.now most.now }
    requires within { AreWithin floors.now tops.now most.now needs.now }
    ensures { IfOk result (IsLeastAmount floors.now tops.now most.now needs.now first limit) }
{
    if first > limit {
        return Ok(None);
    }
    if !fits_in(needs, limit) {
        return Ok(None);
    }
    if can_meet(alloc, first, floors, tops, most, needs)? {
        return Ok(Some(first));
    }
    // No amount from the first one to below `low` will do. `high` does, unless it is past the
    // limit. The least one is mostly near the bound.
    let mut low = bound_of_amounts(first, limit, floors, tops, most, needs).max(first + 1);
    let mut high = limit + 1;
    let mut reach = 0;
    while low < high {
        let middle = (low + reach).min(low + (high - low) / 2);
        if can_meet(alloc, middle, floors, tops, most, needs)? {
            high = middle;
        } else {
            low = middle + 1;
            reach = (2 * reach + 1).min(limit);
        }
    }
    Ok(if low > limit { None } else { Some(low) })
}
