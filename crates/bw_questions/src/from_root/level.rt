//! The level of cost that siblings' needs leave, and the least weights for which the needs cost no
//! more.
ghost use Rattle.std.specs.Prelude.{◌≡◌, ℕ, ◌≤◌, ◌<◌, true, length, slice_index, IfOk};
ghost use Rattle.std.specs.Prelude.{EachIndex, IfSome, ◌+◌, ◌-◌, ◌*◌};
ghost use Rattle.bw_split.specs.Conditions.{AreWeights, CanSplit};
ghost use Rattle.bw_split.specs.Levels.{taken};
ghost use Rattle.bw_questions.specs.Needs.{AreRaised, AreWithin, CanMeet, IsHeavyEnough};
ghost use Rattle.bw_questions.specs.Needs.{IsLevelOfNeeds, TakeMore};

use bw_model::limits::{MAX_CAPACITY, MAX_WEIGHT};
use bw_split::limits::{GREATEST_LEVEL, STEPS};
use std::alloc::{AllocError, Global};

// The slices of a child that cost no more than a level, at most its maximum.
fn takes(level: u64, weight: u64, most: u64) -> u64
    requires level { level ≤ GREATEST_LEVEL }
    requires weight { weight ≤ MAX_WEIGHT }
    ensures { result ≡ taken level weight most }
{
    ((level * weight + STEPS) / (2 * STEPS)).min(most)
}

// Whether the children take or need more than an amount at a level.
fn take_more(amount: u64, level: u64, weights: &[u64], most: &[u64], needs: &[u64]) -> bool
    requires level { level ≤ GREATEST_LEVEL }
    requires weights { AreWeights weights.now }
    requires most { length most.now ≡ length weights.now }
    requires needs { length needs.now ≡ length weights.now }
    ensures { result ≡ true → TakeMore amount level weights.now most.now needs.now }
{
    let mut left = amount;
    for k in 0..weights.len() {
        let part = takes(level, weights[k], most[k]).max(needs[k]);
        if part > left {
            return true;
        }
        left -= part;
    }
    false
}

// The greatest level at which some child needs slices that cost more even with its top. None: no
// child needs any.
fn level_past_tops(tops: &[u64], needs: &[u64]) -> Option<u64>
    requires tops { AreWeights tops.now }
    requires needs { length needs.now ≡ length tops.now }
    requires small { EachIndex needs.now (λ k. slice_index needs.now k ≤ MAX_CAPACITY) }
    ensures { IfSome result (λ level. (level ≤ GREATEST_LEVEL)
        × ((k : ℕ) × (k < length tops.now)
        × (level * slice_index tops.now k < (2 * slice_index needs.now k - 1) * STEPS))) }
{
    let mut past = None;
    let mut greatest = 0;
    for k in 0..tops.len() {
        if needs[k] > 0 {
            let level = ((2 * needs[k] - 1) * STEPS - 1) / tops[k];
            if greatest <= level {
                greatest = level;
                past = Some(level);
            }
        }
    }
    past
}

/// An amount from `first` on, at most one past `limit`: no weights meet the needs of a lesser one
/// from `first` on.
///
/// At a level that some child is past with its top, all other slices that cost no more are given
/// before its need is met.
pub(crate) fn bound_of_amounts(
    first: u64,
    limit: u64,
    floors: &[u64],
    tops: &[u64],
    most: &[u64],
    needs: &[u64],
) -> u64
    requires in_order { first ≤ limit }
    requires can { CanSplit limit floors.now most.now }
    requires within { AreWithin floors.now tops.now most.now needs.now }
    requires small { EachIndex needs.now (λ k. slice_index needs.now k ≤ MAX_CAPACITY) }
    ensures in_range { (first ≤ result) × (result ≤ limit + 1) }
    ensures below { (less : ℕ) → first ≤ less → less < result
        → CanMeet floors.now tops.now most.now needs.now less → ⊥ }
{
    let Some(level) = level_past_tops(tops, needs) else {
        return first;
    };
    let mut low = first;
    let mut high = limit + 1;
    while low < high {
        let middle = low + (high - low) / 2;
        if take_more(middle, level, floors, most, needs) {
            low = middle + 1;
        } else {
            high = middle;
        }
    }
    low
}

/// A level at which children take or need more than an amount: the least one, if there is one below
/// the greatest level.
pub(crate) fn level_of_needs(amount: u64, weights: &[u64], most: &[u64], needs: &[u64]) -> u64
    requires weights { AreWeights weights.now }
    requires most { length most.now ≡ length weights.now }
    requires needs { length needs.now ≡ length weights.now }
    ensures { IsLevelOfNeeds amount weights.now most.now needs.now result }
{
    let mut low = 1;
    let mut high = GREATEST_LEVEL;
    while low < high {
        let middle = low + (high - low) / 2;
        if take_more(amount, middle, weights, most, needs) {
            high = middle;
        } else {
            low = middle + 1;
        }
    }
    low
}

// The least weight of a child that is no less than the one that stands, greater where the child
// falls short, and with which its last needed slice costs no more than a level.
fn raised_weight(level: u64, weight: u64, part: u64, need: u64) -> u64
    requires level { (1 ≤ level) × (level ≤ GREATEST_LEVEL) }
    requires weight { weight ≤ MAX_WEIGHT }
    requires need { need ≤ MAX_CAPACITY }
    ensures enough { IsHeavyEnough level weight part need result }
    ensures least { (other : ℕ) → IsHeavyEnough level weight part need other → result ≤ other }
{
    let cost = (2 * need).saturating_sub(1) * STEPS;
    let cheap = (cost + level - 1) / level;
    if part < need {
        cheap.max(weight + 1)
    } else {
        cheap.max(weight)
    }
}

/// Such a weight of each child, or None where one is above its top.
///
/// # Errors
/// `AllocError` if memory was refused.
pub(crate) fn raised(
    alloc: Global,
    level: u64,
    weights: &[u64],
    tops: &[u64],
    parts: &[u64],
    needs: &[u64],
) -> Result<Option<Vec<u64>>, AllocError>
    requires level { (1 ≤ level) × (level ≤ GREATEST_LEVEL) }
    requires weights { AreWeights weights.now }
    requires tops { length tops.now ≡ length weights.now }
    requires parts { length parts.now ≡ length weights.now }
    requires needs { length needs.now ≡ length weights.now }
    requires small { EachIndex needs.now (λ k. slice_index needs.now k ≤ MAX_CAPACITY) }
    ensures { IfOk result (AreRaised level weights.now tops.now parts.now needs.now) }
{
    let mut raised = weights.to_vec(alloc)?;
    for k in 0..weights.len() {
        let weight = raised_weight(level, weights[k], parts[k], needs[k]);
        if weight > tops[k] {
            return Ok(None);
        }
        raised[k] = weight;
    }
    Ok(Some(raised))
}
