//! Weights of rows away from all goals, at the greatest level with which goals can be met.
ghost use Rattle.std.specs.Prelude.{◌≡◌, ◌<◌, ◌≤◌, true, false, length, min, not, IfOk, ◌&&◌};
ghost use Rattle.std.specs.Prelude.{if◌then◌else◌, slice_index_or};
ghost use Rattle.bw_model.specs.declared.limits.TheConstants.{MIN_WEIGHT};
ghost use Rattle.bw_model.specs.Groups.{weight_of};
ghost use Rattle.bw_questions.specs.Lowered.{CanBeMetAt, IsGreatestLevel, lowered, own_rows};

use super::either::tuned_from_root;
use super::least::Tuned;
use super::measure::Measure;
use super::own::goal_flags;
use super::weighed::weighed;
use crate::laws::others_weights_give_nothing;
use bw_model::Instance;
use bw_model::limits::{MAX_WEIGHT, MIN_WEIGHT};
use bw_plan::there_is_one_plan;
use std::alloc::{AllocError, Global};

// The weight of a row at a level, which cuts it if it may change and no goal is at the row or below
// it.
fn level_weight(instance: &Instance, may: &[bool], flags: &[bool], level: u64, h: u32) -> u64
    requires row { h < length instance.now.rows }
    requires may { length may.now ≡ length instance.now.rows }
    requires flags { length flags.now ≡ length instance.now.rows }
    ensures { result ≡ if slice_index_or may.now h false && not (slice_index_or flags.now h false)
        then min (weight_of instance.now.rows h) level else weight_of instance.now.rows h }
{
    let weight = instance.row(h).weight;
    if may[h as usize] && !flags[h as usize] {
        weight.min(level)
    } else {
        weight
    }
}

/// The instance with its weights at a level: where a weight may change, and no goal is at the row
/// or below it, it is no more than the level.
///
/// # Errors
/// `AllocError` if memory was refused.
pub(crate) fn lowered(
    alloc: Global,
    instance: &Instance,
    goals: &[u64],
    may: &[bool],
    level: u64,
) -> Result<Instance, AllocError>
    requires goals { length goals.now ≡ length instance.now.rows }
    requires may { length may.now ≡ length instance.now.rows }
    requires level { MIN_WEIGHT ≤ level }
    ensures { IfOk result (λ i. i ≡ lowered instance.now goals.now may.now level) }
{
    let count = instance.rows().len();
    let flags = goal_flags(alloc, instance, goals)?;
    let mut weights: Vec<u64> = Vec::with_capacity(alloc, count)?;
    for h in 0..count {
        weights.push(level_weight(instance, may, flags.as_slice(), level, h as u32))?;
    }
    weighed(alloc, instance, weights.as_slice())
}

// Whether the goals' own weights can meet all goals at a level.
fn can_be_met_at(
    alloc: Global,
    instance: &Instance,
    goals: &[u64],
    may: &[bool],
    own: &[bool],
    measure: Measure,
    level: u64,
) -> Result<bool, AllocError>
    requires goals { length goals.now ≡ length instance.now.rows }
    requires may { length may.now ≡ length instance.now.rows }
    requires own { own.now ≡ own_rows instance.now.rows goals.now may.now }
    requires level { MIN_WEIGHT ≤ level }
    ensures some { IfOk result (λ can. can ≡ true
        → CanBeMetAt measure instance.now goals.now may.now level) }
    ensures none { IfOk result (λ can. can ≡ false
        → CanBeMetAt measure instance.now goals.now may.now level → ⊥) }
{
    let low = lowered(alloc, instance, goals, may, level)?;
    match tuned_from_root(alloc, &low, goals, own, measure)? {
        Tuned::Met(_) => Ok(true),
        Tuned::Unmet(_) => Ok(false),
    }
}

/// The greatest level, 1 to 10000, at which the goals' own weights can meet all goals, by halving.
///
/// # Errors
/// `AllocError` if memory was refused.
pub(crate) fn greatest_level(
    alloc: Global,
    instance: &Instance,
    goals: &[u64],
    may: &[bool],
    own: &[bool],
    measure: Measure,
) -> Result<u64, AllocError>
    requires goals { length goals.now ≡ length instance.now.rows }
    requires may { length may.now ≡ length instance.now.rows }
    requires own { own.now ≡ own_rows instance.now.rows goals.now may.now }
    requires met { CanBeMetAt measure instance.now goals.now may.now MIN_WEIGHT }
    ensures { IfOk result (IsGreatestLevel measure instance.now goals.now may.now) }
{
    let _rows = instance.rows();
    there_is_one_plan();
    others_weights_give_nothing();
    // `met` will do. `over` and each level above it will not, unless it is past the last one.
    let mut met = MIN_WEIGHT;
    let mut over = MAX_WEIGHT + 1;
    while met + 1 < over {
        let middle = met + (over - met) / 2;
        if can_be_met_at(alloc, instance, goals, may, own, measure, middle)? {
            met = middle;
        } else {
            over = middle;
        }
    }
    Ok(met)
}
