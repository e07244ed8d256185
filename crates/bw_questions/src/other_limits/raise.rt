//! The greatest level to which limits can be raised, by halving.
ghost use Rattle.std.specs.Prelude.{◌≡◌, ◌<◌, ◌≤◌, true, false, length, IfOk};
ghost use Rattle.bw_model.specs.declared.limits.TheConstants.{MAX_CAPACITY};
ghost use Rattle.bw_questions.specs.OtherLimits.{AreCuts, CanBeMet, IsGreatestRaise};
ghost use Rattle.bw_questions.specs.OtherLimits.{raised_limit, raised_limits};

use super::cut::{cut_to, full_limit};
use crate::from_root::{Measure, Tuned, tuned_from_root};
use crate::laws::others_room_gives_nothing;
use bw_model::Instance;
use bw_plan::there_is_one_plan;
use std::alloc::{AllocError, Global};

/// Whether goals can be met with these limits.
///
/// # Errors
/// `AllocError` if memory was refused.
pub(crate) fn can_be_met(
    alloc: Global,
    instance: &Instance,
    goals: &[u64],
    may: &[bool],
    measure: Measure,
    limits: &[u64],
) -> Result<bool, AllocError>
    requires goals { length goals.now ≡ length instance.now.rows }
    requires may { length may.now ≡ length instance.now.rows }
    requires limits { AreCuts instance.now goals.now limits.now }
    ensures some { IfOk result
        (λ can. can ≡ true → CanBeMet measure instance.now goals.now may.now limits.now) }
    ensures none { IfOk result
        (λ can. can ≡ false → CanBeMet measure instance.now goals.now may.now limits.now → ⊥) }
{
    let _rows = instance.rows();
    let cut = cut_to(alloc, instance, limits)?;
    match tuned_from_root(alloc, &cut, goals, may, measure)? {
        Tuned::Met(_) => Ok(true),
        Tuned::Unmet(_) => Ok(false),
    }
}

// The limit of a row, raised to a level if it is to be raised.
fn raised_limit(instance: &Instance, limits: &[u64], only: Option<u32>, level: u64, h: u32) -> u64
    requires row { h < length instance.now.rows }
    requires limits { length limits.now ≡ length instance.now.rows }
    ensures { result ≡ raised_limit instance.now limits.now only level h }
{
    let limit = limits[h as usize];
    let is_raised = match only {
        None => true,
        Some(row) => row == h,
    };
    if is_raised {
        full_limit(instance, h).min(limit.max(level))
    } else {
        limit
    }
}

/// The limits with those of all rows, or of one alone, raised to a level.
///
/// # Errors
/// `AllocError` if memory was refused.
pub(crate) fn raised_limits(
    alloc: Global,
    instance: &Instance,
    limits: &[u64],
    only: Option<u32>,
    level: u64,
) -> Result<Vec<u64>, AllocError>
    requires { length limits.now ≡ length instance.now.rows }
    ensures { IfOk result
        (λ raised. raised.items ≡ raised_limits instance.now limits.now only level) }
{
    let count = instance.rows().len();
    let mut raised: Vec<u64> = Vec::with_capacity(alloc, count)?;
    for h in 0..count {
        raised.push(raised_limit(instance, limits, only, level, h as u32))?;
    }
    Ok(raised)
}

/// The greatest level from `low` to `high` to which the limits of all rows, or of one alone, can be
/// raised. Steps double until one is too great, and then halve.
///
/// # Errors
/// `AllocError` if memory was refused.
pub(crate) fn greatest_raise(
    alloc: Global,
    instance: &Instance,
    goals: &[u64],
    may: &[bool],
    measure: Measure,
    limits: &[u64],
    only: Option<u32>,
    low: u64,
    high: u64,
) -> Result<u64, AllocError>
    requires goals { length goals.now ≡ length instance.now.rows }
    requires may { length may.now ≡ length instance.now.rows }
    requires limits { AreCuts instance.now goals.now limits.now }
    requires range { (low ≤ high) × (high ≤ MAX_CAPACITY) }
    requires met { CanBeMet measure instance.now goals.now may.now
        (raised_limits instance.now limits.now only low) }
    ensures { IfOk result (IsGreatestRaise measure instance.now goals.now may.now limits.now only
        low high) }
{
    let _rows = instance.rows();
    there_is_one_plan();
    others_room_gives_nothing();
    // `met` will do. `over` and each level above it will not, unless it is past the last one.
    let mut met = low;
    let mut over = high + 1;
    while met + 1 < over {
        let middle = met + (met - low + 1).min((over - met) / 2);
        let raised = raised_limits(alloc, instance, limits, only, middle)?;
        if can_be_met(alloc, instance, goals, may, measure, raised.as_slice())? {
            met = middle;
        } else {
            over = middle;
        }
    }
    Ok(met)
}
