//! The least weights, from the root down, with which the guarantees meet all goals.
ghost use Rattle.std.specs.Prelude.{◌≡◌, ◌<◌, ◌≤◌, ℕ, length, slice_index, IfOk, IfSome, IfNone};
ghost use Rattle.bw_questions.specs.declared.from_root.measure.Measure.TheVariants.{Guaranteed};
ghost use Rattle.bw_questions.specs.FromRoot.{AreRowWeights, IsTunedFromRoot, weighed};
ghost use Rattle.bw_questions.specs.Passes.{all_weights};

use super::least::Tuned;
use super::pass::weights_of;
use super::planned::tuned_by_plan;
use super::weighed::weighed;
use crate::held::everyone;
use crate::laws::demands_inside_only_cut;
use bw_demand::gather_rows;
use bw_model::Instance;
use bw_plan::there_is_one_plan;
use std::alloc::{AllocError, Global};

// The last row whose goal is above the most that it can be given. No weights change that most.
fn beyond(instance: &Instance, goals: &[u64], most: &[u64]) -> Option<u32>
    requires goals { length goals.now ≡ length instance.now.rows }
    requires most { length most.now ≡ length instance.now.rows }
    ensures some { IfSome result (λ h. (h < length instance.now.rows)
        × (slice_index most.now h < slice_index goals.now h)
        × ((k : ℕ) → h < k → k < length instance.now.rows
        → slice_index goals.now k ≤ slice_index most.now k)) }
    ensures none { IfNone result ((h : ℕ) → h < length instance.now.rows
        → slice_index goals.now h ≤ slice_index most.now h) }
{
    let count = instance.rows().len();
    for h in (0..count).rev() {
        if goals[h] > most[h] {
            return Some(h as u32);
        }
    }
    None
}

// The instance with the weights of another one.
fn weighed_as(alloc: Global, instance: &Instance, other: &Instance) -> Result<Instance, AllocError>
    requires { AreRowWeights instance.now.rows (all_weights other.now.rows) }
    ensures { IfOk result (λ i. i ≡ weighed instance.now (all_weights other.now.rows)) }
{
    let _rows = other.rows();
    let weights = weights_of(alloc, other)?;
    weighed(alloc, instance, weights.as_slice())
}

/// The least weights with which each row has its goal, whatever the groups ask for that are not
/// under it: of those that are no less than those that stand, or else of all. Or a group whose
/// goals no weights meet together.
///
/// The plan in which each leaf asks for the most tells all guarantees: that of a row is what it has
/// there, or the most that it can be given if that is less.
///
/// # Errors
/// `AllocError` if memory was refused.
pub(crate) fn tuned_by_guarantee(
    alloc: Global,
    instance: &Instance,
    goals: &[u64],
    may: &[bool],
) -> Result<Tuned, AllocError>
    requires goals { length goals.now ≡ length instance.now.rows }
    requires may { length may.now ≡ length instance.now.rows }
    ensures { IfOk result (IsTunedFromRoot Guaranteed instance.now goals.now may.now) }
{
    let _rows = instance.rows();
    there_is_one_plan();
    demands_inside_only_cut();
    let gathered = gather_rows(alloc, instance)?;
    if let Some(group) = beyond(instance, goals, gathered.most.as_slice()) {
        return Ok(Tuned::Unmet(group));
    }
    let busy = everyone(alloc, instance)?;
    match tuned_by_plan(alloc, &busy, goals, may)? {
        Tuned::Met(tuned) => Ok(Tuned::Met(weighed_as(alloc, instance, &tuned)?)),
        Tuned::Unmet(group) => Ok(Tuned::Unmet(group)),
    }
}
