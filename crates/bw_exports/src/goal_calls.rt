//! Weights and limits with which goals of rows are met, called from C.
ghost use Rattle.std.specs.Prelude.{◌≡◌, ◌<◌, ◌∷◌, [], length};
ghost use Rattle.bw_columns.specs.Asked.{Answers, are_of_length, asked_host, asked_table};
ghost use Rattle.bw_columns.specs.Asked.{groups_in, asked_number_where};
ghost use Rattle.bw_columns.specs.FromRoot.{measure_of, IsFromRootTold};
ghost use Rattle.bw_columns.specs.Goals.{AreGoalsTold};
ghost use Rattle.bw_columns.specs.Certificates.{flags_in};
ghost use Rattle.bw_columns.specs.OtherLimits.{AreOtherLimitsTold};

use crate::fit::are_all;
use bw_columns::{Columns, Host, Request, from_root_of, goals_of, measure_of, other_limits_of};
use std::alloc::Global;

/// Goals beside those of others, and what goals come to up the tree, of the rows that
/// [`crate::plan_calls::arbiter_plan`] has.
///
/// `goals` and `guaranteed` are those of [`crate::goal_calls::arbiter_tune`].
///
/// If the answer is 0, `kept` has the goals, where each of the others is to keep half of what it
/// has, rounded up: each leaf below the root with no goal at it or above it. It has what the plan
/// gives it or, if `guaranteed` is not 0, what it gets whatever the groups ask for that are not
/// under it. `come_to` has for each row its goal, or what those of its children come to together,
/// if that is more. No such number is above the greatest one. A refusal leaves both unchanged.
///
/// # Errors
/// The numbers of `arbiter_plan`, with 50 also if a column does not have the rows' length.
#[unsafe(no_mangle)]
pub extern "C" fn arbiter_goals(
    alloc: Global,
    processors: u64,
    period_us: u64,
    slice_us: u64,
    parents: &[u32],
    weights: &[u64],
    limits: &[u64],
    demands: &[u64],
    goals: &[u64],
    guaranteed: u32,
    kept: &mut [u64],
    come_to: &mut [u64],
) -> u32
    ensures number { Answers (asked_number_where
        (are_of_length (length parents.now) (goals.now ∷ kept.old ∷ come_to.old ∷ []))
        (asked_host processors period_us slice_us)
        (asked_table parents.now weights.now limits.now demands.now)) result }
    ensures told { result ≡ 0 → AreGoalsTold (measure_of guaranteed)
        (groups_in (asked_host processors period_us slice_us)
        (asked_table parents.now weights.now limits.now demands.now))
        goals.now kept.new come_to.new }
    ensures kept_kept { 0 < result → kept.new ≡ kept.old }
    ensures come_to_kept { 0 < result → come_to.new ≡ come_to.old }
{
    let fit = are_all(parents.len(), &[goals.len(), kept.len(), come_to.len()]);
    let host = Host::new(processors, period_us, slice_us);
    let columns = Columns::new(parents, weights, limits, demands);
    match goals_of(
        alloc,
        &Request { fit, host, columns },
        goals,
        measure_of(guaranteed),
    ) {
        Ok(found) => {
            kept.copy_from_slice(found.kept.as_slice());
            come_to.copy_from_slice(found.come_to.as_slice());
            0
        }
        Err(refusal) => refusal.number(),
    }
}

/// The weights under which each row has its goal, of the rows that
/// [`crate::plan_calls::arbiter_plan`] has.
///
/// `goals` has the least slices that each row is to get, 0 for none: also a group with children,
/// one inside another, and a row whose weight stays. The plan is to give them or, if `guaranteed`
/// is not 0, the row is to get them whatever the groups ask for that are not under it. `may` is not
/// 0 for a row whose weight may change.
///
/// If the answer is 0, and there are such weights, `tuned` has the weight of each row, and `unmet`
/// is the greatest number. Weights of rows with a goal at or below them are no less than those of
/// `weights`, unless no such weights meet all goals. They are the least from the root down: of all
/// weights that agree with them above a row and beside it there, theirs of that row is the least.
/// Other weights stay where these do. Else they are lowered to one level, the greatest that will
/// do. If there are no such weights, `unmet` is a row, and no weights meet the goals of it and
/// below it together, whatever it is given. The goal of each row below it is within that row's
/// limit and, of a leaf, within its demand. `tuned` has `weights` then. A refusal leaves both
/// unchanged.
///
/// # Errors
/// The numbers of `arbiter_plan`, with 50 also if a column does not have the rows' length.
#[unsafe(no_mangle)]
pub extern "C" fn arbiter_tune(
    alloc: Global,
    processors: u64,
    period_us: u64,
    slice_us: u64,
    parents: &[u32],
    weights: &[u64],
    limits: &[u64],
    demands: &[u64],
    goals: &[u64],
    may: &[u8],
    guaranteed: u32,
    tuned: &mut [u64],
    unmet: &mut u64,
) -> u32
    ensures number { Answers (asked_number_where
        (are_of_length (length parents.now) (goals.now ∷ may.now ∷ tuned.old ∷ []))
        (asked_host processors period_us slice_us)
        (asked_table parents.now weights.now limits.now demands.now)) result }
    ensures told { result ≡ 0 → IsFromRootTold (measure_of guaranteed)
        (groups_in (asked_host processors period_us slice_us)
        (asked_table parents.now weights.now limits.now demands.now))
        goals.now (flags_in may.now) tuned.new unmet.new }
    ensures tuned_kept { 0 < result → tuned.new ≡ tuned.old }
    ensures unmet_kept { 0 < result → unmet.new ≡ unmet.old }
{
    let fit = are_all(parents.len(), &[goals.len(), may.len(), tuned.len()]);
    let host = Host::new(processors, period_us, slice_us);
    let columns = Columns::new(parents, weights, limits, demands);
    let measure = measure_of(guaranteed);
    match from_root_of(alloc, &Request { fit, host, columns }, goals, may, measure) {
        Ok(found) => {
            tuned.copy_from_slice(found.weights.as_slice());
            *unmet = found.unmet;
            0
        }
        Err(refusal) => refusal.number(),
    }
}

/// The greatest limits of rows away from all goals with which weights meet the goals, of the rows
/// that [`crate::plan_calls::arbiter_plan`] has.
///
/// `goals`, `may` and `guaranteed` are those of [`crate::goal_calls::arbiter_tune`]. `lowest` has
/// the lowest limit in slices that each row may get. A number from the row's limit on, or from the
/// capacity on, keeps the row's limit. The root keeps its limit, and so does a row with a goal at,
/// above or below it.
///
/// If the answer is 0, and there are limits from the lowest on with which weights of rows that may
/// change meet all goals, `met` is 1. `limited` has the limits, of a row that keeps its own as
/// `limits` has it. `arbiter_tune` gives the weights for them. The limits are the greatest: one
/// level for all such rows, and then each row in row order from that level on. If there are no such
/// limits, `met` is 0 and `limited` is `limits`. A refusal leaves both unchanged.
///
/// # Errors
/// The numbers of `arbiter_plan`, with 50 also if a column does not have the rows' length.
#[unsafe(no_mangle)]
pub extern "C" fn arbiter_limit_others(
    alloc: Global,
    processors: u64,
    period_us: u64,
    slice_us: u64,
    parents: &[u32],
    weights: &[u64],
    limits: &[u64],
    demands: &[u64],
    goals: &[u64],
    may: &[u8],
    lowest: &[u64],
    guaranteed: u32,
    limited: &mut [u64],
    met: &mut u32,
) -> u32
    ensures number { Answers (asked_number_where
        (are_of_length (length parents.now)
        (goals.now ∷ may.now ∷ lowest.now ∷ limited.old ∷ []))
        (asked_host processors period_us slice_us)
        (asked_table parents.now weights.now limits.now demands.now)) result }
    ensures told { result ≡ 0 → AreOtherLimitsTold (measure_of guaranteed)
        (groups_in (asked_host processors period_us slice_us)
        (asked_table parents.now weights.now limits.now demands.now))
        goals.now (flags_in may.now) lowest.now limited.new met.new }
    ensures limited_kept { 0 < result → limited.new ≡ limited.old }
    ensures met_kept { 0 < result → met.new ≡ met.old }
{
    let fit = are_all(
        parents.len(),
        &[goals.len(), may.len(), lowest.len(), limited.len()],
    );
    let host = Host::new(processors, period_us, slice_us);
    let columns = Columns::new(parents, weights, limits, demands);
    let measure = measure_of(guaranteed);
    match other_limits_of(
        alloc,
        &Request { fit, host, columns },
        goals,
        may,
        lowest,
        measure,
    ) {
        Ok(found) => {
            limited.copy_from_slice(found.limits.as_slice());
            *met = found.met;
            0
        }
        Err(refusal) => refusal.number(),
    }
}
