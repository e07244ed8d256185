//! The plan, one row after another from the root down.
ghost use Rattle.std.specs.Prelude.{◌+◌, ◌*◌, ◌≤◌, length, IfOk};
ghost use Rattle.bw_demand.specs.Demands.{demands_of, IsGathered};
ghost use Rattle.bw_model.specs.Plan.{IsPlan};
ghost use Rattle.bw_plan.specs.Cost.{wide_groups};

use crate::plan_type::Plan;
use crate::share::share_out;
use bw_demand::{Gathered, gather_rows};
use bw_model::Instance;
use bw_split::Work;
use bw_split::limits::MAX_ROUNDS;
use std::alloc::{AllocError, Global};

/// The one plan of an instance, in slices of one period.
///
/// Of all allocations within demands, limits and the capacity it has the greatest total, and is the
/// best split at every group. Each group's children are looked at once. So the time grows as
/// gathering and the splits do.
///
/// # Errors
/// `AllocError` if memory was refused.
pub fn plan(alloc: Global, instance: &Instance) -> Result<Plan, AllocError>
    ensures { IfOk result (λ plan. IsPlan instance.now plan.amounts.items) }
{
    plan_counted(alloc, instance, &mut Work::new())
}

/// [`plan`], with the rounds and picks of its splits added to a count.
///
/// There are at most [`MAX_ROUNDS`] rounds for each group with more than two children, and none for
/// another. There is at most one pick for each row.
///
/// # Errors
/// `AllocError` if memory was refused.
pub fn plan_counted(alloc: Global, instance: &Instance, work: &mut Work) -> Result<Plan, AllocError>
    ensures plan { IfOk result (λ plan. IsPlan instance.now plan.amounts.items) }
    ensures rounds { work.new.rounds
        ≤ work.old.rounds + MAX_ROUNDS * wide_groups instance.now.rows }
    ensures picks { work.new.picks ≤ work.old.picks + length instance.now.rows }
    ensures counted { (work.old.rounds ≤ work.new.rounds) × (work.old.picks ≤ work.new.picks) }
{
    let gathered = gather_rows(alloc, instance)?;
    plan_rows_counted(alloc, instance, &gathered, work)
}

/// [`plan`] for a caller that has gathered the demands.
///
/// # Errors
/// `AllocError` if memory was refused.
pub fn plan_rows(
    alloc: Global,
    instance: &Instance,
    gathered: &Gathered,
) -> Result<Plan, AllocError>
    requires { IsGathered instance.now (demands_of gathered.now) }
    ensures { IfOk result (λ plan. IsPlan instance.now plan.amounts.items) }
{
    plan_rows_counted(alloc, instance, gathered, &mut Work::new())
}

/// [`plan_counted`] for a caller that has gathered the demands.
///
/// # Errors
/// `AllocError` if memory was refused.
pub fn plan_rows_counted(
    alloc: Global,
    instance: &Instance,
    gathered: &Gathered,
    work: &mut Work,
) -> Result<Plan, AllocError>
    requires { IsGathered instance.now (demands_of gathered.now) }
    ensures plan { IfOk result (λ plan. IsPlan instance.now plan.amounts.items) }
    ensures rounds { work.new.rounds
        ≤ work.old.rounds + MAX_ROUNDS * wide_groups instance.now.rows }
    ensures picks { work.new.picks ≤ work.old.picks + length instance.now.rows }
    ensures counted { (work.old.rounds ≤ work.new.rounds) × (work.old.picks ≤ work.new.picks) }
{
    let count = instance.rows().len();
    let mut amounts = vec![in alloc; 0u64; count]?;
    amounts[0] = gathered.most[0];
    for g in 0..count {
        let most = gathered.most.as_slice();
        share_out(alloc, instance, most, g as u32, &mut amounts, work)?;
    }
    Ok(Plan { amounts })
}
