//! Goals of a host and its rows beside those of others, and what they come to up the tree.
ghost use Rattle.std.specs.Prelude.{◌≡◌, true, length, IfOk};
ghost use Rattle.bw_columns.specs.Requests.{IsReplyTo, groups_for, row_count};
ghost use Rattle.bw_columns.specs.Goals.{AreGoalsLong, AreGoalsTold};

use crate::asked_instance::Request;
use crate::refusal::Refusal;
use bw_questions::{Measure, goal_sums, halves_kept};
use std::alloc::Global;

/// Goals in slices of one period, one entry in each column for each row.
#[derive(Drop)]
pub struct GoalColumns {
    /// The goals, where each of the others is to keep half of what it has.
    pub kept: Vec<u64>,
    /// The sums of goals: of those at each row and below it.
    pub come_to: Vec<u64>,
}

/// Goals of a host and its rows beside those of others, and what they come to up the tree.
///
/// `goals` has the least slices that each row is to get by the measure, 0 for none.
///
/// # Errors
/// The refusals of [`Request::instance`].
pub fn goals_of(
    alloc: Global,
    request: &Request<'_>,
    goals: &[u64],
    measure: Measure,
) -> Result<GoalColumns, Refusal>
    requires { request.now.fit ≡ true → length goals.now ≡ row_count request.now }
    ensures told { IfOk result (λ t. AreGoalsTold measure (groups_for request.now)
        goals.now t.kept.items t.come_to.items) }
    ensures long { IfOk result (λ t. AreGoalsLong t (row_count request.now)) }
    ensures reply { IsReplyTo request.now result }
{
    let instance = request.instance(alloc)?;
    let kept = halves_kept(alloc, &instance, goals, measure)?;
    let come_to = goal_sums(alloc, &instance, goals)?;
    Ok(GoalColumns { kept, come_to })
}
