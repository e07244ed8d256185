//! The plan of a host and its rows.
ghost use Rattle.std.specs.Prelude.{◌≡◌, length, IfOk};
ghost use Rattle.bw_model.specs.Plan.{IsPlan};
ghost use Rattle.bw_columns.specs.Requests.{IsReplyTo, groups_for, row_count};

use crate::asked_instance::Request;
use crate::refusal::Refusal;
use bw_plan::{Plan, plan};
use std::alloc::Global;

/// The plan of a host and its rows.
///
/// # Errors
/// The refusals of [`Request::instance`].
pub fn plan_of(alloc: Global, request: &Request<'_>) -> Result<Plan, Refusal>
    ensures plan { IfOk result (λ p. IsPlan (groups_for request.now) p.amounts.items) }
    ensures long { IfOk result (λ p. length p.amounts.items ≡ row_count request.now) }
    ensures reply { IsReplyTo request.now result }
{
    let instance = request.instance(alloc)?;
    Ok(plan(alloc, &instance)?)
}
