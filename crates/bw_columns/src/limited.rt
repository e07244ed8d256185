//! The groups that limit the total of a host and its rows.
ghost use Rattle.std.specs.Prelude.{◌≤◌, length, IfOk};
ghost use Rattle.bw_model.specs.declared.limits.TheConstants.{MAX_GROUPS};
ghost use Rattle.bw_columns.specs.Limited.{IsLimiting};
ghost use Rattle.bw_columns.specs.Requests.{IsReplyTo, groups_for, row_count};

use crate::asked_instance::Request;
use crate::refusal::Refusal;
use bw_demand::{Limiting, gather_rows, limiting};
use std::alloc::Global;

/// The limiting groups of a host and its rows.
///
/// # Errors
/// The refusals of [`Request::instance`].
pub fn limiting_of(alloc: Global, request: &Request<'_>) -> Result<Limiting, Refusal>
    ensures limiting { IfOk result
        (λ l. IsLimiting (groups_for request.now) l.groups.items l.rest) }
    ensures short { IfOk result (λ l. length l.groups.items ≤ row_count request.now) }
    ensures few { IfOk result (λ l. length l.groups.items ≤ MAX_GROUPS) }
    ensures reply { IsReplyTo request.now result }
{
    let instance = request.instance(alloc)?;
    let gathered = gather_rows(alloc, &instance)?;
    Ok(limiting(alloc, &instance, &gathered)?)
}
