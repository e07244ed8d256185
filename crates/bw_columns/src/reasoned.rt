//! The reasons of the plan of a host and its rows.
ghost use Rattle.std.specs.Prelude.{◌≡◌, length, IfOk};
ghost use Rattle.bw_columns.specs.Reasoned.{AreReasonColumns};
ghost use Rattle.bw_columns.specs.Requests.{IsReplyTo, groups_for, row_count};

use crate::asked_instance::Request;
use crate::reason_columns::{blamed_rows, reason_numbers};
use crate::refusal::Refusal;
use bw_demand::gather_rows;
use bw_plan::plan_rows;
use bw_questions::reasons;
use std::alloc::Global;

/// Reasons, one entry in each column for each row.
#[derive(Drop)]
pub struct ReasonColumns {
    /// The number of each reason, 0 to 4.
    pub numbers: Vec<u8>,
    /// The row that each reason blames.
    pub blamed: Vec<u32>,
}

/// The reasons of the plan of a host and its rows.
///
/// # Errors
/// The refusals of [`Request::instance`].
pub fn reasons_of(alloc: Global, request: &Request<'_>) -> Result<ReasonColumns, Refusal>
    ensures held { IfOk result
        (λ r. AreReasonColumns (groups_for request.now) r.numbers.items r.blamed.items) }
    ensures numbers { IfOk result
        (λ r. length r.numbers.items ≡ row_count request.now) }
    ensures blamed { IfOk result (λ r. length r.blamed.items ≡ row_count request.now) }
    ensures reply { IsReplyTo request.now result }
{
    let instance = request.instance(alloc)?;
    let gathered = gather_rows(alloc, &instance)?;
    let planned = plan_rows(alloc, &instance, &gathered)?;
    let found = reasons(alloc, &instance, &gathered, &planned)?;
    let each = found.as_slice();
    Ok(ReasonColumns {
        numbers: reason_numbers(alloc, each)?,
        blamed: blamed_rows(alloc, each)?,
    })
}
