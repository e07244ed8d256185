//! The figures of a host and its rows.
ghost use Rattle.std.specs.Prelude.{IfOk};
ghost use Rattle.bw_columns.specs.Figured.{AreFigured, AreFiguresLong};
ghost use Rattle.bw_columns.specs.Requests.{IsReplyTo, groups_for, row_count};

use crate::asked_instance::Request;
use crate::certificate::flag_numbers;
use crate::refusal::Refusal;
use bw_demand::{Figures, figures, gather_rows};
use std::alloc::Global;

/// Gathered demands with their figures, one entry in each column for each row.
#[derive(Drop)]
pub struct FigureColumns {
    /// The amount that each group would take without its own limit, in slices of one period.
    pub wants: Vec<u64>,
    /// The most that each group can be given, in slices of one period.
    pub mosts: Vec<u64>,
    /// 1 if a group's own limit is below its want, else 0.
    pub tights: Vec<u8>,
    /// The figures of these demands.
    pub figures: Figures,
}

/// The figures of a host and its rows.
///
/// # Errors
/// The refusals of [`Request::instance`].
pub fn figures_of(alloc: Global, request: &Request<'_>) -> Result<FigureColumns, Refusal>
    ensures held { IfOk result (AreFigured (groups_for request.now)) }
    ensures long { IfOk result (λ f. AreFiguresLong f (row_count request.now)) }
    ensures reply { IsReplyTo request.now result }
{
    let instance = request.instance(alloc)?;
    let gathered = gather_rows(alloc, &instance)?;
    Ok(FigureColumns {
        tights: flag_numbers(alloc, gathered.tight.as_slice())?,
        figures: figures(alloc, &instance, &gathered)?,
        wants: gathered.want,
        mosts: gathered.most,
    })
}
