//! The instance of a call that asks about one group.
ghost use Rattle.std.specs.Prelude.{◌≡◌, ◌<◌, length, IfOk, IfErr, OnOk};
ghost use Rattle.bw_columns.specs.Asked.{groups_asked, Answers};
ghost use Rattle.bw_columns.specs.Numbers.{number_of_refusal};
ghost use Rattle.bw_columns.specs.Questions.{question_refusal_of};

use crate::asked_instance::{Host, instance_of};
use crate::columns::Columns;
use crate::refusal::Refusal;
use bw_model::Instance;
use std::alloc::Global;

/// The instance of a host and its rows, of which the group is one.
///
/// # Errors
/// The refusals of [`instance_of`], then `NotFound` if the group is no row.
pub(crate) fn instance_with(
    alloc: Global,
    host: Host,
    columns: &Columns<'_>,
    group: u32,
) -> Result<Instance, Refusal>
    ensures groups { IfOk result (λ i. i ≡ groups_asked host columns.now) }
    ensures within { IfOk result (λ i. group < length i.rows) }
    ensures none { OnOk result (question_refusal_of host columns.now group ≡ 0) }
    ensures err { IfErr result
        (λ e. Answers (question_refusal_of host columns.now group) (number_of_refusal e)) }
{
    let instance = instance_of(alloc, host, columns)?;
    if group as usize >= instance.rows().len() {
        return Err(Refusal::NotFound);
    }
    Ok(instance)
}
