//! The questions about one group of a host and its rows, each with a number for its answer.
ghost use Rattle.std.specs.Prelude.{◌≡◌, ◌<◌, length, IfOk, IfErr, OnOk};
ghost use Rattle.bw_columns.specs.Asked.{groups_asked, Answers};
ghost use Rattle.bw_columns.specs.Numbers.{number_of_refusal};
ghost use Rattle.bw_columns.specs.Questions.{own_number, refusal_of_question};
ghost use Rattle.bw_columns.specs.Questions.{IsAnswer};

use crate::asked_group::instance_with;
use crate::asked_instance::Host;
use crate::columns::{Columns, limit_number};
use crate::refusal::Refusal;
use bw_machine::Count;
use bw_model::{Instance, InstanceFault};
use bw_questions::{guarantee, least_limit, least_processors, least_weight};
use std::alloc::{AllocError, Global};

/// A question about a group. An amount is in slices of one period.
#[derive(Clone, Copy)]
pub enum Question {
    /// The amount that the group gets whatever the groups that are not under it ask for.
    Guarantee,
    /// The least weight that gives it an amount, 0 for none.
    LeastWeight(u64),
    /// The least limit that gives it an amount, the number of no limit for none.
    LeastLimit(u64),
    /// The least number of processors that gives it an amount, 0 for none.
    LeastProcessors(u64),
}

// The least limit of a group below the root, as a number.
fn least_limit_in(
    alloc: Global,
    instance: &Instance,
    group: u32,
    amount: u64,
) -> Result<u64, Refusal>
    requires { group < length instance.now.rows }
    ensures answer { IfOk result (IsAnswer instance.now group (Question.LeastLimit amount)) }
    ensures none { OnOk result (own_number group (Question.LeastLimit amount) ≡ 0) }
    ensures err { IfErr result
        (λ e. Answers (own_number group (Question.LeastLimit amount)) (number_of_refusal e)) }
{
    if group == 0 {
        return Err(Refusal::Instance(InstanceFault::RootLimited));
    }
    let limit = least_limit(alloc, instance, group, amount, &mut Count::none())?;
    Ok(limit_number(limit))
}

// The answer of an instance to a question about one of its groups.
fn answer_in(
    alloc: Global,
    instance: &Instance,
    group: u32,
    question: Question,
) -> Result<u64, Refusal>
    requires { group < length instance.now.rows }
    ensures answer { IfOk result (IsAnswer instance.now group question) }
    ensures none { OnOk result (own_number group question ≡ 0) }
    ensures err { IfErr result (λ e. Answers (own_number group question) (number_of_refusal e)) }
{
    match question {
        Question::Guarantee => match guarantee(alloc, instance, group) {
            Ok(amount) => Ok(amount),
            // the group is a row
            Err(_) => Err(Refusal::from(AllocError)),
        },
        Question::LeastWeight(amount) => {
            let weight = least_weight(alloc, instance, group, amount, &mut Count::none())?;
            Ok(weight.unwrap_or(0))
        }
        Question::LeastLimit(amount) => least_limit_in(alloc, instance, group, amount),
        Question::LeastProcessors(amount) => {
            let processors = least_processors(alloc, instance, group, amount, &mut Count::none())?;
            Ok(processors.unwrap_or(0))
        }
    }
}

/// The answer of a host and its rows to a question about a group.
///
/// # Errors
/// The refusals of [`instance_of`], then `NotFound` if the group is no row. `RootLimited` if the
/// limit of the root is asked for.
pub fn answer_of(
    alloc: Global,
    host: Host,
    columns: &Columns<'_>,
    group: u32,
    question: Question,
) -> Result<u64, Refusal>
    ensures answer { IfOk result (IsAnswer (groups_asked host columns.now) group question) }
    ensures none { OnOk result (refusal_of_question host columns.now group question ≡ 0) }
    ensures err { IfErr result (λ e. Answers
        (refusal_of_question host columns.now group question) (number_of_refusal e)) }
{
    let instance = instance_with(alloc, host, columns, group)?;
    answer_in(alloc, &instance, group, question)
}
