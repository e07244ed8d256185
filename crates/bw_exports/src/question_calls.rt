//! The least that a group gets, and the least values that give it an amount, called from C.
ghost use Rattle.std.specs.Prelude.{◌≡◌, ◌<◌};
ghost use Rattle.bw_columns.specs.Asked.{groups_asked, Answers, asked_host, asked_table, groups_in};
ghost use Rattle.bw_columns.specs.Questions.{refusal_of_question, IsAnswer, question_number};
ghost use Rattle.bw_columns.specs.Questions.{IsLeastWeightNumber, limit_question_number};
ghost use Rattle.bw_columns.specs.Questions.{IsLeastLimitNumber, IsLeastProcessorsNumber};
ghost use Rattle.bw_questions.specs.Guarantee.{IsGuaranteed};

use bw_columns::{Columns, Host, Question, answer_of};
use std::alloc::Global;

// Answers a question: 0, with the answer written, or the number of a refusal, which writes nothing.
fn ask(
    alloc: Global,
    host: Host,
    columns: &Columns<'_>,
    group: u32,
    question: Question,
    answer: &mut u64,
) -> u32
    ensures number { Answers (refusal_of_question host columns.now group question) result }
    ensures answer { result ≡ 0
        → IsAnswer (groups_asked host columns.now) group question answer.new }
    ensures kept { 0 < result → answer.new ≡ answer.old }
{
    match answer_of(alloc, host, columns, group, question) {
        Ok(found) => {
            *answer = found;
            0
        }
        Err(refusal) => refusal.number(),
    }
}

/// The amount that a group is guaranteed, in slices of one period: 0 to 64000.
///
/// The rows are those of [`crate::plan_calls::arbiter_plan`]. The group gets no less, whatever the
/// groups that are not under it ask for, and for some demands of theirs it gets no more. All else
/// is as the rows say.
///
/// The answer is 0 if `amount` is written. A refusal leaves it unchanged.
///
/// # Errors
/// The numbers of `arbiter_plan`, and after those of the rows 20 if the group is no row.
#[unsafe(no_mangle)]
pub extern "C" fn arbiter_guarantee(
    alloc: Global,
    processors: u64,
    period_us: u64,
    slice_us: u64,
    parents: &[u32],
    weights: &[u64],
    limits: &[u64],
    demands: &[u64],
    group: u32,
    amount: &mut u64,
) -> u32
    ensures number { Answers (question_number (asked_host processors period_us slice_us)
        (asked_table parents.now weights.now limits.now demands.now) group) result }
    ensures guaranteed { result ≡ 0
        → IsGuaranteed (groups_in (asked_host processors period_us slice_us)
        (asked_table parents.now weights.now limits.now demands.now)) group amount.new }
    ensures kept { 0 < result → amount.new ≡ amount.old }
{
    let host = Host::new(processors, period_us, slice_us);
    let columns = Columns::new(parents, weights, limits, demands);
    ask(alloc, host, &columns, group, Question::Guarantee, amount)
}

/// The least weight, 1 to 10000, with which the plan gives a group at least so many slices.
///
/// The rows are those of [`crate::plan_calls::arbiter_plan`], and all but the weight of the group
/// is as they say. The weight is 0 if no weight reaches the amount. It makes at most 14 plans.
///
/// The answer is 0 if `weight` is written. A refusal leaves it unchanged.
///
/// # Errors
/// The numbers of `arbiter_plan`, and after those of the rows 20 if the group is no row.
#[unsafe(no_mangle)]
pub extern "C" fn arbiter_least_weight(
    alloc: Global,
    processors: u64,
    period_us: u64,
    slice_us: u64,
    parents: &[u32],
    weights: &[u64],
    limits: &[u64],
    demands: &[u64],
    group: u32,
    amount: u64,
    weight: &mut u64,
) -> u32
    ensures number { Answers (question_number (asked_host processors period_us slice_us)
        (asked_table parents.now weights.now limits.now demands.now) group) result }
    ensures least { result ≡ 0
        → IsLeastWeightNumber (groups_in (asked_host processors period_us slice_us)
        (asked_table parents.now weights.now limits.now demands.now)) group amount weight.new }
    ensures kept { 0 < result → weight.new ≡ weight.old }
{
    let host = Host::new(processors, period_us, slice_us);
    let columns = Columns::new(parents, weights, limits, demands);
    ask(
        alloc,
        host,
        &columns,
        group,
        Question::LeastWeight(amount),
        weight,
    )
}

/// The least limit, in slices of one period, with which the plan gives a group at least so many
/// slices.
///
/// The rows are those of [`crate::plan_calls::arbiter_plan`], and all but the limit of the group is
/// as they say. The limit is the number of no limit if none reaches the amount, nor does the group
/// without one. It makes one plan.
///
/// The answer is 0 if `limit` is written. A refusal leaves it unchanged.
///
/// # Errors
/// The numbers of `arbiter_plan`, and after those of the rows 20 if the group is no row. 10 if it
/// is the root, which has no limit but the capacity.
#[unsafe(no_mangle)]
pub extern "C" fn arbiter_least_limit(
    alloc: Global,
    processors: u64,
    period_us: u64,
    slice_us: u64,
    parents: &[u32],
    weights: &[u64],
    limits: &[u64],
    demands: &[u64],
    group: u32,
    amount: u64,
    limit: &mut u64,
) -> u32
    ensures number { Answers (limit_question_number (asked_host processors period_us slice_us)
        (asked_table parents.now weights.now limits.now demands.now) group) result }
    ensures least { result ≡ 0
        → IsLeastLimitNumber (groups_in (asked_host processors period_us slice_us)
        (asked_table parents.now weights.now limits.now demands.now)) group amount limit.new }
    ensures kept { 0 < result → limit.new ≡ limit.old }
{
    let host = Host::new(processors, period_us, slice_us);
    let columns = Columns::new(parents, weights, limits, demands);
    ask(
        alloc,
        host,
        &columns,
        group,
        Question::LeastLimit(amount),
        limit,
    )
}

/// The least number of processors, 1 to 64, with which the plan gives a group at least so many
/// slices.
///
/// The rows are those of [`crate::plan_calls::arbiter_plan`], and all but the number of processors
/// is as called: period, slice and rows. The host's own number has to be one that is not refused,
/// and changes nothing. The least number is 0 if none reaches the amount. It makes at most 7 plans.
///
/// The answer is 0 if `least` is written. A refusal leaves it unchanged.
///
/// # Errors
/// The numbers of `arbiter_plan`, and after those of the rows 20 if the group is no row.
#[unsafe(no_mangle)]
pub extern "C" fn arbiter_least_processors(
    alloc: Global,
    processors: u64,
    period_us: u64,
    slice_us: u64,
    parents: &[u32],
    weights: &[u64],
    limits: &[u64],
    demands: &[u64],
    group: u32,
    amount: u64,
    least: &mut u64,
) -> u32
    ensures number { Answers (question_number (asked_host processors period_us slice_us)
        (asked_table parents.now weights.now limits.now demands.now) group) result }
    ensures least { result ≡ 0
        → IsLeastProcessorsNumber (groups_in (asked_host processors period_us slice_us)
        (asked_table parents.now weights.now limits.now demands.now)) group amount least.new }
    ensures kept { 0 < result → least.new ≡ least.old }
{
    let host = Host::new(processors, period_us, slice_us);
    let columns = Columns::new(parents, weights, limits, demands);
    ask(
        alloc,
        host,
        &columns,
        group,
        Question::LeastProcessors(amount),
        least,
    )
}
