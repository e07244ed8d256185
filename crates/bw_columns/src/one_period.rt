//! One period of a host, after the carries of the one before.
ghost use Rattle.std.specs.Prelude.{◌≡◌, ◌<◌, ℕ, length, map, IfOk, slice_index};
ghost use Rattle.std.specs.List.{range_with_len};
ghost use Rattle.bw_model.specs.Groups.{row_of};
ghost use Rattle.bw_model.specs.Plan.{IsPlan};
ghost use Rattle.bw_check.specs.declared.verdict.Verdict.TheVariants.{Accepted};
ghost use Rattle.bw_demand.specs.Demands.{demands_of, IsGathered};
ghost use Rattle.bw_columns.specs.Tallies.{tally_of};
ghost use Rattle.bw_columns.specs.Periods.{limit_with, period_row, period_rows, IsToldPeriod};

use crate::booked::carries_after;
use crate::tally::Tally;
use bw_cert::certify_gathered;
use bw_check::{Verdict, check};
use bw_demand::{Gathered, gather_rows};
use bw_machine::Count;
use bw_model::{Instance, Row};
use bw_plan::{Plan, plan_rows};
use std::alloc::{AllocError, Global};

/// The numbers of each group in one period, and the slices that each leaves of its limit.
#[derive(Drop)]
pub(crate) struct OnePeriod {
    pub tallies: Vec<Tally>,
    pub carries: Vec<u64>,
}

// The limit of a period: the quota and the carry, at most the quota and the burst.
fn limit_with(carry: u64, most: u64, quota: Option<u64>) -> Option<u64>
    ensures { result ≡ limit_with carry most quota }
{
    match quota {
        None => None,
        Some(quota) => Some(carry.saturating_add(quota).min(most)),
    }
}

// The row of a group in a period.
fn period_row(row: &Row, most: u64, carry: u64) -> Row
    ensures { result ≡ record {
      parent = row.now.parent;
      weight = row.now.weight;
      limit = limit_with carry most row.now.limit;
      demand = row.now.demand;
    } }
{
    Row {
        limit: limit_with(carry, most, row.limit),
        ..*row
    }
}

// The rows of a period.
fn period_rows(
    alloc: Global,
    asked: &[Row],
    mosts: &[u64],
    carries: &[u64],
) -> Result<Vec<Row>, AllocError>
    requires mosts { length mosts.now ≡ length asked.now }
    requires carries { length carries.now ≡ length asked.now }
    ensures { IfOk result (λ rows. rows.items ≡ period_rows asked.now mosts.now carries.now) }
{
    let mut rows = Vec::with_capacity(alloc, asked.len())?;
    for g in 0..asked.len() {
        rows.push(period_row(&asked[g], mosts[g], carries[g]))?;
    }
    Ok(rows)
}

// The numbers of each group.
fn tallies_of(
    alloc: Global,
    slice_us: u64,
    asked: &[Row],
    rows: &[Row],
    wants: &[u64],
    amounts: &[u64],
) -> Result<Vec<Tally>, AllocError>
    requires rows { length rows.now ≡ length asked.now }
    requires wants { length wants.now ≡ length asked.now }
    requires amounts { length amounts.now ≡ length asked.now }
    ensures { IfOk result (λ t. t.items ≡ map
        (λ g. tally_of slice_us (row_of rows.now g) (row_of asked.now g).limit
        (slice_index wants.now g) (slice_index amounts.now g))
        (range_with_len 0 (length asked.now))) }
{
    let mut tallies = Vec::with_capacity(alloc, asked.len())?;
    for g in 0..asked.len() {
        let quota = asked[g].limit;
        tallies.push(Tally::of_period(slice_us, &rows[g], quota, wants[g], amounts[g]))?;
    }
    Ok(tallies)
}

// The verdict of the check on a plan, by its certificate.
fn accepted(
    alloc: Global,
    instance: &Instance,
    gathered: Gathered,
    plan: &Plan,
) -> Result<Verdict, AllocError>
    requires gathered { IsGathered instance.now (demands_of gathered) }
    requires plan { IsPlan instance.now plan.now.amounts.items }
    ensures { IfOk result (λ verdict. verdict ≡ Accepted) }
{
    let certificate = certify_gathered(alloc, instance, gathered, plan)?;
    let amounts = plan.amounts.as_slice();
    match check(alloc, instance, amounts, &certificate, &mut Count::none())? {
        Verdict::Accepted => Ok(Verdict::Accepted),
        Verdict::Refused { .. } => unreachable!(),
    }
}

/// One period of groups whose rows have their quotas as limits. The check has accepted its plan.
///
/// `mosts` are quotas and bursts in slices, and `carries` the slices of each limit that the period
/// before left.
///
/// # Errors
/// `AllocError` if an allocation failed.
pub(crate) fn period_of(
    alloc: Global,
    asked: &Instance,
    slice_us: u64,
    mosts: &[u64],
    carries: &[u64],
) -> Result<OnePeriod, AllocError>
    requires mosts { length mosts.now ≡ length asked.now.rows }
    requires carries { length carries.now ≡ length asked.now.rows }
    ensures { IfOk result (λ p. IsToldPeriod asked.now.shape slice_us asked.now.rows mosts.now
        carries.now p.tallies.items p.carries.items) }
{
    let quotas = asked.rows();
    let rows = period_rows(alloc, quotas, mosts, carries)?;
    let instance = Instance::of_valid(alloc, rows, asked.shape())?;
    let gathered = gather_rows(alloc, &instance)?;
    let plan = plan_rows(alloc, &instance, &gathered)?;
    let wants = gathered.want.as_slice();
    let amounts = plan.amounts.as_slice();
    let tallies = tallies_of(alloc, slice_us, quotas, instance.rows(), wants, amounts)?;
    let carries = carries_after(alloc, &instance, amounts)?;
    accepted(alloc, &instance, gathered, &plan)?;
    Ok(OnePeriod { tallies, carries })
}
