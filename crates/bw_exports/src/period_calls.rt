//! Periods that are counted, one or many, called from C.
ghost use Rattle.std.specs.Prelude.{◌≡◌, ◌<◌, ◌==◌, ◌∷◌, [], length, ◌&&◌, ◌/◌};
ghost use Rattle.std.specs.List.{list_all};
ghost use Rattle.bw_columns.specs.Asked.{Answers, are_of_length, asked_host, asked_table};
ghost use Rattle.bw_columns.specs.Asked.{groups_in, asked_number_where};
ghost use Rattle.bw_columns.specs.Booked.{counter_columns, IsBookedPeriod};
ghost use Rattle.bw_columns.specs.Periods.{setting_columns, are_whole, IsPeriodsAnswer};
ghost use Rattle.bw_columns.specs.Periods.{AreToldSamples};
ghost use Rattle.bw_columns.specs.Tallies.{sum_columns};

use crate::fit::are_all;
use bw_columns::{Columns, CounterColumns, Host, Request, SettingColumns, booked_of, periods_of};
use std::alloc::Global;

/// Counts one period for each group, and gives what each carries into the next one.
///
/// The rows are those of [`crate::plan_calls::arbiter_plan`] of the period. `quotas` are in slices,
/// without what was carried in, the greatest number for none. `drawn` are the slices that each
/// group used, as the plan gives them.
///
/// If the answer is 0, `carries` has what each group left of its limit: 0 if it has none, or used
/// more. The other columns are its counters of `cpu.stat`, and one period is added to each:
///
/// - `usage_usec`: what it used.
/// - `nr_periods`: 1.
/// - `nr_throttled` and `throttled_usec`: whether it wanted more than its limit, and how much more.
/// - `nr_bursts` and `burst_usec`: whether it used more than its quota, and how much more.
///
/// The last four count nothing of the root. Each counter stops at the greatest number. A refusal
/// leaves each column unchanged.
///
/// # Errors
/// The numbers of `arbiter_plan`, with 50 also if a column does not have the rows' length.
#[unsafe(no_mangle)]
pub extern "C" fn arbiter_book(
    alloc: Global,
    processors: u64,
    period_us: u64,
    slice_us: u64,
    parents: &[u32],
    weights: &[u64],
    limits: &[u64],
    demands: &[u64],
    quotas: &[u64],
    drawn: &[u64],
    carries: &mut [u64],
    usage_usec: &mut [u64],
    nr_periods: &mut [u64],
    nr_throttled: &mut [u64],
    throttled_usec: &mut [u64],
    nr_bursts: &mut [u64],
    burst_usec: &mut [u64],
) -> u32
    ensures number { Answers (asked_number_where
        (are_of_length (length parents.now) (quotas.now ∷ drawn.now ∷ carries.old ∷ usage_usec.old
        ∷ nr_periods.old ∷ nr_throttled.old ∷ throttled_usec.old ∷ nr_bursts.old
        ∷ burst_usec.old ∷ []))
        (asked_host processors period_us slice_us)
        (asked_table parents.now weights.now limits.now demands.now)) result }
    ensures booked { result ≡ 0 → IsBookedPeriod
        (groups_in (asked_host processors period_us slice_us)
        (asked_table parents.now weights.now limits.now demands.now))
        quotas.now drawn.now carries.new
        (counter_columns usage_usec.old nr_periods.old nr_throttled.old throttled_usec.old
        nr_bursts.old burst_usec.old)
        (counter_columns usage_usec.new nr_periods.new nr_throttled.new throttled_usec.new
        nr_bursts.new burst_usec.new) }
    ensures carries_kept { 0 < result → carries.new ≡ carries.old }
    ensures usage_usec_kept { 0 < result → usage_usec.new ≡ usage_usec.old }
    ensures nr_periods_kept { 0 < result → nr_periods.new ≡ nr_periods.old }
    ensures nr_throttled_kept { 0 < result → nr_throttled.new ≡ nr_throttled.old }
    ensures throttled_usec_kept { 0 < result → throttled_usec.new ≡ throttled_usec.old }
    ensures nr_bursts_kept { 0 < result → nr_bursts.new ≡ nr_bursts.old }
    ensures burst_usec_kept { 0 < result → burst_usec.new ≡ burst_usec.old }
{
    let fit = are_all(
        parents.len(),
        &[
            quotas.len(),
            drawn.len(),
            carries.len(),
            usage_usec.len(),
            nr_periods.len(),
            nr_throttled.len(),
            throttled_usec.len(),
            nr_bursts.len(),
            burst_usec.len(),
        ],
    );
    let host = Host::new(processors, period_us, slice_us);
    let columns = Columns::new(parents, weights, limits, demands);
    let counters = CounterColumns::new(
        usage_usec,
        nr_periods,
        nr_throttled,
        throttled_usec,
        nr_bursts,
        burst_usec,
    );
    match booked_of(
        alloc,
        &Request { fit, host, columns },
        quotas,
        drawn,
        &counters,
    ) {
        Ok(booked) => {
            carries.copy_from_slice(booked.carries.as_slice());
            usage_usec.copy_from_slice(booked.usage_usec.as_slice());
            nr_periods.copy_from_slice(booked.nr_periods.as_slice());
            nr_throttled.copy_from_slice(booked.nr_throttled.as_slice());
            throttled_usec.copy_from_slice(booked.throttled_usec.as_slice());
            nr_bursts.copy_from_slice(booked.nr_bursts.as_slice());
            burst_usec.copy_from_slice(booked.burst_usec.as_slice());
            0
        }
        Err(refusal) => refusal.number(),
    }
}

// Whether there are cells of one sample or more of so many groups.
fn are_whole(cells: usize, width: usize) -> bool
    ensures { result ≡ are_whole cells width }
{
    width > 0 && cells > 0 && cells % width == 0
}

// Whether the columns of the groups are of one length, there are cells of one sample or more, and
// the columns of the samples have so many.
fn are_fit(count: usize, of_groups: &[usize], cells: usize, of_samples: &[usize]) -> bool
    ensures { result ≡ (list_all (λ length. length == count) of_groups.now
        && are_whole cells count
        && list_all (λ length. length == cells) of_samples.now) }
{
    are_all(count, of_groups) && are_whole(cells, count) && are_all(cells, of_samples)
}

/// Samples of periods one after another, of the groups that [`crate::plan_calls::arbiter_plan`]
/// has.
///
/// The host may have any number of processors, as [`crate::host_calls::arbiter_planned_host`] has
/// them. Quotas, own periods and bursts are those of [`crate::host_calls::arbiter_period_limit`].
/// `demands` has the slices of each group in the first sample, then in the next. A sample is
/// `times` periods of the same demands. `carries` are the slices of each limit that the last period
/// before left.
///
/// In each period a group's limit is that of `arbiter_period_limit` after the carry, its amount
/// that of `arbiter_plan`, and its counters and carry are those of
/// [`crate::period_calls::arbiter_book`]. The check has accepted each plan.
///
/// If the answer is 0, `carries` are those after the last period. The other columns have sums over
/// the periods of each sample, in slices, microseconds (`usec`) or periods (`nr`). Each sum stops
/// at the greatest number, which is also the sum of no limits. A refusal leaves each unchanged.
///
/// # Errors
/// 50 if the columns of the groups differ in length, if `demands` is not of one sample or more, or
/// if a column of the answer does not have its length. Then the numbers of `arbiter_planned_host`.
/// Then 13 to 15 of the first group whose settings are refused, and then 4 to 10 of the rows of the
/// first sample.
#[unsafe(no_mangle)]
pub extern "C" fn arbiter_periods(
    alloc: Global,
    processors: u64,
    period_us: u64,
    slice_us: u64,
    parents: &[u32],
    weights: &[u64],
    quotas: &[u64],
    periods: &[u64],
    bursts: &[u64],
    demands: &[u64],
    times: u64,
    carries: &mut [u64],
    amounts: &mut [u64],
    wants: &mut [u64],
    limits: &mut [u64],
    nr_throttled: &mut [u64],
    throttled_usec: &mut [u64],
    nr_bursts: &mut [u64],
    burst_usec: &mut [u64],
    nr_short: &mut [u64],
    nr_starved: &mut [u64],
) -> u32
    ensures number { IsPeriodsAnswer
        (are_of_length (length parents.now) (weights.now ∷ quotas.now ∷ periods.now ∷ bursts.now
        ∷ carries.old ∷ [])
        && are_whole (length demands.now) (length parents.now)
        && are_of_length (length demands.now) (amounts.old ∷ wants.old ∷ limits.old
        ∷ nr_throttled.old ∷ throttled_usec.old ∷ nr_bursts.old ∷ burst_usec.old ∷ nr_short.old
        ∷ nr_starved.old ∷ []))
        (asked_host processors period_us slice_us)
        (setting_columns parents.now weights.now quotas.now periods.now bursts.now)
        (length demands.now / length parents.now) demands.now result }
    ensures told { result ≡ 0 → AreToldSamples (asked_host processors period_us slice_us)
        (setting_columns parents.now weights.now quotas.now periods.now bursts.now) times
        demands.now carries.old carries.new
        (sum_columns amounts.new wants.new limits.new nr_throttled.new throttled_usec.new
        nr_bursts.new burst_usec.new nr_short.new nr_starved.new) }
    ensures carries_kept { 0 < result → carries.new ≡ carries.old }
    ensures amounts_kept { 0 < result → amounts.new ≡ amounts.old }
    ensures wants_kept { 0 < result → wants.new ≡ wants.old }
    ensures limits_kept { 0 < result → limits.new ≡ limits.old }
    ensures nr_throttled_kept { 0 < result → nr_throttled.new ≡ nr_throttled.old }
    ensures throttled_usec_kept { 0 < result → throttled_usec.new ≡ throttled_usec.old }
    ensures nr_bursts_kept { 0 < result → nr_bursts.new ≡ nr_bursts.old }
    ensures burst_usec_kept { 0 < result → burst_usec.new ≡ burst_usec.old }
    ensures nr_short_kept { 0 < result → nr_short.new ≡ nr_short.old }
    ensures nr_starved_kept { 0 < result → nr_starved.new ≡ nr_starved.old }
{
    let of_groups = [
        weights.len(),
        quotas.len(),
        periods.len(),
        bursts.len(),
        carries.len(),
    ];
    let of_samples = [
        amounts.len(),
        wants.len(),
        limits.len(),
        nr_throttled.len(),
        throttled_usec.len(),
        nr_bursts.len(),
        burst_usec.len(),
        nr_short.len(),
        nr_starved.len(),
    ];
    let fit = are_fit(parents.len(), &of_groups, demands.len(), &of_samples);
    let host = Host::new(processors, period_us, slice_us);
    let settings = SettingColumns::new(parents, weights, quotas, periods, bursts);
    match periods_of(alloc, fit, host, &settings, demands, times, carries) {
        Ok(found) => {
            carries.copy_from_slice(found.carries.as_slice());
            amounts.copy_from_slice(found.sums.amounts.as_slice());
            wants.copy_from_slice(found.sums.wants.as_slice());
            limits.copy_from_slice(found.sums.limits.as_slice());
            nr_throttled.copy_from_slice(found.sums.nr_throttled.as_slice());
            throttled_usec.copy_from_slice(found.sums.throttled_usec.as_slice());
            nr_bursts.copy_from_slice(found.sums.nr_bursts.as_slice());
            burst_usec.copy_from_slice(found.sums.burst_usec.as_slice());
            nr_short.copy_from_slice(found.sums.nr_short.as_slice());
            nr_starved.copy_from_slice(found.sums.nr_starved.as_slice());
            0
        }
        Err(refusal) => refusal.number(),
    }
}
