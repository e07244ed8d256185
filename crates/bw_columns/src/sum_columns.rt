//! The numbers of the groups over samples, by column.
ghost use Rattle.std.specs.Prelude.{◌≡◌, length, map, IfOk};
ghost use Rattle.bw_columns.specs.Tallies.{AreSums, AreSumsLong, sums_in};

use crate::tally::Tally;
use std::alloc::{AllocError, Global};

/// Numbers of each group in each sample, and the slices of each limit that the last period left.
#[derive(Drop)]
pub struct SumColumns {
    /// Slices that the group was given.
    pub amounts: Vec<u64>,
    /// Slices that it wanted.
    pub wants: Vec<u64>,
    /// Slices of its limits, the greatest number for none.
    pub limits: Vec<u64>,
    /// Periods in which it wanted more than its limit.
    pub nr_throttled: Vec<u64>,
    /// Microseconds wanted above its limit.
    pub throttled_usec: Vec<u64>,
    /// Periods in which it was given more than its quota.
    pub nr_bursts: Vec<u64>,
    /// Microseconds given above its quota.
    pub burst_usec: Vec<u64>,
    /// Periods in which it wanted more than its limit, and was given less than that.
    pub nr_short: Vec<u64>,
    /// Periods in which it wanted something, and was given nothing.
    pub nr_starved: Vec<u64>,
}

fn amounts(alloc: Global, tallies: &[Tally]) -> Result<Vec<u64>, AllocError>
    ensures { IfOk result (λ v. v.items ≡ map (λ t. t.amount) tallies.now) }
{
    tallies.iter().map(|tally| tally.amount).collect(alloc)
}

fn wants(alloc: Global, tallies: &[Tally]) -> Result<Vec<u64>, AllocError>
    ensures { IfOk result (λ v. v.items ≡ map (λ t. t.want) tallies.now) }
{
    tallies.iter().map(|tally| tally.want).collect(alloc)
}

fn limits(alloc: Global, tallies: &[Tally]) -> Result<Vec<u64>, AllocError>
    ensures { IfOk result (λ v. v.items ≡ map (λ t. t.limit) tallies.now) }
{
    tallies.iter().map(|tally| tally.limit).collect(alloc)
}

fn throttled_periods(alloc: Global, tallies: &[Tally]) -> Result<Vec<u64>, AllocError>
    ensures { IfOk result (λ v. v.items ≡ map (λ t. t.nr_throttled) tallies.now) }
{
    tallies
        .iter()
        .map(|tally| tally.nr_throttled)
        .collect(alloc)
}

fn throttled_times(alloc: Global, tallies: &[Tally]) -> Result<Vec<u64>, AllocError>
    ensures { IfOk result (λ v. v.items ≡ map (λ t. t.throttled_usec) tallies.now) }
{
    tallies
        .iter()
        .map(|tally| tally.throttled_usec)
        .collect(alloc)
}

fn burst_periods(alloc: Global, tallies: &[Tally]) -> Result<Vec<u64>, AllocError>
    ensures { IfOk result (λ v. v.items ≡ map (λ t. t.nr_bursts) tallies.now) }
{
    tallies.iter().map(|tally| tally.nr_bursts).collect(alloc)
}

fn burst_times(alloc: Global, tallies: &[Tally]) -> Result<Vec<u64>, AllocError>
    ensures { IfOk result (λ v. v.items ≡ map (λ t. t.burst_usec) tallies.now) }
{
    tallies.iter().map(|tally| tally.burst_usec).collect(alloc)
}

fn short_periods(alloc: Global, tallies: &[Tally]) -> Result<Vec<u64>, AllocError>
    ensures { IfOk result (λ v. v.items ≡ map (λ t. t.nr_short) tallies.now) }
{
    tallies.iter().map(|tally| tally.nr_short).collect(alloc)
}

fn starved_periods(alloc: Global, tallies: &[Tally]) -> Result<Vec<u64>, AllocError>
    ensures { IfOk result (λ v. v.items ≡ map (λ t. t.nr_starved) tallies.now) }
{
    tallies.iter().map(|tally| tally.nr_starved).collect(alloc)
}

/// The numbers by column.
///
/// # Errors
/// `AllocError` if an allocation failed.
pub(crate) fn sum_columns(alloc: Global, tallies: &[Tally]) -> Result<SumColumns, AllocError>
    ensures sums { IfOk result (λ c. AreSums tallies.now (sums_in c)) }
    ensures long { IfOk result (λ c. AreSumsLong (sums_in c) (length tallies.now)) }
{
    Ok(SumColumns {
        amounts: amounts(alloc, tallies)?,
        wants: wants(alloc, tallies)?,
        limits: limits(alloc, tallies)?,
        nr_throttled: throttled_periods(alloc, tallies)?,
        throttled_usec: throttled_times(alloc, tallies)?,
        nr_bursts: burst_periods(alloc, tallies)?,
        burst_usec: burst_times(alloc, tallies)?,
        nr_short: short_periods(alloc, tallies)?,
        nr_starved: starved_periods(alloc, tallies)?,
    })
}
