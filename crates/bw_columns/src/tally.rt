//! The numbers that periods add up to for one group.
ghost use Rattle.std.specs.Prelude.{◌≡◌, ◌+◌, ◌*◌, length, map, IfOk};
ghost use Rattle.std.specs.List.{range_with_len};
ghost use Rattle.bw_stat.specs.Books.{cut, periods_if, zeros};
ghost use Rattle.bw_columns.specs.Tallies.{stat_of, is_below, is_starved, tally_of, none, plus};
ghost use Rattle.bw_columns.specs.Tallies.{repeated, cut_all, tally_in};

use crate::columns::limit_number;
use bw_demand::withheld_slices;
use bw_model::{Row, Stat};
use bw_stat::add_period;
use std::alloc::{AllocError, Global};

/// The numbers of one group over some periods. Each stops at its greatest value.
#[derive(Clone, Copy)]
pub struct Tally {
    /// Slices that it was given.
    pub amount: u64,
    /// Slices that it wanted.
    pub want: u64,
    /// Slices of its limits, the greatest number for none.
    pub limit: u64,
    /// Periods in which it wanted more than its limit.
    pub nr_throttled: u64,
    /// Microseconds wanted above its limit.
    pub throttled_usec: u64,
    /// Periods in which it was given more than its quota.
    pub nr_bursts: u64,
    /// Microseconds given above its quota.
    pub burst_usec: u64,
    /// Periods in which it wanted more than its limit, and was given less than that.
    pub nr_short: u64,
    /// Periods in which it wanted something, and was given nothing.
    pub nr_starved: u64,
}

fn no_stat() -> Stat
    ensures { result ≡ zeros }
{
    Stat {
        usage_usec: 0,
        nr_periods: 0,
        nr_throttled: 0,
        throttled_usec: 0,
        nr_bursts: 0,
        burst_usec: 0,
    }
}

fn periods_if(holds: bool) -> u64
    ensures { result ≡ periods_if holds }
{
    if holds { 1 } else { 0 }
}

fn is_below(amount: u64, limit: Option<u64>) -> bool
    ensures { result ≡ is_below amount limit }
{
    match limit {
        None => false,
        Some(limit) => amount < limit,
    }
}

fn is_starved(want: u64, amount: u64) -> bool
    ensures { result ≡ is_starved want amount }
{
    want > 0 && amount == 0
}

// The sum of a number and of one that counts so many times, at most the greatest number.
fn sum(number: u64, more: u64, times: u64) -> u64
    ensures { result ≡ cut (number + more * times) }
{
    number.saturating_add(more.saturating_mul(times))
}

impl Tally {
    /// No period.
    pub fn none() -> Tally
        ensures { result ≡ none }
    {
        Tally {
            amount: 0,
            want: 0,
            limit: 0,
            nr_throttled: 0,
            throttled_usec: 0,
            nr_bursts: 0,
            burst_usec: 0,
            nr_short: 0,
            nr_starved: 0,
        }
    }

    /// The numbers of one period. Quota, want and amount are in slices, the quota without what the
    /// group carried in.
    pub fn of_period(slice_us: u64, row: &Row, quota: Option<u64>, want: u64, amount: u64) -> Tally
        ensures { result ≡ tally_of slice_us row.now quota want amount }
    {
        let mut stat = no_stat();
        add_period(&mut stat, slice_us, row, quota, want, amount);
        let is_short = withheld_slices(row, want) > 0 && is_below(amount, row.limit);
        Tally {
            amount,
            want,
            limit: limit_number(row.limit),
            nr_throttled: stat.nr_throttled,
            throttled_usec: stat.throttled_usec,
            nr_bursts: stat.nr_bursts,
            burst_usec: stat.burst_usec,
            nr_short: periods_if(is_short),
            nr_starved: periods_if(is_starved(want, amount)),
        }
    }

    // These numbers, and others so many times.
    fn with(&self, more: &Tally, times: u64) -> Tally
        ensures { result ≡ cut_all (plus self.now (repeated times more.now)) }
    {
        Tally {
            amount: sum(self.amount, more.amount, times),
            want: sum(self.want, more.want, times),
            limit: sum(self.limit, more.limit, times),
            nr_throttled: sum(self.nr_throttled, more.nr_throttled, times),
            throttled_usec: sum(self.throttled_usec, more.throttled_usec, times),
            nr_bursts: sum(self.nr_bursts, more.nr_bursts, times),
            burst_usec: sum(self.burst_usec, more.burst_usec, times),
            nr_short: sum(self.nr_short, more.nr_short, times),
            nr_starved: sum(self.nr_starved, more.nr_starved, times),
        }
    }
}

/// No period of so many groups.
///
/// # Errors
/// `AllocError` if an allocation failed.
pub(crate) fn no_tallies(alloc: Global, count: usize) -> Result<Vec<Tally>, AllocError>
    ensures { IfOk result (λ v. v.items ≡ map (λ _. none) (range_with_len 0 count)) }
{
    let mut tallies = Vec::with_capacity(alloc, count)?;
    for g in 0..count {
        tallies.push(Tally::none())?;
    }
    Ok(tallies)
}

/// The numbers of each group, and others of it so many times.
///
/// # Errors
/// `AllocError` if an allocation failed.
pub(crate) fn added_up(
    alloc: Global,
    sums: &[Tally],
    more: &[Tally],
    times: u64,
) -> Result<Vec<Tally>, AllocError>
    requires { length more.now ≡ length sums.now }
    ensures { IfOk result (λ v. v.items
        ≡ map (λ g. cut_all (plus (tally_in sums.now g) (repeated times (tally_in more.now g))))
        (range_with_len 0 (length sums.now))) }
{
    let mut found = Vec::with_capacity(alloc, sums.len())?;
    for g in 0..sums.len() {
        found.push(sums[g].with(&more[g], times))?;
    }
    Ok(found)
}
