//! A period that the groups of a host and its rows have drawn.
ghost use Rattle.std.specs.Prelude.{◌≡◌, ◌<◌, true, length, map, IfOk};
ghost use Rattle.std.specs.List.{range_with_len};
ghost use Rattle.bw_columns.specs.Requests.{IsReplyTo, groups_for, row_count};
ghost use Rattle.bw_columns.specs.Booked.{counters_of, counters_in, AreCountersLong, stat_in};
ghost use Rattle.bw_columns.specs.Booked.{AreCounters, stat_after, carry_after, IsBookedPeriod};

use crate::asked_instance::Request;
use crate::columns::limit_of;
use crate::refusal::Refusal;
use bw_demand::gather_rows;
use bw_model::{Instance, Row, Stat};
use bw_stat::add_period;
use bw_tree::left_of;
use std::alloc::{AllocError, Global};

/// The counters of `cpu.stat` before a period, one entry in each column for each row.
#[derive(Clone, Copy)]
pub struct CounterColumns<'a> {
    /// Microseconds drawn.
    pub usage_usec: &'a [u64],
    /// Periods that were counted.
    pub nr_periods: &'a [u64],
    /// Periods in which the group wanted more than its limit.
    pub nr_throttled: &'a [u64],
    /// Microseconds wanted above its limit.
    pub throttled_usec: &'a [u64],
    /// Periods in which it drew more than its quota.
    pub nr_bursts: &'a [u64],
    /// Microseconds drawn above its quota.
    pub burst_usec: &'a [u64],
}

/// Carries and counters after a period, one entry in each column for each row.
#[derive(Drop)]
pub struct BookedColumns {
    /// Slices of each limit that were not drawn, 0 without a limit.
    pub carries: Vec<u64>,
    /// Microseconds drawn.
    pub usage_usec: Vec<u64>,
    /// Periods that were counted.
    pub nr_periods: Vec<u64>,
    /// Periods in which the group wanted more than its limit.
    pub nr_throttled: Vec<u64>,
    /// Microseconds wanted above its limit.
    pub throttled_usec: Vec<u64>,
    /// Periods in which it drew more than its quota.
    pub nr_bursts: Vec<u64>,
    /// Microseconds drawn above its quota.
    pub burst_usec: Vec<u64>,
}

impl<'a> CounterColumns<'a> {
    /// The columns, in the order of a call.
    pub fn new(
        usage_usec: &'a [u64],
        nr_periods: &'a [u64],
        nr_throttled: &'a [u64],
        throttled_usec: &'a [u64],
        nr_bursts: &'a [u64],
        burst_usec: &'a [u64],
    ) -> CounterColumns<'a>
        ensures { result ≡ record {
          usage_usec = usage_usec.entry;
          nr_periods = nr_periods.entry;
          nr_throttled = nr_throttled.entry;
          throttled_usec = throttled_usec.entry;
          nr_bursts = nr_bursts.entry;
          burst_usec = burst_usec.entry;
        } }
    {
        CounterColumns {
            usage_usec,
            nr_periods,
            nr_throttled,
            throttled_usec,
            nr_bursts,
            burst_usec,
        }
    }

    // The counters of row g.
    fn stat(&self, g: usize) -> Stat
        requires usage_usec { g < length self.now.usage_usec.now }
        requires nr_periods { g < length self.now.nr_periods.now }
        requires nr_throttled { g < length self.now.nr_throttled.now }
        requires throttled_usec { g < length self.now.throttled_usec.now }
        requires nr_bursts { g < length self.now.nr_bursts.now }
        requires burst_usec { g < length self.now.burst_usec.now }
        ensures { result ≡ stat_in (counters_of self.now) g }
    {
        Stat {
            usage_usec: self.usage_usec[g],
            nr_periods: self.nr_periods[g],
            nr_throttled: self.nr_throttled[g],
            throttled_usec: self.throttled_usec[g],
            nr_bursts: self.nr_bursts[g],
            burst_usec: self.burst_usec[g],
        }
    }
}

// The counters of each row after a period.
fn stats_after(
    alloc: Global,
    instance: &Instance,
    wants: &[u64],
    quotas: &[u64],
    drawn: &[u64],
    counters: &CounterColumns<'_>,
) -> Result<Vec<Stat>, AllocError>
    requires wants { length wants.now ≡ length instance.now.rows }
    requires quotas { length quotas.now ≡ length instance.now.rows }
    requires drawn { length drawn.now ≡ length instance.now.rows }
    requires counters { AreCountersLong (counters_of counters.now) (length instance.now.rows) }
    ensures { IfOk result (λ stats. stats.items
        ≡ map (stat_after instance.now wants.now quotas.now drawn.now (counters_of counters.now))
        (range_with_len 0 (length instance.now.rows))) }
{
    let slice_us = instance.shape().slice_us();
    let rows = instance.rows();
    let mut stats = Vec::with_capacity(alloc, rows.len())?;
    for g in 0..rows.len() {
        let mut stat = counters.stat(g);
        let quota = limit_of(quotas[g]);
        add_period(&mut stat, slice_us, &rows[g], quota, wants[g], drawn[g]);
        stats.push(stat)?;
    }
    Ok(stats)
}

// Carry of each row: the slices of its limit that were not drawn.
pub(crate) fn carries_after(
    alloc: Global,
    instance: &Instance,
    drawn: &[u64],
) -> Result<Vec<u64>, AllocError>
    requires { length drawn.now ≡ length instance.now.rows }
    ensures { IfOk result (λ carries. carries.items
        ≡ map (carry_after instance.now drawn.now) (range_with_len 0 (length instance.now.rows))) }
{
    let rows = instance.rows();
    let mut carries = Vec::with_capacity(alloc, rows.len())?;
    for g in 0..rows.len() {
        carries.push(left_of(rows[g].limit, drawn[g]))?;
    }
    Ok(carries)
}

// The columns of the carries and the counters.
fn booked_columns(
    alloc: Global,
    carries: Vec<u64>,
    stats: &[Stat],
) -> Result<BookedColumns, AllocError>
    ensures carries { IfOk result (λ b. b.carries.items ≡ carries.items) }
    ensures counters { IfOk result (λ b. AreCounters stats.now (counters_in b)) }
{
    Ok(BookedColumns {
        carries,
        usage_usec: stats.iter().map(|s| s.usage_usec).collect(alloc)?,
        nr_periods: stats.iter().map(|s| s.nr_periods).collect(alloc)?,
        nr_throttled: stats.iter().map(|s| s.nr_throttled).collect(alloc)?,
        throttled_usec: stats.iter().map(|s| s.throttled_usec).collect(alloc)?,
        nr_bursts: stats.iter().map(|s| s.nr_bursts).collect(alloc)?,
        burst_usec: stats.iter().map(|s| s.burst_usec).collect(alloc)?,
    })
}

/// Counts a period for each row of a host, and gives what each carries into the next one.
///
/// `quotas` and `drawn` are in slices, each quota without what was carried in.
///
/// # Errors
/// The refusals of [`Request::instance`].
pub fn booked_of(
    alloc: Global,
    request: &Request<'_>,
    quotas: &[u64],
    drawn: &[u64],
    counters: &CounterColumns<'_>,
) -> Result<BookedColumns, Refusal>
    requires quotas { request.now.fit ≡ true → length quotas.now ≡ row_count request.now }
    requires drawn { request.now.fit ≡ true → length drawn.now ≡ row_count request.now }
    requires usage_usec { request.now.fit ≡ true
        → length counters.now.usage_usec.now ≡ row_count request.now }
    requires nr_periods { request.now.fit ≡ true
        → length counters.now.nr_periods.now ≡ row_count request.now }
    requires nr_throttled { request.now.fit ≡ true
        → length counters.now.nr_throttled.now ≡ row_count request.now }
    requires throttled_usec { request.now.fit ≡ true
        → length counters.now.throttled_usec.now ≡ row_count request.now }
    requires nr_bursts { request.now.fit ≡ true
        → length counters.now.nr_bursts.now ≡ row_count request.now }
    requires burst_usec { request.now.fit ≡ true
        → length counters.now.burst_usec.now ≡ row_count request.now }
    ensures booked { IfOk result (λ b. IsBookedPeriod (groups_for request.now) quotas.now
        drawn.now b.carries.items (counters_of counters.now) (counters_in b)) }
    ensures carries { IfOk result
        (λ b. length b.carries.items ≡ row_count request.now) }
    ensures counters { IfOk result
        (λ b. AreCountersLong (counters_in b) (row_count request.now)) }
    ensures reply { IsReplyTo request.now result }
{
    let instance = request.instance(alloc)?;
    let gathered = gather_rows(alloc, &instance)?;
    let wants = gathered.want.as_slice();
    let stats = stats_after(alloc, &instance, wants, quotas, drawn, counters)?;
    let carries = carries_after(alloc, &instance, drawn)?;
    Ok(booked_columns(alloc, carries, stats.as_slice())?)
}
