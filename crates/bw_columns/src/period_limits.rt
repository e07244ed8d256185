//! The limit of a group in one period.
ghost use Rattle.std.specs.Prelude.{◌≡◌};
ghost use Rattle.bw_columns.specs.Asked.{limit_in};
ghost use Rattle.bw_files.specs.Reading.{quota_in};
ghost use Rattle.bw_columns.specs.PeriodLimits.{limit_by};

use crate::columns::{limit_number, limit_of};
use bw_files::{FileFault, check_burst, check_period, check_quota};
use bw_model::{HostShape, Quota};
use bw_tree::period_limit;

// The quota of a number of microseconds, which is none if it is the greatest.
pub(crate) fn quota_of(number: u64) -> Result<Quota, FileFault>
    ensures { result ≡ quota_in (limit_in number) }
{
    match limit_of(number) {
        None => Ok(Quota::Max),
        Some(us) => check_quota(us),
    }
}

/// The limit of a group in slices of one period, the greatest number for none.
///
/// It is the quota plus what the group carries in, at most the quota plus the burst. Quota and
/// burst are in microseconds of the group's own period, the quota the greatest number for none.
/// `carry` is in slices.
///
/// # Errors
/// The first refusal of the quota, the own period and the burst, as their files have them.
pub fn limit_of_period(
    shape: HostShape,
    quota_us: u64,
    own_period_us: u64,
    burst_us: u64,
    carry: u64,
) -> Result<u64, FileFault>
    ensures { result ≡ limit_by shape quota_us own_period_us burst_us carry }
{
    let quota = quota_of(quota_us)?;
    let own_period_us = check_period(own_period_us)?;
    let burst_us = check_burst(burst_us)?;
    let slices = quota.slices(shape, own_period_us);
    let limit = period_limit(shape, slices, own_period_us, burst_us, carry);
    Ok(limit_number(limit))
}
