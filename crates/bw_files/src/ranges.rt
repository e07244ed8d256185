//! Range checks of the values that a group's files set.
ghost use Rattle.std.specs.Prelude.{◌≡◌, ◌≤◌, Some, IfOk};
ghost use Rattle.bw_model.specs.Quota.{IsValid};
ghost use Rattle.bw_files.specs.Reading.{weight_in, quota_in, burst_in, period_in};

use crate::fault::FileFault;
use bw_model::Quota;
use bw_model::limits::{
    MAX_BURST_US, MAX_PERIOD_US, MAX_QUOTA_US, MAX_WEIGHT, MIN_PERIOD_US, MIN_QUOTA_US, MIN_WEIGHT,
};

/// Returns a weight of 1 to 10000 unchanged (cgroup-v2.rst, "CPU Interface Files").
///
/// # Errors
///
/// - [`FileFault::WeightOutOfRange`] for any other number.
pub fn check_weight(n: u64) -> Result<u64, FileFault>
    ensures value { result ≡ weight_in n }
    ensures range { IfOk result (λ w. (MIN_WEIGHT ≤ w) × (w ≤ MAX_WEIGHT)) }
{
    if n < MIN_WEIGHT || n > MAX_WEIGHT {
        return Err(FileFault::WeightOutOfRange);
    }
    Ok(n)
}

/// Returns the quota of `us` microseconds, 1000 to 10^15.
///
/// # Errors
///
/// - [`FileFault::QuotaTooSmall`] below 1000.
/// - [`FileFault::QuotaTooLarge`] above 10^15.
pub fn check_quota(us: u64) -> Result<Quota, FileFault>
    ensures value { result ≡ quota_in (Some us) }
    ensures valid { IfOk result IsValid }
{
    if us < MIN_QUOTA_US {
        return Err(FileFault::QuotaTooSmall);
    }
    if us > MAX_QUOTA_US {
        return Err(FileFault::QuotaTooLarge);
    }
    Ok(Quota::Micros(us))
}

/// Returns a burst of 0 to 10^15 microseconds unchanged.
///
/// # Errors
///
/// - [`FileFault::QuotaTooLarge`] above 10^15.
pub fn check_burst(us: u64) -> Result<u64, FileFault>
    ensures value { result ≡ burst_in us }
    ensures range { IfOk result (λ n. n ≤ MAX_BURST_US) }
{
    if us > MAX_BURST_US {
        return Err(FileFault::QuotaTooLarge);
    }
    Ok(us)
}

/// Returns a period of 1000 to 1000000 microseconds unchanged.
///
/// # Errors
///
/// - [`FileFault::PeriodOutOfRange`] for any other number.
pub fn check_period(us: u64) -> Result<u64, FileFault>
    ensures value { result ≡ period_in us }
    ensures range { IfOk result (λ n. (MIN_PERIOD_US ≤ n) × (n ≤ MAX_PERIOD_US)) }
{
    if us < MIN_PERIOD_US || us > MAX_PERIOD_US {
        return Err(FileFault::PeriodOutOfRange);
    }
    Ok(us)
}
