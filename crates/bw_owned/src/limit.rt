//! Quotas and own periods of numbers that owners set.
ghost use Rattle.std.specs.Prelude.{◌≡◌, ◌≤◌, IfSome};
ghost use Rattle.bw_model.specs.declared.limits.TheConstants.{MIN_QUOTA_US, MAX_QUOTA_US};
ghost use Rattle.bw_model.specs.declared.limits.TheConstants.{MIN_PERIOD_US, MAX_PERIOD_US};
ghost use Rattle.bw_owned.specs.Limits.{bounded_quota, bounded_period, own_period};
ghost use Rattle.bw_owned.specs.Limits.{quota_unless_zero, quota_of_thousandths};
ghost use Rattle.bw_owned.specs.Limits.{adjusted_period};
ghost use Rattle.bw_owned.specs.Limits.{limit_of_rate, limit_by};

use crate::formula::LimitFormula;
use bw_model::limits::{MAX_PERIOD_US, MAX_QUOTA_US, MIN_PERIOD_US, MIN_QUOTA_US};

/// Microseconds of an own period that nobody set.
pub const DEFAULT_PERIOD_US: u64 = 100_000;

/// Microseconds of a second.
pub const SECOND_US: u64 = 1_000_000;

/// Thousandths of a CPU.
pub const CPU: u64 = 1000;

/// Billionths of a CPU.
pub const BILLION: u64 = 1_000_000_000;

/// A limit as the kernel takes it.
#[derive(Clone, Copy, Debug, PartialEq, Eq)]
pub struct OwnedLimit {
    /// Microseconds of each own period, 1000 to 10^15; None for no limit.
    pub quota: Option<u64>,
    /// Microseconds of the own period, 1000 to 1000000.
    pub period_us: u64,
}

// The nearest quota that the kernel takes.
fn bounded_quota(quota: u128) -> u64
    ensures value { result ≡ bounded_quota quota }
    ensures range { (MIN_QUOTA_US ≤ result) × (result ≤ MAX_QUOTA_US) }
{
    quota
        .max(u128::from(MIN_QUOTA_US))
        .min(u128::from(MAX_QUOTA_US)) as u64
}

// The nearest period that the kernel takes.
fn bounded_period(period: u64) -> u64
    ensures value { result ≡ bounded_period period }
    ensures range { (MIN_PERIOD_US ≤ result) × (result ≤ MAX_PERIOD_US) }
{
    period.max(MIN_PERIOD_US).min(MAX_PERIOD_US)
}

// The own period that an owner set: the usual one for 0.
fn own_period(period: u64) -> u64
    ensures value { result ≡ own_period period }
    ensures range { (MIN_PERIOD_US ≤ result) × (result ≤ MAX_PERIOD_US) }
{
    if period == 0 {
        DEFAULT_PERIOD_US
    } else {
        bounded_period(period)
    }
}

// The quota for microseconds, of which 0 set none.
fn quota_unless_zero(quota: u128) -> Option<u64>
    ensures value { result ≡ quota_unless_zero quota }
    ensures range { IfSome result (λ quota. (MIN_QUOTA_US ≤ quota) × (quota ≤ MAX_QUOTA_US)) }
{
    if quota == 0 {
        None
    } else {
        Some(bounded_quota(quota))
    }
}

// The quota of thousandths of a CPU, of which 0 set none.
fn quota_of_thousandths(number: u64, period_us: u64) -> Option<u64>
    requires { period_us ≤ MAX_PERIOD_US }
    ensures value { result ≡ quota_of_thousandths number period_us }
    ensures range { IfSome result (λ quota. (MIN_QUOTA_US ≤ quota) × (quota ≤ MAX_QUOTA_US)) }
{
    if number == 0 {
        return None;
    }
    let quota = u128::from(number) * u128::from(period_us) / u128::from(CPU);
    Some(bounded_quota(quota))
}

// The own period with which a rate has the least quota at least.
fn adjusted_period(number: u64, period: u64) -> u64
    ensures value { result ≡ adjusted_period number period }
    ensures range { (MIN_PERIOD_US ≤ result) × (result ≤ MAX_PERIOD_US) }
{
    let least = MIN_QUOTA_US * SECOND_US / number.max(1);
    bounded_period(least.max(own_period(period)))
}

// The limit of microseconds of each second.
fn limit_of_rate(number: u64, period: u64) -> OwnedLimit
    ensures value { result ≡ limit_of_rate number period }
    ensures quota { IfSome result.quota
        (λ quota. (MIN_QUOTA_US ≤ quota) × (quota ≤ MAX_QUOTA_US)) }
    ensures period { (MIN_PERIOD_US ≤ result.period_us) × (result.period_us ≤ MAX_PERIOD_US) }
{
    let period_us = adjusted_period(number, period);
    let quota = u128::from(number) * u128::from(period_us) / u128::from(SECOND_US);
    OwnedLimit {
        quota: Some(bounded_quota(quota)),
        period_us,
    }
}

/// The limit of a number that an owner set, and of the period in microseconds that was set beside
/// it, 0 for none.
///
/// A quota and a period out of their range are the nearest ones in it. A rate has no own period
/// that is too short for the least quota.
pub fn owned_limit(formula: LimitFormula, number: u64, period: u64) -> OwnedLimit
    ensures value { result ≡ limit_by formula number period }
    ensures quota { IfSome result.quota
        (λ quota. (MIN_QUOTA_US ≤ quota) × (quota ≤ MAX_QUOTA_US)) }
    ensures period { (MIN_PERIOD_US ≤ result.period_us) × (result.period_us ≤ MAX_PERIOD_US) }
{
    match formula {
        LimitFormula::Thousandths => {
            let period_us = own_period(period);
            OwnedLimit {
                quota: quota_of_thousandths(number, period_us),
                period_us,
            }
        }
        LimitFormula::Billionths => OwnedLimit {
            quota: quota_unless_zero(
                u128::from(number) * u128::from(DEFAULT_PERIOD_US) / u128::from(BILLION),
            ),
            period_us: DEFAULT_PERIOD_US,
        },
        LimitFormula::Quota => OwnedLimit {
            quota: quota_unless_zero(u128::from(number)),
            period_us: own_period(period),
        },
        LimitFormula::PerSecond => limit_of_rate(number, period),
    }
}
