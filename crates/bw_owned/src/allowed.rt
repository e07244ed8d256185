//! Times that limits allow.
ghost use Rattle.std.specs.Prelude.{◌≡◌, ◌≤◌, min};
ghost use Rattle.bw_owned.specs.Allowed.{allowed_time};

/// Nanoseconds of a microsecond.
pub const MICRO_NS: u64 = 1000;

/// Most nanoseconds that are told of a time.
pub const MOST_NS: u64 = 18_446_744_073_709_551_615;

/// Nanoseconds that a limit allows in so many nanoseconds, at most 2^64 - 1.
///
/// Quota, own period and burst are in microseconds. A limit allows the part of the time that its
/// quota is of its own period, rounded down, and the burst beside it.
pub fn allowed_time(quota: u64, period_us: u64, burst: u64, passed_ns: u64) -> u64
    requires { 1 ≤ period_us }
    ensures { result ≡ min (allowed_time quota period_us burst passed_ns) MOST_NS }
{
    let most = u128::from(MOST_NS);
    let part = u128::from(quota) * u128::from(passed_ns) / u128::from(period_us);
    (part.min(most) + u128::from(burst) * u128::from(MICRO_NS)).min(most) as u64
}
