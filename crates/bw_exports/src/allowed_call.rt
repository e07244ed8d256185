//! `arbiter_allowed`: the time that a limit allows, called from C.
ghost use Rattle.std.specs.Prelude.{◌≡◌, ◌<◌, min};
ghost use Rattle.bw_owned.specs.declared.allowed.TheConstants.{MOST_NS};
ghost use Rattle.bw_owned.specs.Allowed.{allowed_time};

use bw_files::FileFault;
use bw_owned::allowed_time;

/// The nanoseconds that a limit allows in so many nanoseconds, at most 2^64 - 1.
///
/// Quota, own period and burst are in microseconds. A limit allows the part of the time that its
/// quota is of its own period, rounded down, and the burst beside it.
///
/// The answer is 0 if `allowed` is written. A refusal leaves it unchanged.
///
/// # Errors
/// The answer is 15 if the own period is 0.
#[unsafe(no_mangle)]
pub extern "C" fn arbiter_allowed(
    quota_us: u64,
    own_period_us: u64,
    burst_us: u64,
    passed_ns: u64,
    allowed: &mut u64,
) -> u32
    ensures value { result ≡ 0
        → allowed.new ≡ min (allowed_time quota_us own_period_us burst_us passed_ns) MOST_NS }
    ensures refused { 0 < result → own_period_us ≡ 0 }
    ensures number { 0 < result → result ≡ 15 }
    ensures kept { 0 < result → allowed.new ≡ allowed.old }
{
    if own_period_us == 0 {
        return u32::from(FileFault::PeriodOutOfRange.number());
    }
    *allowed = allowed_time(quota_us, own_period_us, burst_us, passed_ns);
    0
}
