//! Slices of a host's period for what operators write, and back, and the host that is planned,
//! called from C.
ghost use Rattle.std.specs.Prelude.{◌≡◌, ◌<◌, Ok, ◌≢◌};
ghost use Rattle.bw_columns.specs.Demand.{slices_for};
ghost use Rattle.bw_columns.specs.Asked.{asked_host, limit_number};
ghost use Rattle.bw_exports.specs.Units.{demand_refusal, slices_refusal, limit_refusal};
ghost use Rattle.bw_exports.specs.Units.{written_refusal};
ghost use Rattle.bw_model.specs.Quota.{in_slices};
ghost use Rattle.bw_columns.specs.PeriodLimits.{limit_by};
ghost use Rattle.bw_columns.specs.PlannedHosts.{IsPlannedHost};
ghost use Rattle.bw_exports.specs.PlannedHosts.{IsUnplannedNumber};
ghost use Rattle.bw_columns.specs.declared.columns.TheConstants.{NO_LIMIT};
ghost use Rattle.bw_questions.specs.Written.{written_quota, weight_of_limit, IsWritten};

use bw_columns::{demand_slices, limit_number, limit_of_period, planned_host};
use bw_files::{FileFault, check_burst, check_period};
use bw_model::{HostShape, InstanceFault};
use bw_questions::{can_be_written, weight_of_limit, written_quota};

/// The slices of one host period that a demand takes, rounded up.
///
/// The host is that of [`crate::plan_calls::arbiter_plan`]. The demand is `numerator` over
/// `denominator` processors.
///
/// The answer is 0 if `slices` is written. A refusal leaves it unchanged.
///
/// # Errors
/// The answer is the number of the first refusal: 1 to 3 of the host, 11 if the denominator is 0,
/// or 9 if the demand takes more than 1000000 slices.
#[unsafe(no_mangle)]
pub extern "C" fn arbiter_demand(
    processors: u64,
    period_us: u64,
    slice_us: u64,
    numerator: u64,
    denominator: u64,
    slices: &mut u64,
) -> u32
    ensures number { result ≡ demand_refusal (asked_host processors period_us slice_us)
        numerator denominator }
    ensures value { result ≡ 0 → slices.new ≡ slices_for (asked_host processors period_us slice_us)
        numerator denominator }
    ensures kept { 0 < result → slices.new ≡ slices.old }
{
    let shape = match HostShape::new(processors, period_us, slice_us) {
        Ok(shape) => shape,
        Err(fault) => return u32::from(fault.number()),
    };
    if denominator == 0 {
        return u32::from(FileFault::BadNumber.number());
    }
    match demand_slices(shape, numerator, denominator) {
        Some(demand) => {
            *slices = demand;
            0
        }
        None => u32::from(InstanceFault::DemandTooLarge.number()),
    }
}

/// The whole slices of one host period that a quota or burst allows, rounded down.
///
/// The host is that of [`crate::plan_calls::arbiter_plan`]. The quota or burst is 0 to 10^15
/// microseconds of each own period of 1000 to 1000000 microseconds. Below a slice it allows none.
///
/// The answer is 0 if `slices` is written. A refusal leaves it unchanged.
///
/// # Errors
/// The answer is the number of the first refusal: 1 to 3 of the host, 14 if the quota or burst is
/// too large, or 15 if its own period is out of range.
#[unsafe(no_mangle)]
pub extern "C" fn arbiter_slices(
    processors: u64,
    period_us: u64,
    slice_us: u64,
    us: u64,
    own_period_us: u64,
    slices: &mut u64,
) -> u32
    ensures number { result ≡ slices_refusal (asked_host processors period_us slice_us)
        own_period_us us }
    ensures value { result ≡ 0 → slices.new ≡ in_slices (asked_host processors period_us slice_us)
        own_period_us us }
    ensures kept { 0 < result → slices.new ≡ slices.old }
{
    let shape = match HostShape::new(processors, period_us, slice_us) {
        Ok(shape) => shape,
        Err(fault) => return u32::from(fault.number()),
    };
    let us = match check_burst(us) {
        Ok(us) => us,
        Err(fault) => return u32::from(fault.number()),
    };
    match check_period(own_period_us) {
        Ok(period_us) => {
            *slices = shape.slices(us, period_us);
            0
        }
        Err(fault) => u32::from(fault.number()),
    }
}

/// The limit of a group in slices of the next period, as its row has it.
///
/// The host is that of [`crate::plan_calls::arbiter_plan`]. The quota is 1,000 to 10^15
/// microseconds of each own period, the greatest number for none. The own period is 1,000 to
/// 1,000,000 microseconds, and the burst 0 to 10^15. `carry` is what the last period left of its
/// limit, in slices. The limit is the quota plus the carry, at most the quota plus the burst.
///
/// The answer is 0 if `limit` is written, the greatest number for none. A refusal leaves it
/// unchanged.
///
/// # Errors
/// The answer is the number of the first refusal: 1 to 3 of the host, 13 if the quota is too small,
/// 14 if it is too large, 15 if the own period is out of range, or 14 if the burst is too large.
#[unsafe(no_mangle)]
pub extern "C" fn arbiter_period_limit(
    processors: u64,
    period_us: u64,
    slice_us: u64,
    quota_us: u64,
    own_period_us: u64,
    burst_us: u64,
    carry: u64,
    limit: &mut u64,
) -> u32
    ensures number { result ≡ limit_refusal (asked_host processors period_us slice_us)
        quota_us own_period_us burst_us carry }
    ensures value { result ≡ 0 → limit_by (asked_host processors period_us slice_us)
        quota_us own_period_us burst_us carry ≡ Ok limit.new }
    ensures kept { 0 < result → limit.new ≡ limit.old }
{
    let shape = match HostShape::new(processors, period_us, slice_us) {
        Ok(shape) => shape,
        Err(fault) => return u32::from(fault.number()),
    };
    match limit_of_period(shape, quota_us, own_period_us, burst_us, carry) {
        Ok(slices) => {
            *limit = slices;
            0
        }
        Err(fault) => u32::from(fault.number()),
    }
}

/// The host that is planned in place of one of any number of processors.
///
/// Period and slice are those of [`crate::plan_calls::arbiter_plan`]. With 1 to 64 processors the
/// host is planned itself. Of more it is a host of the same capacity in slices, on which all rows
/// have the same plans: of those with slices of 1000 microseconds the one with most processors.
///
/// The answer is 0 if the three numbers of the planned host are written. A refusal leaves them
/// unchanged.
///
/// # Errors
/// The answer is the number of the first refusal: 1 without a processor, 2 or 3 of period and
/// slice, or 1 if no host of at most 64 processors has the capacity.
#[unsafe(no_mangle)]
pub extern "C" fn arbiter_planned_host(
    processors: u64,
    period_us: u64,
    slice_us: u64,
    planned_processors: &mut u64,
    planned_period_us: &mut u64,
    planned_slice_us: &mut u64,
) -> u32
    ensures refused { 0 < result
        → IsUnplannedNumber (asked_host processors period_us slice_us) result }
    ensures planned { result ≡ 0 → IsPlannedHost (asked_host processors period_us slice_us)
        (asked_host planned_processors.new planned_period_us.new planned_slice_us.new) }
    ensures processors_kept { 0 < result → planned_processors.new ≡ planned_processors.old }
    ensures period_kept { 0 < result → planned_period_us.new ≡ planned_period_us.old }
    ensures slice_kept { 0 < result → planned_slice_us.new ≡ planned_slice_us.old }
{
    match planned_host(processors, period_us, slice_us) {
        Ok(host) => {
            *planned_processors = host.processors();
            *planned_period_us = host.period_us();
            *planned_slice_us = host.slice_us();
            0
        }
        Err(fault) => u32::from(fault.number()),
    }
}

/// The quota and the weight that are written for a leaf's limit of a round.
///
/// The host is that of [`crate::plan_calls::arbiter_plan`]. `limit` is the leaf's limit in slices,
/// as [`crate::held_calls::arbiter_hold`] answers it, and `own` its own limit, the greatest number
/// for none. `stands_us` is the quota that stands in it, in microseconds of the host's period, and
/// 0 if another one stands. It has `tasks`.
///
/// The answer is 0 if the two numbers are written. `quota` is the greatest number if the own limit
/// is to be written, which allows no more. Else it lies from the limit to a sixty-fourth above it,
/// and not above the own limit. What stands there stays. A limit below 1000 microseconds counts as
/// that. `weight` tells Linux how near each task is to a whole processor: 1 to 10000. A refusal
/// leaves each unchanged.
///
/// # Errors
/// The answer is the number of the first refusal: 1 to 3 of the host, or 14 if a sixty-fourth above
/// the limit is more than 10^15 microseconds.
#[unsafe(no_mangle)]
pub extern "C" fn arbiter_written(
    processors: u64,
    period_us: u64,
    slice_us: u64,
    limit: u64,
    own: u64,
    stands_us: u64,
    tasks: u32,
    quota: &mut u64,
    weight: &mut u64,
) -> u32
    ensures number { result ≡ written_refusal (asked_host processors period_us slice_us) limit }
    ensures quota { result ≡ 0 → quota.new ≡ limit_number
        (written_quota (asked_host processors period_us slice_us) limit own stands_us) }
    ensures written { result ≡ 0 → quota.new ≢ NO_LIMIT
        → IsWritten (asked_host processors period_us slice_us) limit own quota.new }
    ensures weight { result ≡ 0 → weight.new ≡ weight_of_limit
        (asked_host processors period_us slice_us) limit tasks }
    ensures quota_kept { 0 < result → quota.new ≡ quota.old }
    ensures weight_kept { 0 < result → weight.new ≡ weight.old }
{
    let shape = match HostShape::new(processors, period_us, slice_us) {
        Ok(shape) => shape,
        Err(fault) => return u32::from(fault.number()),
    };
    if !can_be_written(shape, limit) {
        return u32::from(FileFault::QuotaTooLarge.number());
    }
    *quota = limit_number(written_quota(shape, limit, own, stands_us));
    *weight = weight_of_limit(shape, limit, tasks);
    0
}
