//! Quotas and weights that are written for limits of a round.
ghost use Rattle.std.specs.Prelude.{◌≡◌, ◌<◌, ◌≤◌, ◌*◌, ◌^◌, IfSome, nat_le};
ghost use Rattle.bw_model.specs.declared.limits.TheConstants.{MIN_WEIGHT, MAX_WEIGHT};
ghost use Rattle.bw_model.specs.declared.limits.TheConstants.{MAX_QUOTA_US};
ghost use Rattle.bw_questions.specs.Written.{quota_of_limit, with_part, written_quota, IsWritten};
ghost use Rattle.bw_questions.specs.Written.{slices_of_tasks, weight_of_part, weight_of_limit};

use bw_model::HostShape;
use bw_model::limits::{MAX_QUOTA_US, MAX_WEIGHT, MIN_QUOTA_US, MIN_WEIGHT};

// The quota of a limit, and no less than the kernel takes.
fn quota_of_limit(shape: HostShape, limit: u64) -> u128
    ensures value { result ≡ quota_of_limit shape limit }
    ensures bound { result < 2 ^ 84 }
{
    let quota = u128::from(limit) * u128::from(shape.slice_us());
    quota.max(u128::from(MIN_QUOTA_US))
}

/// Whether a sixty-fourth above the quota of a limit is in the kernel's range.
pub fn can_be_written(shape: HostShape, limit: u64) -> bool
    ensures { result ≡ nat_le (with_part 64 (quota_of_limit shape limit)) MAX_QUOTA_US }
{
    let quota = quota_of_limit(shape, limit);
    quota + quota / 64 <= u128::from(MAX_QUOTA_US)
}

/// The quota that is written for a limit of a leaf, in microseconds of a period of the host.
///
/// The limit and the leaf's own limit are in slices. `stands` is the quota that stands, 0 for none.
/// None says that the own limit is written, since it allows no more. What stands up to a
/// sixty-fourth above the limit stays, since the kernel gives a new quota at each writing. Else
/// half as much above the limit is written.
pub fn written_quota(shape: HostShape, limit: u64, own: u64, stands: u64) -> Option<u64>
    requires small { with_part 64 (quota_of_limit shape limit) ≤ MAX_QUOTA_US }
    ensures value { result ≡ written_quota shape limit own stands }
    ensures written { IfSome result (IsWritten shape limit own) }
{
    let least = quota_of_limit(shape, limit);
    let own = u128::from(own) * u128::from(shape.slice_us());
    if own <= least {
        return None;
    }
    let standing = u128::from(stands);
    if least <= standing && standing <= own.min(least + least / 64) {
        return Some(stands);
    }
    Some(own.min(least + least / 128) as u64)
}

// The weight of a leaf whose tasks may use so many slices of those that they can use.
fn weight_of_part(amount: u64, most: u64) -> u64
    requires most { 1 ≤ most }
    requires fits { most < 2 ^ 42 }
    requires amount { amount ≤ most }
    ensures value { result ≡ weight_of_part amount most }
    ensures range { (MIN_WEIGHT ≤ result) × (result ≤ MAX_WEIGHT) }
{
    let rest = 101 * most - 100 * amount;
    ((20_000 * amount + rest) / (2 * rest))
        .min(MAX_WEIGHT)
        .max(MIN_WEIGHT)
}

/// The weight of a leaf with a limit in slices and so many tasks: 1 to 10000.
///
/// It tells Linux how near each of its tasks is to a whole processor. Where they may use the part d
/// of the processors that they can use, it is the nearest whole number to 100 d / (1.01 - d).
pub fn weight_of_limit(shape: HostShape, limit: u64, tasks: u32) -> u64
    ensures value { result ≡ weight_of_limit shape limit tasks }
    ensures range { (MIN_WEIGHT ≤ result) × (result ≤ MAX_WEIGHT) }
{
    let most = u64::from(tasks.max(1)) * shape.per_processor();
    weight_of_part(limit.min(most), most)
}
