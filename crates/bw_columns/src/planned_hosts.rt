//! The host that is planned in place of one of any number of processors.
ghost use Rattle.std.specs.Prelude.{◌≡◌, ◌<◌, ◌≤◌, ◌*◌, ◌/◌, ◌%◌, ℕ, false, IfOk, IfErr};
ghost use Rattle.std.specs.Prelude.{IfSome, IfNone};
ghost use Rattle.bw_model.specs.Host.{IsHost};
ghost use Rattle.bw_model.specs.declared.limits.TheConstants.{MAX_PROCESSORS, MIN_SLICE_US};
ghost use Rattle.bw_model.specs.declared.limits.TheConstants.{MAX_PER_PROCESSOR};
ghost use Rattle.bw_columns.specs.Asked.{asked_host};
ghost use Rattle.bw_columns.specs.PlannedHosts.{can_share, IsPlannedHost, IsUnplannedHost};

use bw_model::limits::{MAX_CAPACITY, MAX_PER_PROCESSOR, MAX_PROCESSORS, MIN_SLICE_US};
use bw_model::{HostFault, HostShape};

// The most processors that can share a capacity in slices.
fn most_processors(capacity: u64) -> Option<u64>
    ensures few { IfSome result (λ n. (1 ≤ n) × (n ≤ MAX_PROCESSORS)) }
    ensures shared { IfSome result
        (λ n. (capacity % n ≡ 0) × (capacity / n ≤ MAX_PER_PROCESSOR)) }
    ensures most { IfSome result (λ n. (k : ℕ) → n < k → k ≤ MAX_PROCESSORS
        → can_share capacity k ≡ false) }
    ensures none { IfNone result ((k : ℕ) → 1 ≤ k → k ≤ MAX_PROCESSORS
        → can_share capacity k ≡ false) }
{
    for processors in (1..MAX_PROCESSORS + 1).rev() {
        if capacity % processors == 0 && capacity / processors <= MAX_PER_PROCESSOR {
            return Some(processors);
        }
    }
    None
}

// A host with slices of a millisecond.
fn host_of(processors: u64, per_processor: u64) -> HostShape
    requires processors { (1 ≤ processors) × (processors ≤ MAX_PROCESSORS) }
    requires per_processor { (1 ≤ per_processor) × (per_processor ≤ MAX_PER_PROCESSOR) }
    ensures value { result ≡ asked_host processors (per_processor * MIN_SLICE_US) MIN_SLICE_US }
    ensures valid { IsHost result }
{
    match HostShape::new(processors, per_processor * MIN_SLICE_US, MIN_SLICE_US) {
        Ok(host) => host,
        Err(_) => unreachable!(),
    }
}

/// The host that is planned in place of one of any number of processors.
///
/// With 1 to 64 processors it is the host itself. Of more it is a host of the same capacity in
/// slices, and so of the same plans: of those with slices of 1000 microseconds the one that has
/// most processors.
///
/// # Errors
/// The refusal of the host with at most 64 of its processors, or [`HostFault::BadProcessors`] if no
/// host of at most 64 processors has its capacity.
pub fn planned_host(processors: u64, period_us: u64, slice_us: u64) -> Result<HostShape, HostFault>
    ensures ok { IfOk result (IsPlannedHost (asked_host processors period_us slice_us)) }
    ensures err { IfErr result (IsUnplannedHost (asked_host processors period_us slice_us)) }
{
    let host = HostShape::new(processors.min(MAX_PROCESSORS), period_us, slice_us)?;
    if processors <= MAX_PROCESSORS {
        return Ok(host);
    }
    if processors > MAX_CAPACITY {
        return Err(HostFault::BadProcessors);
    }
    let capacity = processors * host.per_processor();
    match most_processors(capacity) {
        Some(most) => Ok(host_of(most, capacity / most)),
        None => Err(HostFault::BadProcessors),
    }
}
