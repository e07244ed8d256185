//! Demands in parts of a processor.
ghost use Rattle.std.specs.Prelude.{◌≡◌, ◌<◌, ◌≤◌, IfSome, IfNone};
ghost use Rattle.bw_model.specs.declared.limits.TheConstants.{MAX_DEMAND};
ghost use Rattle.bw_columns.specs.Demand.{slices_for};

use bw_model::HostShape;
use bw_model::limits::MAX_DEMAND;

/// The slices of one host period that a demand takes, rounded up: 0 to 1000000.
///
/// The demand is `numerator` over `denominator` processors. None says that it takes more than
/// 1000000 slices.
pub fn demand_slices(shape: HostShape, numerator: u64, denominator: u64) -> Option<u64>
    requires { 0 < denominator }
    ensures some { IfSome result
        (λ n. (n ≡ slices_for shape numerator denominator) × (n ≤ MAX_DEMAND)) }
    ensures none { IfNone result (MAX_DEMAND < slices_for shape numerator denominator) }
{
    let time = u128::from(numerator) * u128::from(shape.period_us());
    let slice = u128::from(denominator) * u128::from(shape.slice_us());
    let slices = (time + (slice - 1)) / slice;
    if slices > u128::from(MAX_DEMAND) {
        return None;
    }
    Some(slices as u64)
}
