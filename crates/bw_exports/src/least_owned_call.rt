//! `arbiter_least_owned`: the least number that has a weight, called from C.
ghost use Rattle.std.specs.Prelude.{◌≡◌, ◌<◌};
ghost use Rattle.bw_exports.specs.Owned.{IsLeastTold, IsLeastRefused};

use bw_columns::limit_number;
use bw_files::FileFault;
use bw_model::limits::{MAX_WEIGHT, MIN_WEIGHT};
use bw_owned::{WeightFormula, least_number};

/// The least number of those that an owner can set whose weight is at least so much.
///
/// The formulas are those of [`crate::owned_calls::arbiter_owned_weight`]. The number is the
/// greatest one if logarithms do not tell a weight on the way, which no test has seen.
///
/// The answer is 0 if `least` is written. A refusal leaves it unchanged.
///
/// # Errors
/// The answer is 11 if no formula has the number, else 12 if the weight is outside 1 to 10000.
#[unsafe(no_mangle)]
pub extern "C" fn arbiter_least_owned(formula: u32, weight: u64, least: &mut u64) -> u32
    ensures told { result ≡ 0 → IsLeastTold formula weight least.new }
    ensures refused { 0 < result → IsLeastRefused formula weight result }
    ensures kept { 0 < result → least.new ≡ least.old }
{
    let Some(by) = WeightFormula::of_number(formula) else {
        return u32::from(FileFault::BadNumber.number());
    };
    if weight < MIN_WEIGHT || weight > MAX_WEIGHT {
        return u32::from(FileFault::WeightOutOfRange.number());
    }
    *least = limit_number(least_number(by, weight));
    0
}
