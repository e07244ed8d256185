//! The greatest limits of rows away from all goals with which goals can be met.
ghost use Rattle.std.specs.Prelude.{◌≡◌, length, IfOk};
ghost use Rattle.bw_questions.specs.OtherLimits.{IsLimited};

mod cut;
mod free;
mod laws;
mod limited;
mod raise;

use crate::from_root::Measure;
use crate::laws::others_room_gives_nothing;
use bw_model::Instance;
use bw_plan::there_is_one_plan;
use cut::full_limit;
use free::lowest_limits;
pub use laws::limits_are_one;
pub use limited::Limited;
use raise::{can_be_met, greatest_raise, raised_limits};
use std::alloc::{AllocError, Global};

/// Limits of rows away from all goals, with which weights of the rows that may change meet the
/// goals, all else as it is.
///
/// `goals`, `may` and the measure are those of [`tune`](crate::tune), which gives the weights.
/// `lowest` has the lowest limit in slices that each row may get. A number from its limit on, or
/// from the capacity on, keeps the row's limit. The root keeps its limit, and so does a row with a
/// goal at, above or below it.
///
/// The limits are the greatest: one level for all such rows, and then each row in row order from
/// that level on. So there is one answer. The answer has the limit in force of each row: its own,
/// or the capacity if that is less or if it has none. So a row whose number is that limit keeps it.
///
/// If no limits from the lowest on will do, the answer is [`Limited::Unmet`].
///
/// # Errors
/// `AllocError` if memory was refused.
pub fn limit_others(
    alloc: Global,
    instance: &Instance,
    goals: &[u64],
    may: &[bool],
    lowest: &[u64],
    measure: Measure,
) -> Result<Limited, AllocError>
    requires goals { length goals.now ≡ length instance.now.rows }
    requires may { length may.now ≡ length instance.now.rows }
    requires lowest { length lowest.now ≡ length instance.now.rows }
    ensures { IfOk result (IsLimited measure instance.now goals.now may.now lowest.now) }
{
    let count = instance.rows().len();
    there_is_one_plan();
    others_room_gives_nothing();
    let least = lowest_limits(alloc, instance, goals, lowest)?;
    let start = least.as_slice();
    if !can_be_met(alloc, instance, goals, may, measure, start)? {
        return Ok(Limited::Unmet);
    }
    let capacity = instance.shape().capacity();
    let level = greatest_raise(
        alloc, instance, goals, may, measure, start, None, 0, capacity,
    )?;
    let mut limits = raised_limits(alloc, instance, start, None, level)?;
    for h in 0..count {
        let row = h as u32;
        let low = limits[h];
        let full = full_limit(instance, row);
        if low < full {
            let tried = limits.as_slice();
            let top = greatest_raise(
                alloc,
                instance,
                goals,
                may,
                measure,
                tried,
                Some(row),
                low,
                full,
            )?;
            limits = raised_limits(alloc, instance, limits.as_slice(), Some(row), top)?;
        }
    }
    Ok(Limited::Met(limits))
}
