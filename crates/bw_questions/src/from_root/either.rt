//! The least weights of the rows that may change, from the root down, by the plan or the guarantee.
ghost use Rattle.std.specs.Prelude.{◌≡◌, length, IfOk};
ghost use Rattle.bw_questions.specs.FromRoot.{IsTunedFromRoot};

use super::guaranteed::tuned_by_guarantee;
use super::least::Tuned;
use super::measure::Measure;
use super::planned::tuned_by_plan;
use bw_model::Instance;
use std::alloc::{AllocError, Global};

/// The least weights with which each row has its goal: of those that are no less than those that
/// stand, or else of all. Or a group whose goals no weights meet together.
///
/// # Errors
/// `AllocError` if memory was refused.
pub(crate) fn tuned_from_root(
    alloc: Global,
    instance: &Instance,
    goals: &[u64],
    may: &[bool],
    measure: Measure,
) -> Result<Tuned, AllocError>
    requires goals { length goals.now ≡ length instance.now.rows }
    requires may { length may.now ≡ length instance.now.rows }
    ensures { IfOk result (IsTunedFromRoot measure instance.now goals.now may.now) }
{
    match measure {
        Measure::Planned => tuned_by_plan(alloc, instance, goals, may),
        Measure::Guaranteed => tuned_by_guarantee(alloc, instance, goals, may),
    }
}
