//! The least weights, from the root down, with which the plan meets all goals.
ghost use Rattle.std.specs.Prelude.{◌≡◌, length, IfOk};
ghost use Rattle.bw_questions.specs.declared.from_root.measure.Measure.TheVariants.{Planned};
ghost use Rattle.bw_questions.specs.FromRoot.{IsTunedFromRoot};

use super::least::{Tuned, least_from_root};
use super::lightened::lightened;
use bw_model::Instance;
use std::alloc::{AllocError, Global};

/// The least weights with which the plan gives each row its goal: of those that are no less than
/// those that stand, or else of all. Or a group whose goals no weights meet together.
///
/// # Errors
/// `AllocError` if memory was refused.
pub(crate) fn tuned_by_plan(
    alloc: Global,
    instance: &Instance,
    goals: &[u64],
    may: &[bool],
) -> Result<Tuned, AllocError>
    requires goals { length goals.now ≡ length instance.now.rows }
    requires may { length may.now ≡ length instance.now.rows }
    ensures { IfOk result (IsTunedFromRoot Planned instance.now goals.now may.now) }
{
    let _rows = instance.rows();
    match least_from_root(alloc, instance, goals, may)? {
        Tuned::Met(tuned) => Ok(Tuned::Met(tuned)),
        Tuned::Unmet(_) => {
            let light = lightened(alloc, instance, may)?;
            let tuned = least_from_root(alloc, &light, goals, may)?;
            Ok(tuned)
        }
    }
}
