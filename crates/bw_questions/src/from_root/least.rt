//! The least weights, from the root down, with which all goals are met.
ghost use Rattle.std.specs.Prelude.{◌≡◌, length, IfOk};
ghost use Rattle.bw_questions.specs.FromRoot.{IsFromRoot};

use super::needs::{Needs, needs_of};
use super::pass::pass;
use super::tops::tops_of;
use super::weighed::weighed;
use bw_demand::gather_rows;
use bw_model::Instance;
use std::alloc::{AllocError, Global};

/// The weights that meet all goals, or a group whose goals cannot be met together.
#[derive(Debug, Drop)]
pub enum Tuned {
    /// The instance with weights with which each goal is met.
    Met(Instance),
    /// A group. The goals of it and below it cannot be met together.
    Unmet(u32),
}

/// The least weights, from the root down, that are no less than those of an instance and meet all
/// goals, or a group whose goals no such weights meet together.
///
/// # Errors
/// `AllocError` if memory was refused.
pub(crate) fn least_from_root(
    alloc: Global,
    instance: &Instance,
    goals: &[u64],
    may: &[bool],
) -> Result<Tuned, AllocError>
    requires goals { length goals.now ≡ length instance.now.rows }
    requires may { length may.now ≡ length instance.now.rows }
    ensures { IfOk result (IsFromRoot instance.now goals.now may.now) }
{
    let _rows = instance.rows();
    let gathered = gather_rows(alloc, instance)?;
    let tops = tops_of(alloc, instance, may)?;
    let most = gathered.most.as_slice();
    match needs_of(alloc, instance, tops.as_slice(), most, goals)? {
        Needs::Beyond(group) => Ok(Tuned::Unmet(group)),
        Needs::Known(needs) => {
            let passed = pass(
                alloc,
                instance,
                tops.as_slice(),
                most,
                goals,
                needs.as_slice(),
            )?;
            let tuned = weighed(alloc, instance, passed.weights.as_slice())?;
            Ok(Tuned::Met(tuned))
        }
    }
}
