//! Weights with which all goals are met: the least of the goals' own rows, from the root down, and
//! the greatest of the others.
ghost use Rattle.std.specs.Prelude.{◌≡◌, length, IfOk};
ghost use Rattle.bw_questions.specs.Lowered.{IsTuned};

mod beside;
mod either;
mod guaranteed;
mod laws;
mod least;
mod level;
mod lightened;
mod lower;
mod measure;
mod meeting;
mod needs;
mod own;
mod pass;
mod planned;
mod sums;
mod tops;
mod weighed;

use crate::laws::others_weights_give_nothing;
pub use beside::halves_kept;
use bw_model::Instance;
use bw_model::limits::MAX_WEIGHT;
use bw_plan::there_is_one_plan;
pub(crate) use either::tuned_from_root;
pub use laws::{goals_come_to, halves_are_had, level_numbers, there_is_one_from_root};
pub use least::Tuned;
use lower::{greatest_level, lowered};
pub use measure::Measure;
use own::own_rows;
use std::alloc::{AllocError, Global};
pub use sums::goal_sums;

/// Weights of the rows that may change under which each row has its goal, all else as it is.
///
/// `goals` has the least slices that each row is to get, 0 for none: of a leaf, of a group with
/// children, of one inside another, and of a row whose weight stays. It gets them by the plan or,
/// where the measure is the guarantee, whatever the groups ask for that are not under it. `may`
/// says which weights may change, from 1 to 10000.
///
/// A row is one of the goals if a goal is at it or below it. The weights of these rows are no less
/// than those that stand, and the least from the root down: of all weights that agree with them
/// above a row and beside it there, theirs of that row is the least. Where such weights do not meet
/// all goals, they are the least from the root down of all from 1 on.
///
/// The weights of other rows stay where these do. Else they are lowered to one level, the greatest
/// that will do: each is the lesser of its weight and the level. So there is one answer.
///
/// If no weights meet all goals, the answer is [`Tuned::Unmet`], with a group: no weights of the
/// rows that may change meet the goals of it and below it together, whatever it is given. The goal
/// of each row below it is within that row's limit and, of a leaf, within its demand.
///
/// # Errors
/// `AllocError` if memory was refused.
pub fn tune(
    alloc: Global,
    instance: &Instance,
    goals: &[u64],
    may: &[bool],
    measure: Measure,
) -> Result<Tuned, AllocError>
    requires goals { length goals.now ≡ length instance.now.rows }
    requires may { length may.now ≡ length instance.now.rows }
    ensures { IfOk result (IsTuned measure instance.now goals.now may.now) }
{
    let _rows = instance.rows();
    there_is_one_plan();
    others_weights_give_nothing();
    let own = own_rows(alloc, instance, goals, may)?;
    let whole = lowered(alloc, instance, goals, may, MAX_WEIGHT)?;
    let first = tuned_from_root(alloc, &whole, goals, own.as_slice(), measure)?;
    if let Tuned::Met(tuned) = first {
        return Ok(Tuned::Met(tuned));
    }
    let any = tuned_from_root(alloc, instance, goals, may, measure)?;
    if let Tuned::Unmet(group) = any {
        return Ok(Tuned::Unmet(group));
    }
    let level = greatest_level(alloc, instance, goals, may, own.as_slice(), measure)?;
    let low = lowered(alloc, instance, goals, may, level)?;
    let tuned = tuned_from_root(alloc, &low, goals, own.as_slice(), measure)?;
    Ok(tuned)
}
