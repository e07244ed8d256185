//! The certificate of a plan.
ghost use Rattle.std.specs.Prelude.{◌≡◌, ◌*◌, ◌<◌, ◌≤◌, false, length, map, slice_index};
ghost use Rattle.std.specs.Prelude.{◌⊎◌, IsTrue, IfOk, IfSome, IfNone, EachIndex};
ghost use Rattle.bw_model.specs.Groups.{is_leaf, sum_of_children, children_of};
ghost use Rattle.bw_model.specs.Marks.{price_of, IsBelow, IsAtMost};
ghost use Rattle.bw_model.specs.Split.{IsGreatestLast};
ghost use Rattle.bw_model.specs.Plan.{IsPlan, child_weights};
ghost use Rattle.bw_demand.specs.Demands.{demands_of, IsGathered};
ghost use Rattle.bw_model.specs.Certificate.{certified_of, IsAccepted};
ghost use Rattle.bw_cert.specs.Levels.{IsLevelAt, AreLevels, AreTightFlags};

use bw_demand::{Gathered, gather_rows};
use bw_model::limits::MAX_CAPACITY;
use bw_model::{Certificate, Instance, Mark, last_mark};
use bw_plan::Plan;
use std::alloc::{AllocError, Global};

fn costs_less(mark: Mark, other: Mark) -> bool
    ensures { IsTrue result → mark.num * other.den < other.num * mark.den }
{
    u128::from(mark.num) * u128::from(other.den) < u128::from(other.num) * u128::from(mark.den)
}

// The greater of two marks. The first may be missing.
fn greater(best: Option<Mark>, mark: Mark) -> Mark
    ensures none { IfNone best (result ≡ mark) }
    ensures some { IfSome best (λ best. ((result ≡ best) × IsBelow (price_of mark) (price_of best))
        ⊎ ((result ≡ mark) × IsAtMost (price_of best) (price_of mark))) }
{
    match best {
        None => mark,
        Some(best) => {
            // mostly the costs tell
            if costs_less(mark, best) {
                return best;
            }
            if mark < best { best } else { mark }
        }
    }
}

// The greatest last mark of the children of a group; None if they have no slice.
fn greatest_last(instance: &Instance, amounts: &[u64], g: u32) -> Option<Mark>
    requires row { g < length instance.now.rows }
    requires amount_each { length amounts.now ≡ length instance.now.rows }
    requires small { EachIndex amounts.now (λ k. slice_index amounts.now k ≤ MAX_CAPACITY) }
    ensures greatest { IfSome result (λ mark. IsGreatestLast (child_weights instance.now.rows g)
        (map (slice_index amounts.now) (children_of instance.now.rows g)) (price_of mark)) }
    ensures none { IfNone result
        (EachIndex (map (slice_index amounts.now) (children_of instance.now.rows g))
        (λ k. slice_index (map (slice_index amounts.now) (children_of instance.now.rows g)) k
        ≡ 0)) }
{
    // its contract says that the weights are in range
    let _rows = instance.rows();
    let mut level = None;
    for (place, child) in instance.children(g).iter().enumerate() {
        let amount = amounts[*child as usize];
        if amount > 0 {
            let mark = last_mark(amount, instance.weight(*child), place as u32);
            level = Some(greater(level, mark));
        }
    }
    level
}

// The level of a group, or None if it shares nothing out.
fn level_at(instance: &Instance, amounts: &[u64], g: u32) -> Option<Mark>
    requires row { g < length instance.now.rows }
    requires amount_each { length amounts.now ≡ length instance.now.rows }
    requires small { EachIndex amounts.now (λ k. slice_index amounts.now k ≤ MAX_CAPACITY) }
    requires whole { is_leaf instance.now.rows g ≡ false
        → slice_index amounts.now g ≡ sum_of_children instance.now.rows amounts.now g }
    ensures { IsLevelAt instance.now amounts.now g result }
{
    if instance.is_leaf(g) || amounts[g as usize] == 0 {
        return None;
    }
    greatest_last(instance, amounts, g)
}

/// The certificate of an instance's own plan.
///
/// It flags the tight groups. The level of a group that shares something out is the greatest last
/// mark of its children. The time grows with the number of rows.
///
/// # Errors
/// `AllocError` if memory was refused.
pub fn certify(alloc: Global, instance: &Instance, plan: &Plan) -> Result<Certificate, AllocError>
    requires plan { IsPlan instance.now plan.now.amounts.items }
    ensures certified { IfOk result
        (λ c. IsAccepted instance.now plan.now.amounts.items (certified_of c)) }
    ensures flags { IfOk result (λ c. AreTightFlags instance.now (certified_of c)) }
    ensures levels { IfOk result
        (λ c. AreLevels instance.now plan.now.amounts.items (certified_of c)) }
{
    let gathered = gather_rows(alloc, instance)?;
    certify_gathered(alloc, instance, gathered, plan)
}

/// [`certify`] for a caller that has gathered the demands.
///
/// # Errors
/// `AllocError` if memory was refused.
pub fn certify_gathered(
    alloc: Global,
    instance: &Instance,
    gathered: Gathered,
    plan: &Plan,
) -> Result<Certificate, AllocError>
    requires gathered { IsGathered instance.now (demands_of gathered) }
    requires plan { IsPlan instance.now plan.now.amounts.items }
    ensures certified { IfOk result
        (λ c. IsAccepted instance.now plan.now.amounts.items (certified_of c)) }
    ensures flags { IfOk result (λ c. AreTightFlags instance.now (certified_of c)) }
    ensures levels { IfOk result
        (λ c. AreLevels instance.now plan.now.amounts.items (certified_of c)) }
{
    let amounts = plan.amounts.as_slice();
    let mut levels: Vec<Option<Mark>> = Vec::with_capacity(alloc, amounts.len())?;
    for g in 0..instance.rows().len() {
        levels.push(level_at(instance, amounts, g as u32))?;
    }
    let Gathered {
        want: _,
        most: _,
        tight,
    } = gathered;
    Ok(Certificate { tight, levels })
}
