//! Needs of the groups, with which the goals inside them are met, from the last row up.
ghost use Rattle.std.specs.Prelude.{◌≡◌, ℕ, ◌<◌, ◌≤◌, false, length, slice_index, IfOk};
ghost use Rattle.bw_model.specs.Groups.{is_leaf};
ghost use Rattle.bw_questions.specs.Passes.{AreColumns, AreNeeds, AreNeedsBelow, IsLeastThat};
ghost use Rattle.bw_questions.specs.Passes.{IsFirst, Suffices};

use super::meeting::least_amount;
use bw_model::Instance;
use bw_model::limits::MAX_CAPACITY;
use bw_plan::{child_values, child_weights};
use std::alloc::{AllocError, Global};

/// Needs of all groups, or the last group that needs more than it can be given.
#[derive(Debug, Drop)]
pub(crate) enum Needs {
    /// The least slices of each row with which the goals inside it can be met.
    Known(Vec<u64>),
    /// A group that cannot meet the goals inside it, whatever it is given.
    Beyond(u32),
}

// The slices that a group has at least: its goal, and the root all that is served.
fn first_of(most: &[u64], goals: &[u64], g: usize) -> u64
    requires most { g < length most.now }
    requires goals { g < length goals.now }
    ensures { IsFirst most.now goals.now g result }
{
    if g == 0 && most[0] > goals[0] {
        most[0]
    } else {
        goals[g]
    }
}

// The least amount of a group with children with which its goal and what is inside are met.
fn inner_need(
    alloc: Global,
    instance: &Instance,
    tops: &[u64],
    most: &[u64],
    goals: &[u64],
    needs: &[u64],
    g: u32,
) -> Result<Option<u64>, AllocError>
    requires row { g < length instance.now.rows }
    requires inner { is_leaf instance.now.rows g ≡ false }
    requires columns { AreColumns instance.now tops.now most.now goals.now }
    requires needs { AreNeedsBelow instance.now.rows most.now needs.now g }
    ensures { IfOk result
        (IsLeastThat (Suffices instance.now tops.now most.now goals.now needs.now g)) }
{
    let _rows = instance.rows();
    let limit = most[g as usize].min(MAX_CAPACITY);
    let first = first_of(most, goals, g as usize);
    let floors = child_weights(alloc, instance, g)?;
    let child_tops = child_values(alloc, instance, tops, g)?;
    let child_most = child_values(alloc, instance, most, g)?;
    let child_needs = child_values(alloc, instance, needs, g)?;
    least_amount(
        alloc,
        first,
        limit,
        floors.as_slice(),
        child_tops.as_slice(),
        child_most.as_slice(),
        child_needs.as_slice(),
    )
}

// The least amount of a group with which its goal and what is inside are met.
fn need_of(
    alloc: Global,
    instance: &Instance,
    tops: &[u64],
    most: &[u64],
    goals: &[u64],
    needs: &[u64],
    g: u32,
) -> Result<Option<u64>, AllocError>
    requires row { g < length instance.now.rows }
    requires columns { AreColumns instance.now tops.now most.now goals.now }
    requires needs { AreNeedsBelow instance.now.rows most.now needs.now g }
    ensures { IfOk result
        (IsLeastThat (Suffices instance.now tops.now most.now goals.now needs.now g)) }
{
    let _rows = instance.rows();
    if !instance.is_leaf(g) {
        return inner_need(alloc, instance, tops, most, goals, needs, g);
    }
    let limit = most[g as usize].min(MAX_CAPACITY);
    let first = first_of(most, goals, g as usize);
    if first > limit {
        return Ok(None);
    }
    Ok(Some(first))
}

/// The need of each group, or a group that needs more than it can be given.
///
/// # Errors
/// `AllocError` if memory was refused.
pub(crate) fn needs_of(
    alloc: Global,
    instance: &Instance,
    tops: &[u64],
    most: &[u64],
    goals: &[u64],
) -> Result<Needs, AllocError>
    requires { AreColumns instance.now tops.now most.now goals.now }
    ensures { IfOk result (AreNeeds instance.now tops.now most.now goals.now) }
{
    let count = instance.rows().len();
    let mut needs = vec![in alloc; 0u64; count]?;
    for g in (0..count).rev() {
        let need = need_of(
            alloc,
            instance,
            tops,
            most,
            goals,
            needs.as_slice(),
            g as u32,
        )?;
        match need {
            Some(amount) => needs[g] = amount,
            None => return Ok(Needs::Beyond(g as u32)),
        }
    }
    Ok(Needs::Known(needs))
}
