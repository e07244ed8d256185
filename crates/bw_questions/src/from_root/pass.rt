//! The least weights at each group, from the root down, with which each group has what it needs.
ghost use Rattle.std.specs.Prelude.{◌≡◌, ◌≢◌, ℕ, ◌+◌, ◌<◌, ◌≤◌, false, length, slice_index};
ghost use Rattle.std.specs.Prelude.{EachIndex, IfOk, OnOk};
ghost use Rattle.bw_model.specs.Groups.{is_leaf};
ghost use Rattle.bw_questions.specs.Passes.{AreColumns, AreAllNeeds, CanShareAt, IsPassed};
ghost use Rattle.bw_questions.specs.Passes.{IsLeastAt, IsShared, CanMeetAt, all_weights};

use super::meeting::{Meeting, least_raise};
use bw_model::Instance;
use bw_plan::{child_values, child_weights};
use std::alloc::{AllocError, Global};

/// The weight and the amount of each row.
#[derive(Debug, Drop)]
pub(crate) struct Passed {
    /// The weight of each row.
    pub(crate) weights: Vec<u64>,
    /// The slices of each row.
    pub(crate) amounts: Vec<u64>,
}

// Writes each value to its place.
fn write_at(values: &mut Vec<u64>, places: &[u32], parts: &[u64])
    requires part_each { length parts.now ≡ length places.now }
    requires within { EachIndex places.now
        (λ k. slice_index places.now k < length values.old.items) }
    requires apart { (j k : ℕ) → j < k → k < length places.now
        → slice_index places.now j ≢ slice_index places.now k }
    ensures len { length values.new.items ≡ length values.old.items }
    ensures written { EachIndex places.now
        (λ k. slice_index values.new.items (slice_index places.now k) ≡ slice_index parts.now k) }
    ensures others { (i : ℕ) → ((k : ℕ) → k < length places.now → slice_index places.now k ≢ i)
        → slice_index values.new.items i ≡ slice_index values.old.items i }
{
    for k in 0..places.len() {
        values[places[k] as usize] = parts[k];
    }
}

// The least weights of a group's children with which each has what it needs of an amount.
fn meeting_at(
    alloc: Global,
    instance: &Instance,
    tops: &[u64],
    most: &[u64],
    goals: &[u64],
    needs: &[u64],
    g: u32,
    amount: u64,
) -> Result<Meeting, AllocError>
    requires columns { AreColumns instance.now tops.now most.now goals.now }
    requires can { CanShareAt instance.now tops.now most.now needs.now g amount }
    ensures { IfOk result (λ m. IsLeastAt instance.now tops.now most.now needs.now g amount
        m.weights.items m.parts.items) }
{
    let _rows = instance.rows();
    let floors = child_weights(alloc, instance, g)?;
    let child_tops = child_values(alloc, instance, tops, g)?;
    let child_most = child_values(alloc, instance, most, g)?;
    let child_needs = child_values(alloc, instance, needs, g)?;
    let found = least_raise(
        alloc,
        amount,
        floors.as_slice(),
        child_tops.as_slice(),
        child_most.as_slice(),
        child_needs.as_slice(),
    )?;
    match found {
        Some(meeting) => Ok(meeting),
        None => unreachable!(),
    }
}

// The children of a group get their least weights, and their parts of what it has.
fn share(
    alloc: Global,
    instance: &Instance,
    tops: &[u64],
    most: &[u64],
    goals: &[u64],
    needs: &[u64],
    g: u32,
    passed: &mut Passed,
) -> Result<(), AllocError>
    requires columns { AreColumns instance.now tops.now most.now goals.now }
    requires can { CanShareAt instance.now tops.now most.now needs.now g
        (slice_index passed.old.amounts.items g) }
    requires weights { length passed.old.weights.items ≡ length instance.now.rows }
    requires amounts { length passed.old.amounts.items ≡ length instance.now.rows }
    ensures { OnOk result (IsShared instance.now tops.now most.now needs.now g
        passed.old.weights.items passed.old.amounts.items
        passed.new.weights.items passed.new.amounts.items) }
{
    let _rows = instance.rows();
    let amount = passed.amounts[g as usize];
    let meeting = meeting_at(alloc, instance, tops, most, goals, needs, g, amount)?;
    let children = instance.children(g);
    write_at(&mut passed.weights, children, meeting.weights.as_slice());
    write_at(&mut passed.amounts, children, meeting.parts.as_slice());
    Ok(())
}

/// The weight of each row.
///
/// # Errors
/// `AllocError` if memory was refused.
pub(crate) fn weights_of(alloc: Global, instance: &Instance) -> Result<Vec<u64>, AllocError>
    ensures { IfOk result (λ weights. weights.items ≡ all_weights instance.now.rows) }
{
    instance.rows().iter().map(|row| row.weight).collect(alloc)
}

// One more row of a pass: a group with children shares out what it has.
fn step(
    alloc: Global,
    instance: &Instance,
    tops: &[u64],
    most: &[u64],
    goals: &[u64],
    needs: &[u64],
    g: u32,
    passed: &mut Passed,
) -> Result<(), AllocError>
    requires row { g < length instance.now.rows }
    requires columns { AreColumns instance.now tops.now most.now goals.now }
    requires needs { AreAllNeeds instance.now tops.now most.now goals.now needs.now }
    requires so_far { IsPassed instance.now tops.now most.now needs.now g
        passed.old.weights.items passed.old.amounts.items }
    ensures { OnOk result (IsPassed instance.now tops.now most.now needs.now (g + 1)
        passed.new.weights.items passed.new.amounts.items) }
{
    let _rows = instance.rows();
    if instance.is_leaf(g) {
        return Ok(());
    }
    share(alloc, instance, tops, most, goals, needs, g, passed)
}

/// The weights, and their amounts, of a pass from the root down.
///
/// # Errors
/// `AllocError` if memory was refused.
pub(crate) fn pass(
    alloc: Global,
    instance: &Instance,
    tops: &[u64],
    most: &[u64],
    goals: &[u64],
    needs: &[u64],
) -> Result<Passed, AllocError>
    requires columns { AreColumns instance.now tops.now most.now goals.now }
    requires needs { AreAllNeeds instance.now tops.now most.now goals.now needs.now }
    ensures { IfOk result (λ passed. IsPassed instance.now tops.now most.now needs.now
        (length instance.now.rows) passed.weights.items passed.amounts.items) }
{
    let count = instance.rows().len();
    let weights = weights_of(alloc, instance)?;
    let mut amounts = vec![in alloc; 0u64; count]?;
    amounts[0] = most[0];
    let mut passed = Passed { weights, amounts };
    for g in 0..count {
        step(
            alloc,
            instance,
            tops,
            most,
            goals,
            needs,
            g as u32,
            &mut passed,
        )?;
    }
    Ok(passed)
}
