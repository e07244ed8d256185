//! One group's amount among its children.
ghost use Rattle.std.specs.Prelude.{◌≡◌, ◌≢◌, ℕ, ◌<◌, false, length, slice_index};
ghost use Rattle.std.specs.Prelude.{EachIndex};
ghost use Rattle.std.specs.Prelude.{IfOk, OnOk};
ghost use Rattle.bw_model.specs.Groups.{children_of, is_leaf};
ghost use Rattle.bw_plan.specs.Cost.{IsOneCounted, AreCountedParts};
ghost use Rattle.bw_plan.specs.Shared.{CanShare, AreBestParts, AreParts, IsGiven, IsSharedOut};

use crate::children::{cut_child_values, narrow_child_weights};
use crate::counted_parts::CountedParts;
use bw_model::Instance;
use bw_split::{Work, split_counted, split_scarce, sum_of};
use std::alloc::{AllocError, Global};

// Writes each part to its place.
fn write_parts(amounts: &mut Vec<u64>, places: &[u32], parts: &[u16])
    requires part_each { length parts.now ≡ length places.now }
    requires within { EachIndex places.now
        (λ k. slice_index places.now k < length amounts.old.items) }
    requires apart { (j k : ℕ) → j < k → k < length places.now
        → slice_index places.now j ≢ slice_index places.now k }
    ensures len { length amounts.new.items ≡ length amounts.old.items }
    ensures written { EachIndex places.now
        (λ k. slice_index amounts.new.items (slice_index places.now k) ≡ slice_index parts.now k) }
    ensures others { (i : ℕ) → ((k : ℕ) → k < length places.now → slice_index places.now k ≢ i)
        → slice_index amounts.new.items i ≡ slice_index amounts.old.items i }
{
    for k in 0..places.len() {
        amounts[places[k] as usize] = u64::from(parts[k]);
    }
}

// The best split of what a group with children has.
fn split_among(
    alloc: Global,
    instance: &Instance,
    most: &[u64],
    amounts: &[u64],
    g: u32,
    work: &mut Work,
) -> Result<Vec<u16>, AllocError>
    requires can_share { CanShare instance.now most.now amounts.now g }
    requires inner { is_leaf instance.now.rows g ≡ false }
    ensures parts { IfOk result
        (λ parts. AreBestParts instance.now most.now amounts.now g parts.items) }
    ensures counted { IsOneCounted instance.now.rows g work.old work.new }
{
    // its contract says that the weights are in range
    let _rows = instance.rows();
    let amount = amounts[g as usize];
    let mosts = cut_child_values(alloc, instance, most, g, amount)?;
    let weights = narrow_child_weights(alloc, instance, g)?;
    split_counted(alloc, amount, weights.as_slice(), mosts.as_slice(), work)
}

// The parts of what a group has, one for each child in order, in slices. The list is empty, and
// takes no memory, if the group has nothing or fewer than two children.
fn parts_of(
    alloc: Global,
    instance: &Instance,
    most: &[u64],
    amounts: &[u64],
    g: u32,
    work: &mut Work,
) -> Result<Vec<u16>, AllocError>
    requires { CanShare instance.now most.now amounts.now g }
    ensures parts { IfOk result
        (λ parts. AreParts instance.now most.now amounts.now g parts.items) }
    ensures counted { IsOneCounted instance.now.rows g work.old work.new }
{
    if amounts[g as usize] == 0 || instance.children(g).len() < 2 {
        return Ok(Vec::new(alloc));
    }
    split_among(alloc, instance, most, amounts, g, work)
}

/// The parts of what a group has, one for each child in order, in slices, with a count of their
/// split. The list is empty, and takes no memory, if the group has nothing or fewer than two
/// children.
///
/// # Errors
/// `AllocError` if memory was refused.
pub(crate) fn counted_parts_of(
    alloc: Global,
    instance: &Instance,
    most: &[u64],
    amounts: &[u64],
    g: u32,
) -> Result<CountedParts, AllocError>
    requires { CanShare instance.now most.now amounts.now g }
    ensures { IfOk result (AreCountedParts instance.now most.now amounts.now g) }
{
    let mut work = Work::new();
    let parts = parts_of(alloc, instance, most, amounts, g, &mut work)?;
    Ok(CountedParts { parts, work })
}

/// Gives the children of a group what it has: all to an only child, else each its part.
pub fn give(instance: &Instance, g: u32, parts: &[u16], amounts: &mut Vec<u64>)
    requires row { g < length instance.now.rows }
    requires amount_each { length amounts.old.items ≡ length instance.now.rows }
    requires part_each { 0 < slice_index amounts.old.items g
        → 1 < length (children_of instance.now.rows g)
        → length parts.now ≡ length (children_of instance.now.rows g) }
    ensures { IsGiven instance.now.rows g parts.now amounts.old.items amounts.new.items }
{
    let amount = amounts[g as usize];
    if amount == 0 {
        return;
    }
    match instance.children(g) {
        [] => {}
        [only] => amounts[*only as usize] = amount,
        children => write_parts(amounts, children, parts),
    }
}

// Shares out what a group with children has. Children that fit in with their mosts need no split,
// as on a host with time to spare.
#[inline(never)]
fn share_among(
    alloc: Global,
    instance: &Instance,
    most: &[u64],
    g: u32,
    amounts: &mut Vec<u64>,
    work: &mut Work,
) -> Result<(), AllocError>
    requires can_share { CanShare instance.now most.now amounts.old.items g }
    requires inner { is_leaf instance.now.rows g ≡ false }
    ensures shared { OnOk result
        (IsSharedOut instance.now most.now g amounts.old.items amounts.new.items) }
    ensures counted { IsOneCounted instance.now.rows g work.old work.new }
{
    // its contract says that the weights are in range
    let _rows = instance.rows();
    let amount = amounts[g as usize];
    let mut mosts = cut_child_values(alloc, instance, most, g, amount)?;
    if sum_of(mosts.as_slice()) <= amount {
        give(instance, g, mosts.as_slice(), amounts);
        return Ok(());
    }
    let weights = narrow_child_weights(alloc, instance, g)?;
    // each part takes the place of its child's most
    split_scarce(amount, weights.as_slice(), mosts.as_mut_slice(), work);
    give(instance, g, mosts.as_slice(), amounts);
    Ok(())
}

/// Shares out what a group has among its children, in place, with the rounds and picks of its split
/// added to a count.
///
/// It takes memory only if the group has something and more than eight children: for one list, and
/// for a second one if the children can be given more than the group has.
///
/// # Errors
/// `AllocError` if memory was refused.
#[inline(always)]
pub fn share_out(
    alloc: Global,
    instance: &Instance,
    most: &[u64],
    g: u32,
    amounts: &mut Vec<u64>,
    work: &mut Work,
) -> Result<(), AllocError>
    requires { CanShare instance.now most.now amounts.old.items g }
    ensures shared { OnOk result
        (IsSharedOut instance.now most.now g amounts.old.items amounts.new.items) }
    ensures counted { IsOneCounted instance.now.rows g work.old work.new }
{
    if amounts[g as usize] == 0 || instance.children(g).len() < 2 {
        give(instance, g, &[], amounts);
        return Ok(());
    }
    share_among(alloc, instance, most, g, amounts, work)
}
