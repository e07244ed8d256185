//! One pass from the last group up, which shows that a certificate has no fault.
ghost use Rattle.std.specs.Prelude.{◌≡◌, ◌+◌, ◌*◌, ◌<◌, ◌≤◌, true, length, slice_index, slice_set};
ghost use Rattle.std.specs.Prelude.{IsTrue, IfOk, IfSome, OnOk};
ghost use Rattle.bw_model.specs.Groups.{IsInstance, is_leaf, sum_of_children};
ghost use Rattle.bw_model.specs.Certificate.{certified_of, IsAccepted};
ghost use Rattle.bw_check.specs.Counts.{ArePlaces, bound_over};
ghost use Rattle.bw_check.specs.Tables.{AreSiblings};
ghost use Rattle.bw_check.specs.Verdict.{AreOnePerRow, IsFreeRow, IsWithinLimit};
ghost use Rattle.bw_check.specs.Verdict.{IsWithinDemand, IsChildrenSum, IsFlagLimited, HasLevel};
ghost use Rattle.bw_check.specs.Verdict.{IsLastMarkKept, IsNextMarkKept};
ghost use Rattle.bw_check.specs.Visits.{AreVisits};

use crate::conditions::{
    has_level, is_children_sum, is_flag_limited, is_within_demand, is_within_limit,
};
use crate::marks::{is_last_mark_kept, is_next_mark_kept};
use crate::readers::parent;
use crate::tables::{Siblings, own_bound, siblings_of};
use bw_machine::Count;
use bw_model::limits::MAX_CAPACITY;
use bw_model::{Certificate, HostShape, Row};
use std::alloc::{AllocError, Global};

// Adds to the sum of a group. `false` says that the sum does not fit.
fn is_added(sums: &mut Vec<u64>, g: u32, value: u64) -> bool
    requires { g < length sums.old.items }
    ensures { IsTrue result → sums.new.items
        ≡ slice_set sums.old.items g (slice_index sums.old.items g + value) }
{
    match sums[g as usize].checked_add(value) {
        None => false,
        Some(sum) => {
            sums[g as usize] = sum;
            true
        }
    }
}

// Whether a group with this bound is free of each fault. Its children's amounts have this sum.
fn is_free_row(
    shape: HostShape,
    rows: &[Row],
    amounts: &[u64],
    certificate: &Certificate,
    places: &[u32],
    leaf: bool,
    below: u64,
    bound: u64,
    g: u32,
) -> bool
    requires valid { IsInstance (record { shape = shape; rows = rows.now }) }
    requires one_per_row { AreOnePerRow rows.now amounts.now (certified_of certificate.now) }
    requires places { ArePlaces rows.now (length rows.now) places.now }
    requires leaf { leaf ≡ is_leaf rows.now g }
    requires below { below ≡ sum_of_children rows.now amounts.now g }
    requires within { g < length rows.now }
    ensures limit { IsTrue result
        → IsWithinLimit (record { shape = shape; rows = rows.now }) amounts.now g }
    ensures demand { IsTrue result → IsWithinDemand rows.now amounts.now g }
    ensures sum { IsTrue result → IsChildrenSum rows.now amounts.now g }
    ensures flag { IsTrue result → IsFlagLimited (record { shape = shape; rows = rows.now })
        (certified_of certificate.now) g }
    ensures greatest { IsTrue result → g ≡ 0 → slice_index amounts.now g ≡ bound }
    ensures level { IsTrue result → HasLevel rows.now amounts.now (certified_of certificate.now) g }
    ensures last { IsTrue result
        → IsLastMarkKept rows.now amounts.now (certified_of certificate.now) g }
    ensures next { IsTrue result
        → IsNextMarkKept rows.now amounts.now (certified_of certificate.now) bound g }
{
    let amount = amounts[g as usize];
    is_within_limit(shape, rows, amounts, g)
        && is_within_demand(rows, amounts, leaf, g)
        && is_children_sum(rows, amounts, leaf, u128::from(below), g)
        && is_flag_limited(shape, rows, certificate, g)
        && (g > 0 || amount == bound)
        && has_level(rows, amounts, certificate, leaf, g)
        && amount <= MAX_CAPACITY
        && is_last_mark_kept(rows, amounts, certificate, places, g)
        && is_next_mark_kept(rows, amounts, certificate, places, u128::from(bound), g)
}

// Whether a group has no children.
fn is_leaf(rows: &[Row], siblings: &Siblings, g: u32) -> bool
    requires siblings { AreSiblings rows.now siblings.now }
    requires within { g < length rows.now }
    ensures { result ≡ is_leaf rows.now g }
{
    let _rows = rows;
    siblings.children[g as usize] == 0
}

// The bound of a group that is free of each fault. Of its children, the amounts and the bounds
// have these sums.
fn free_bound(
    shape: HostShape,
    rows: &[Row],
    amounts: &[u64],
    certificate: &Certificate,
    siblings: &Siblings,
    amounts_below: u64,
    bounds_below: u64,
    g: u32,
) -> Option<u64>
    requires valid { IsInstance (record { shape = shape; rows = rows.now }) }
    requires one_per_row { AreOnePerRow rows.now amounts.now (certified_of certificate.now) }
    requires siblings { AreSiblings rows.now siblings.now }
    requires amounts_below { amounts_below ≡ sum_of_children rows.now amounts.now g }
    requires within { g < length rows.now }
    ensures bound { IfSome result (λ bound. bound ≡ bound_over
        (record { shape = shape; rows = rows.now }) (certified_of certificate.now) bounds_below g) }
    ensures free { IfSome result (IsFreeRow (record { shape = shape; rows = rows.now }) amounts.now
        (certified_of certificate.now) g) }
{
    let leaf = is_leaf(rows, siblings, g);
    let bound = own_bound(shape, rows, certificate, leaf, g).unwrap_or(bounds_below);
    let places = siblings.places.as_slice();
    if is_free_row(
        shape,
        rows,
        amounts,
        certificate,
        places,
        leaf,
        amounts_below,
        bound,
        g,
    ) {
        Some(bound)
    } else {
        None
    }
}

/// Whether one pass over the rows shows that the amounts are certified. `false` says nothing.
///
/// # Errors
/// `AllocError` if memory was refused.
// in a function of its own, so that the loop has the registers
#[inline(never)]
pub(crate) fn are_certified(
    alloc: Global,
    shape: HostShape,
    rows: &[Row],
    amounts: &[u64],
    certificate: &Certificate,
    visits: &mut Count,
) -> Result<bool, AllocError>
    requires valid { IsInstance (record { shape = shape; rows = rows.now }) }
    requires one_per_row { AreOnePerRow rows.now amounts.now (certified_of certificate.now) }
    ensures shown { IfOk result (λ shown. shown ≡ true
        → IsAccepted (record { shape = shape; rows = rows.now }) amounts.now
        (certified_of certificate.now)) }
    ensures visits { AreVisits rows.now 2 visits.old.steps visits.new.steps }
    ensures once { OnOk result (visits.old.steps + length rows.now ≤ visits.new.steps) }
    ensures twice { IfOk result (λ shown. shown ≡ true
        → visits.new.steps ≡ visits.old.steps + 2 * length rows.now) }
{
    let siblings = siblings_of(alloc, rows, visits)?;
    let count = rows.len() as u32;
    let mut amounts_below = vec![in alloc; 0u64; count as usize]?;
    let mut bounds_below = vec![in alloc; 0u64; count as usize]?;
    for g in (0..count).rev() {
        *visits = visits.one_more();
        let (sum, below) = (amounts_below[g as usize], bounds_below[g as usize]);
        let Some(bound) = free_bound(shape, rows, amounts, certificate, &siblings, sum, below, g)
        else {
            return Ok(false);
        };
        if let Some(parent) = parent(rows, g) {
            if !is_added(&mut amounts_below, parent, amounts[g as usize]) {
                return Ok(false);
            }
            if !is_added(&mut bounds_below, parent, bound) {
                return Ok(false);
            }
        }
    }
    Ok(true)
}
