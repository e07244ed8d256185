//! Tables for the check, of one entry for each group, each made by one pass over the rows.
ghost use Rattle.std.specs.Prelude.{◌≡◌, ℕ, ◌+◌, ◌<◌, ◌≤◌, ◌^◌, length, slice_index, IfOk};
ghost use Rattle.std.specs.Prelude.{OnOk, unwrap_or};
ghost use Rattle.bw_model.specs.Groups.{AreTreeRows, is_leaf};
ghost use Rattle.bw_model.specs.Certificate.{certified_of, AreBounds};
ghost use Rattle.bw_check.specs.Counts.{AreGathered, bound_over};
ghost use Rattle.bw_check.specs.Tables.{AreSiblings, AreTables};
ghost use Rattle.bw_check.specs.Verdict.{AreOnePerRow};
ghost use Rattle.bw_check.specs.Visits.{AreVisits};

use crate::readers::{demand, limit, parent};
use bw_machine::Count;
use bw_model::limits::MAX_GROUPS;
use bw_model::{Certificate, HostShape, Instance, Row};
use std::alloc::{AllocError, Global};

/// One entry for each group.
#[derive(Drop)]
pub struct Siblings {
    /// The number of its siblings that were created before it.
    pub places: Vec<u32>,
    /// The number of its children.
    pub children: Vec<u32>,
}

/// One entry for each group.
#[derive(Drop)]
pub struct Tables {
    pub siblings: Siblings,
    /// The sum of its children's amounts, in slices.
    pub sums: Vec<u128>,
    /// The most slices that it can be given, as the flags say.
    pub bounds: Vec<u128>,
}

/// The place of each group among its siblings, and the number of its children.
///
/// # Errors
/// `AllocError` if memory was refused.
pub(crate) fn siblings_of(
    alloc: Global,
    rows: &[Row],
    visits: &mut Count,
) -> Result<Siblings, AllocError>
    requires tree { AreTreeRows rows.now }
    requires few { length rows.now ≤ MAX_GROUPS }
    ensures siblings { IfOk result (AreSiblings rows.now) }
    ensures visits { AreVisits rows.now 1 visits.old.steps visits.new.steps }
    ensures whole { OnOk result (visits.new.steps ≡ visits.old.steps + length rows.now) }
{
    let count = rows.len() as u32;
    let mut places = vec![in alloc; 0u32; count as usize]?;
    let mut children = vec![in alloc; 0u32; count as usize]?;
    for c in 0..count {
        *visits = visits.one_more();
        if let Some(parent) = parent(rows, c) {
            let place = children[parent as usize];
            places[c as usize] = place;
            children[parent as usize] = place + 1;
        }
    }
    Ok(Siblings { places, children })
}

// The sum of the amounts of each group's children.
fn children_sums(
    alloc: Global,
    instance: &Instance,
    amounts: &[u64],
    visits: &mut Count,
) -> Result<Vec<u128>, AllocError>
    requires { length amounts.now ≡ length instance.now.rows }
    ensures sums { IfOk result (λ sums. AreGathered instance.now.rows (slice_index amounts.now)
        (length instance.now.rows) sums.items) }
    ensures visits { AreVisits instance.now.rows 1 visits.old.steps visits.new.steps }
{
    let count = instance.group_count();
    let mut sums = vec![in alloc; 0u128; count as usize]?;
    for c in 0..count {
        *visits = visits.one_more();
        if let Some(parent) = instance.parent(c) {
            let sum = sums[parent as usize];
            sums[parent as usize] = sum + u128::from(amounts[c as usize]);
        }
    }
    Ok(sums)
}

/// The bound of a group by its flag or its demand. None says that it is its children's sum.
pub(crate) fn own_bound(
    shape: HostShape,
    rows: &[Row],
    certificate: &Certificate,
    leaf: bool,
    g: u32,
) -> Option<u64>
    requires flags_each { length certificate.now.tight.items ≡ length rows.now }
    requires leaf { leaf ≡ is_leaf rows.now g }
    requires within { g < length rows.now }
    ensures { (below : ℕ) → bound_over (record { shape = shape; rows = rows.now })
        (certified_of certificate.now) below g ≡ unwrap_or result below }
{
    if certificate.tight[g as usize] {
        if let Some(limit) = limit(shape, rows, g) {
            return Some(limit);
        }
    }
    if leaf { Some(demand(rows, g)) } else { None }
}

// The bound of a group whose children's bounds have this sum.
fn bound_of(instance: &Instance, certificate: &Certificate, below: u128, g: u32) -> u128
    requires within { g < length instance.now.rows }
    requires flags_each { length certificate.now.tight.items ≡ length instance.now.rows }
    ensures value { result ≡ bound_over instance.now (certified_of certificate.now) below g }
    ensures small { result < below + 2 ^ 64 }
{
    let leaf = instance.is_leaf(g);
    match own_bound(instance.shape(), instance.rows(), certificate, leaf, g) {
        None => below,
        Some(bound) => u128::from(bound),
    }
}

// The bound of each group, from the last row up.
fn bounds(
    alloc: Global,
    instance: &Instance,
    certificate: &Certificate,
    visits: &mut Count,
) -> Result<Vec<u128>, AllocError>
    requires { length certificate.now.tight.items ≡ length instance.now.rows }
    ensures bounds { IfOk result
        (λ bounds. AreBounds instance.now (certified_of certificate.now) bounds.items) }
    ensures visits { AreVisits instance.now.rows 1 visits.old.steps visits.new.steps }
{
    let count = instance.group_count();
    let mut below = vec![in alloc; 0u128; count as usize]?;
    let mut bounds = vec![in alloc; 0u128; count as usize]?;
    for g in (0..count).rev() {
        *visits = visits.one_more();
        let bound = bound_of(instance, certificate, below[g as usize], g);
        bounds[g as usize] = bound;
        if let Some(parent) = instance.parent(g) {
            let sum = below[parent as usize];
            below[parent as usize] = sum + bound;
        }
    }
    Ok(bounds)
}

/// All tables of the amounts and the certificate.
///
/// # Errors
/// `AllocError` if memory was refused.
pub fn tables_of(
    alloc: Global,
    instance: &Instance,
    amounts: &[u64],
    certificate: &Certificate,
    visits: &mut Count,
) -> Result<Tables, AllocError>
    requires { AreOnePerRow instance.now.rows amounts.now (certified_of certificate.now) }
    ensures tables { IfOk result
        (AreTables instance.now amounts.now (certified_of certificate.now)) }
    ensures visits { AreVisits instance.now.rows 3 visits.old.steps visits.new.steps }
    ensures whole { OnOk result
        (visits.old.steps + length instance.now.rows ≤ visits.new.steps) }
{
    Ok(Tables {
        siblings: siblings_of(alloc, instance.rows(), visits)?,
        sums: children_sums(alloc, instance, amounts, visits)?,
        bounds: bounds(alloc, instance, certificate, visits)?,
    })
}
