//! The groups of a hierarchy as columns of numbers.
ghost use Rattle.std.specs.Prelude.{◌≡◌, ◌≤◌, ◌++◌, length, map, IfOk, IfErr, OnOk};
ghost use Rattle.bw_model.specs.declared.limits.TheConstants.{MAX_GROUPS};
ghost use Rattle.bw_tree.specs.Groups.{group_at};
ghost use Rattle.bw_columns.specs.Asked.{limit_number};
ghost use Rattle.bw_columns.specs.Groups.{parent_number, quota_number, number_at, name_line};
ghost use Rattle.bw_columns.specs.Groups.{name_lines, told_of, columns_of, AreLong};

use crate::columns::{NO_LIMIT, NO_PARENT, limit_number};
use bw_hierarchy::{Fault, Hierarchy};
use bw_model::{Quota, Row};
use bw_tree::{GroupId, Tree, TreeFault};
use std::alloc::{AllocError, Global};

/// The groups of a hierarchy by column, in order of creation.
#[derive(Drop)]
pub struct GroupColumns {
    /// The row of each parent, the greatest number for none.
    pub parents: Vec<u32>,
    /// Weights of 1 to 10,000.
    pub weights: Vec<u64>,
    /// Limits of the next period in slices, the greatest number for none.
    pub limits: Vec<u64>,
    /// Demands in slices of one period.
    pub demands: Vec<u64>,
    /// Quotas in microseconds of each own period, the greatest number for none.
    pub quotas: Vec<u64>,
    /// Own periods in microseconds.
    pub periods: Vec<u64>,
    /// Bursts in microseconds of each own period.
    pub bursts: Vec<u64>,
    /// Slices of each limit that the last period left.
    pub carries: Vec<u64>,
    /// The last name of each group, each with a newline behind it.
    pub names: Vec<u8>,
}

fn parent_number(parent: Option<u32>) -> u32
    ensures { result ≡ parent_number parent }
{
    match parent {
        None => NO_PARENT,
        Some(row) => row,
    }
}

fn quota_number(quota: Quota) -> u64
    ensures { result ≡ quota_number quota }
{
    match quota {
        Quota::Max => NO_LIMIT,
        Quota::Micros(us) => us,
    }
}

fn parents(alloc: Global, rows: &[Row]) -> Result<Vec<u32>, AllocError>
    ensures { IfOk result (λ v. v.items ≡ map (λ row. parent_number row.parent) rows.now) }
{
    rows.iter()
        .map(|row| parent_number(row.parent))
        .collect(alloc)
}

fn weights(alloc: Global, rows: &[Row]) -> Result<Vec<u64>, AllocError>
    ensures { IfOk result (λ v. v.items ≡ map (λ row. row.weight) rows.now) }
{
    rows.iter().map(|row| row.weight).collect(alloc)
}

fn limits(alloc: Global, rows: &[Row]) -> Result<Vec<u64>, AllocError>
    ensures { IfOk result (λ v. v.items ≡ map (λ row. limit_number row.limit) rows.now) }
{
    rows.iter()
        .map(|row| limit_number(row.limit))
        .collect(alloc)
}

fn demands(alloc: Global, rows: &[Row]) -> Result<Vec<u64>, AllocError>
    ensures { IfOk result (λ v. v.items ≡ map (λ row. row.demand) rows.now) }
{
    rows.iter().map(|row| row.demand).collect(alloc)
}

fn quota_at(tree: &Tree, id: GroupId) -> u64
    ensures { result ≡ number_at (λ g. quota_number g.quota) (group_at tree.now.groups id) }
{
    match tree.group(id) {
        None => 0,
        Some(group) => quota_number(group.quota),
    }
}

fn period_at(tree: &Tree, id: GroupId) -> u64
    ensures { result ≡ number_at (λ g. g.period) (group_at tree.now.groups id) }
{
    match tree.group(id) {
        None => 0,
        Some(group) => group.period,
    }
}

fn burst_at(tree: &Tree, id: GroupId) -> u64
    ensures { result ≡ number_at (λ g. g.burst) (group_at tree.now.groups id) }
{
    match tree.group(id) {
        None => 0,
        Some(group) => group.burst,
    }
}

fn carry_at(tree: &Tree, id: GroupId) -> u64
    ensures { result ≡ number_at (λ g. g.carry) (group_at tree.now.groups id) }
{
    match tree.group(id) {
        None => 0,
        Some(group) => group.carry,
    }
}

fn quotas(alloc: Global, tree: &Tree, ids: &[GroupId]) -> Result<Vec<u64>, AllocError>
    ensures { IfOk result (λ v. v.items
        ≡ map (λ id. number_at (λ g. quota_number g.quota) (group_at tree.now.groups id)) ids.now) }
{
    ids.iter().map(|id| quota_at(tree, *id)).collect(alloc)
}

fn periods(alloc: Global, tree: &Tree, ids: &[GroupId]) -> Result<Vec<u64>, AllocError>
    ensures { IfOk result (λ v. v.items
        ≡ map (λ id. number_at (λ g. g.period) (group_at tree.now.groups id)) ids.now) }
{
    ids.iter().map(|id| period_at(tree, *id)).collect(alloc)
}

fn bursts(alloc: Global, tree: &Tree, ids: &[GroupId]) -> Result<Vec<u64>, AllocError>
    ensures { IfOk result (λ v. v.items
        ≡ map (λ id. number_at (λ g. g.burst) (group_at tree.now.groups id)) ids.now) }
{
    ids.iter().map(|id| burst_at(tree, *id)).collect(alloc)
}

fn carries(alloc: Global, tree: &Tree, ids: &[GroupId]) -> Result<Vec<u64>, AllocError>
    ensures { IfOk result (λ v. v.items
        ≡ map (λ id. number_at (λ g. g.carry) (group_at tree.now.groups id)) ids.now) }
{
    ids.iter().map(|id| carry_at(tree, *id)).collect(alloc)
}

// Appends the name of a group, and a newline.
fn push_name(text: &mut Vec<u8>, tree: &Tree, id: GroupId) -> Result<(), AllocError>
    ensures { OnOk result
        (text.new.items ≡ text.old.items ++ name_line (group_at tree.now.groups id)) }
{
    if let Some(group) = tree.group(id) {
        text.extend_from_slice(group.name.as_str().as_bytes())?;
    }
    text.push(b'\n')?;
    Ok(())
}

fn names(alloc: Global, tree: &Tree, ids: &[GroupId]) -> Result<Vec<u8>, AllocError>
    ensures { IfOk result (λ v. v.items ≡ name_lines tree.now.groups ids.now) }
{
    let mut text = Vec::new(alloc);
    for id in ids {
        push_name(&mut text, tree, *id)?;
    }
    Ok(text)
}

/// The columns of the groups of a hierarchy. The limits are those of the next period.
///
/// # Errors
/// `OutOfMemory` if an allocation failed.
pub fn group_columns(alloc: Global, hierarchy: &Hierarchy) -> Result<GroupColumns, Fault>
    ensures told { IfOk result (λ c. columns_of c ≡ told_of hierarchy.now) }
    ensures long { IfOk result (λ c. AreLong (columns_of c)) }
    ensures few { IfOk result (λ c. length c.parents.items ≤ MAX_GROUPS) }
    ensures err { IfErr result (λ e. e ≡ Fault.Tree TreeFault.OutOfMemory) }
{
    let snapshot = hierarchy.snapshot()?;
    let rows = snapshot.instance.rows();
    let tree = hierarchy.tree();
    let ids = snapshot.ids.as_slice();
    Ok(GroupColumns {
        parents: parents(alloc, rows)?,
        weights: weights(alloc, rows)?,
        limits: limits(alloc, rows)?,
        demands: demands(alloc, rows)?,
        quotas: quotas(alloc, tree, ids)?,
        periods: periods(alloc, tree, ids)?,
        bursts: bursts(alloc, tree, ids)?,
        carries: carries(alloc, tree, ids)?,
        names: names(alloc, tree, ids)?,
    })
}
