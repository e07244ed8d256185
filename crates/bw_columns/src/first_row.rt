//! The row that a refusal of rows speaks of.
ghost use Rattle.std.specs.Prelude.{◌≡◌, ◌<◌, ◌≤◌, true, None, Some, length, nat_lt};
ghost use Rattle.std.specs.Prelude.{IfSome, IfNone};
ghost use Rattle.bw_model.specs.declared.instance_fault.InstanceFault.TheVariants.{TooDeep};
ghost use Rattle.bw_model.specs.Groups.{AreTreeRows, row_of, depth_of};
ghost use Rattle.bw_model.specs.Refusal.{refusal, demand_above};
ghost use Rattle.bw_columns.specs.Asked.{table_of, rows_in, are_even};
ghost use Rattle.bw_columns.specs.RefusedRow.{has_fault, IsFirstRow, IsNoRow, IsRefusedRow};

use crate::columns::Columns;
use bw_model::limits::{MAX_DEMAND, MAX_DEPTH, MAX_GROUPS, MAX_WEIGHT, MIN_WEIGHT};
use bw_model::{InstanceFault, Row};

// Row g.
fn row_at(columns: &Columns<'_>, g: u32) -> Row
    requires even { are_even (table_of columns.now) ≡ true }
    requires within { g < length columns.now.parents.now }
    ensures { result ≡ row_of (rows_in (table_of columns.now)) g }
{
    columns.row(g as usize)
}

// Whether a row is more than 64 groups below the root.
fn is_too_deep(columns: &Columns<'_>, g: u32) -> bool
    requires even { are_even (table_of columns.now) ≡ true }
    requires within { g < length columns.now.parents.now }
    requires tree { AreTreeRows (rows_in (table_of columns.now)) }
    ensures { result ≡ nat_lt MAX_DEPTH (depth_of (rows_in (table_of columns.now)) g) }
{
    let mut at = g;
    for step in 0..MAX_DEPTH {
        match row_at(columns, at).parent {
            None => return false,
            Some(parent) => at = parent,
        }
    }
    row_at(columns, at).parent.is_some()
}

// The demand of a parent, 0 for none.
fn demand_above(columns: &Columns<'_>, parent: Option<u32>) -> u64
    requires even { are_even (table_of columns.now) ≡ true }
    requires few { length columns.now.parents.now ≤ MAX_GROUPS }
    ensures { result ≡ demand_above (rows_in (table_of columns.now)) parent }
{
    match parent {
        Some(parent) if (parent as usize) < columns.len() => row_at(columns, parent).demand,
        _ => 0,
    }
}

// Whether a row is one for which a fault refuses the rows.
fn has_fault(columns: &Columns<'_>, fault: InstanceFault, g: u32) -> bool
    requires even { are_even (table_of columns.now) ≡ true }
    requires few { length columns.now.parents.now ≤ MAX_GROUPS }
    requires within { g < length columns.now.parents.now }
    requires tree { fault ≡ TooDeep → AreTreeRows (rows_in (table_of columns.now)) }
    ensures { result ≡ has_fault (rows_in (table_of columns.now)) fault g }
{
    let row = row_at(columns, g);
    match fault {
        InstanceFault::TooMany => g as usize >= MAX_GROUPS,
        InstanceFault::BadParent => match row.parent {
            None => g != 0,
            Some(parent) => parent >= g,
        },
        InstanceFault::BadWeight => row.weight < MIN_WEIGHT || row.weight > MAX_WEIGHT,
        InstanceFault::TooDeep => is_too_deep(columns, g),
        InstanceFault::InnerDemand => demand_above(columns, row.parent) > 0,
        InstanceFault::DemandTooLarge => row.demand > MAX_DEMAND,
        InstanceFault::RootLimited => g == 0 && row.limit.is_some(),
        InstanceFault::OutOfMemory => false,
    }
}

// The first row that has a fault.
fn first_row(columns: &Columns<'_>, fault: InstanceFault) -> Option<u32>
    requires even { are_even (table_of columns.now) ≡ true }
    requires few { length columns.now.parents.now ≤ MAX_GROUPS }
    requires tree { fault ≡ TooDeep → AreTreeRows (rows_in (table_of columns.now)) }
    ensures some { IfSome result (IsFirstRow (rows_in (table_of columns.now)) fault) }
    ensures none { IfNone result (IsNoRow (rows_in (table_of columns.now)) fault) }
{
    for g in 0..columns.len() as u32 {
        if has_fault(columns, fault, g) {
            return Some(g);
        }
    }
    None
}

/// The fault that refuses rows, and the row that it speaks of.
pub fn refused_row(columns: &Columns<'_>) -> Option<(InstanceFault, u32)>
    requires even { are_even (table_of columns.now) ≡ true }
    requires some { 0 < length columns.now.parents.now }
    ensures fault { IfSome result (λ p. refusal (rows_in (table_of columns.now)) ≡ Some p.0) }
    ensures row { IfSome result (λ p. IsRefusedRow (rows_in (table_of columns.now)) p.0 p.1) }
    ensures none { IfNone result (refusal (rows_in (table_of columns.now)) ≡ None) }
{
    if columns.len() > MAX_GROUPS {
        return Some((InstanceFault::TooMany, MAX_GROUPS as u32));
    }
    if let Some(g) = first_row(columns, InstanceFault::BadParent) {
        return Some((InstanceFault::BadParent, g));
    }
    if let Some(g) = first_row(columns, InstanceFault::BadWeight) {
        return Some((InstanceFault::BadWeight, g));
    }
    if let Some(g) = first_row(columns, InstanceFault::TooDeep) {
        return Some((InstanceFault::TooDeep, g));
    }
    if let Some(g) = first_row(columns, InstanceFault::InnerDemand) {
        let parent = row_at(columns, g).parent.unwrap_or(0);
        return Some((InstanceFault::InnerDemand, parent));
    }
    if let Some(g) = first_row(columns, InstanceFault::DemandTooLarge) {
        return Some((InstanceFault::DemandTooLarge, g));
    }
    if let Some(g) = first_row(columns, InstanceFault::RootLimited) {
        return Some((InstanceFault::RootLimited, g));
    }
    None
}
