//! The children among which each group's slices are split, and the slices that limits withhold.
ghost use Rattle.std.specs.Prelude.{◌≡◌, ◌<◌, ◌^◌, All, filter, length, sum_by, IfOk};
ghost use Rattle.bw_demand.specs.Demands.{demands_of, IsGathered};
ghost use Rattle.bw_demand.specs.Figures.{is_active, active_children, weight_if_active};
ghost use Rattle.bw_demand.specs.Figures.{active_weight_of, withheld_slices, AreFigures};

use crate::gathered::{Figures, Gathered};
use bw_model::{Instance, Row};
use std::alloc::{AllocError, Global};

/// Slices of one period that a throttled group wants above its limit, 0 for the root.
///
/// sched-bwc.rst, "Statistics", counts the time of a throttled group; here the slices are withheld.
pub fn withheld_slices(row: &Row, want: u64) -> u64
    ensures { result ≡ withheld_slices row.now.parent row.now.limit want }
{
    match (row.parent, row.limit) {
        (Some(_), Some(limit)) => want.saturating_sub(limit),
        _ => 0,
    }
}

// Number of the groups of a list that can be given a slice.
fn active_count(most: &[u64], groups: &[u32]) -> usize
    requires { All (λ g. g < length most.now) groups.now }
    ensures { result ≡ length (filter (is_active most.now) groups.now) }
{
    groups.iter().filter(|g| most[**g as usize] > 0).count()
}

// The weight of a group that can be given a slice, else 0.
fn weight_if_active(rows: &[Row], most: &[u64], g: u32) -> u64
    requires most { g < length most.now }
    requires row { g < length rows.now }
    ensures { result ≡ weight_if_active rows.now most.now g }
{
    if most[g as usize] > 0 {
        rows[g as usize].weight
    } else {
        0
    }
}

// The weights of the groups of a list that can be given a slice, added up.
fn active_weight(rows: &[Row], most: &[u64], groups: &[u32]) -> u64
    requires mosts { All (λ g. g < length most.now) groups.now }
    requires rows { All (λ g. g < length rows.now) groups.now }
    requires fits { sum_by (weight_if_active rows.now most.now) groups.now < 2 ^ 64 }
    ensures { result ≡ sum_by (weight_if_active rows.now most.now) groups.now }
{
    groups
        .iter()
        .map(|g| weight_if_active(rows, most, *g))
        .sum()
}

// Number of the children of a row that can be given a slice.
fn active_of(instance: &Instance, most: &[u64], g: u32) -> u32
    requires mosts { length most.now ≡ length instance.now.rows }
    requires row { g < length instance.now.rows }
    ensures { result ≡ length (active_children instance.now.rows most.now g) }
{
    // its contract says that the rows are few
    let _rows = instance.rows();
    active_count(most, instance.children(g)) as u32
}

// The weights of the children of a row that can be given a slice, added up.
fn active_weight_of(instance: &Instance, most: &[u64], g: u32) -> u64
    requires mosts { length most.now ≡ length instance.now.rows }
    requires row { g < length instance.now.rows }
    ensures { result ≡ active_weight_of instance.now.rows most.now g }
{
    active_weight(instance.rows(), most, instance.children(g))
}

/// The active children, their weight and the withheld slices of each row.
///
/// `gathered` is the instance's own gathering. The time grows with the number of rows.
///
/// # Errors
/// `AllocError` if memory was refused.
pub fn figures(
    alloc: Global,
    instance: &Instance,
    gathered: &Gathered,
) -> Result<Figures, AllocError>
    requires gathered { IsGathered instance.now (demands_of gathered.now) }
    ensures { IfOk result (λ f. AreFigures instance.now gathered.now.most.items f.active.items
        f.active_weight.items f.withheld.items) }
{
    let rows = instance.rows();
    let most = gathered.most.as_slice();
    let mut active = Vec::with_capacity(alloc, rows.len())?;
    let mut active_weight = Vec::with_capacity(alloc, rows.len())?;
    let mut withheld = Vec::with_capacity(alloc, rows.len())?;
    for g in 0..rows.len() {
        active.push(active_of(instance, most, g as u32))?;
        active_weight.push(active_weight_of(instance, most, g as u32))?;
        withheld.push(withheld_slices(&rows[g], gathered.want[g]))?;
    }
    Ok(Figures {
        active,
        active_weight,
        withheld,
    })
}
