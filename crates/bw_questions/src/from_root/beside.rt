//! Goals of others beside those that are named: half of what each has.
ghost use Rattle.std.specs.Prelude.{◌≡◌, ◌<◌, ℕ, length, min, nat_lt, slice_index, All, IfOk};
ghost use Rattle.std.specs.List.{list_any};
ghost use Rattle.bw_questions.specs.Beside.{AreHad, AreHalvesKept, has_goal_above};
ghost use Rattle.bw_questions.specs.Beside.{kept_goal};
ghost use Rattle.bw_questions.specs.declared.from_root.measure.Measure.TheVariants.{Guaranteed};
ghost use Rattle.bw_questions.specs.declared.from_root.measure.Measure.TheVariants.{Planned};

use super::measure::Measure;
use crate::held::everyone;
use crate::laws::demands_inside_only_cut;
use bw_demand::gather_rows;
use bw_model::Instance;
use bw_plan::{plan, there_is_one_plan};
use std::alloc::{AllocError, Global};

// The amount of each row by the plan.
fn planned(alloc: Global, instance: &Instance) -> Result<Vec<u64>, AllocError>
    ensures { IfOk result (λ had. AreHad Planned instance.now had.items) }
{
    let _rows = instance.rows();
    let planned = plan(alloc, instance)?;
    Ok(planned.amounts)
}

// The lesser of two numbers of each row.
fn lesser(alloc: Global, some: &[u64], others: &[u64]) -> Result<Vec<u64>, AllocError>
    requires { length others.now ≡ length some.now }
    ensures one_each { IfOk result (λ least. length least.items ≡ length some.now) }
    ensures each { IfOk result (λ least. (h : ℕ) → h < length some.now
        → slice_index least.items h ≡ min (slice_index some.now h) (slice_index others.now h)) }
{
    let mut least = vec![in alloc; 0u64; some.len()]?;
    for h in 0..some.len() {
        least[h] = some[h].min(others[h]);
    }
    Ok(least)
}

// The guarantee of each row: its amount of the plan in which each leaf asks for the most, or the
// most that it can be given if that is less.
fn guaranteed(alloc: Global, instance: &Instance) -> Result<Vec<u64>, AllocError>
    ensures { IfOk result (λ had. AreHad Guaranteed instance.now had.items) }
{
    let _rows = instance.rows();
    there_is_one_plan();
    demands_inside_only_cut();
    let gathered = gather_rows(alloc, instance)?;
    let busy = everyone(alloc, instance)?;
    let planned = plan(alloc, &busy)?;
    let had = lesser(alloc, planned.amounts.as_slice(), gathered.most.as_slice())?;
    Ok(had)
}

// The amount or the guarantee of each row.
fn had_of(alloc: Global, instance: &Instance, measure: Measure) -> Result<Vec<u64>, AllocError>
    ensures { IfOk result (λ had. AreHad measure instance.now had.items) }
{
    match measure {
        Measure::Planned => planned(alloc, instance),
        Measure::Guaranteed => guaranteed(alloc, instance),
    }
}

// Whether a row, or a group above it, has a goal.
fn has_goal_above(instance: &Instance, goals: &[u64], h: u32) -> bool
    requires row { h < length instance.now.rows }
    requires goals { length goals.now ≡ length instance.now.rows }
    ensures { result ≡ has_goal_above instance.now.rows goals.now h }
{
    let _rows = instance.rows();
    let path = instance.path_up(h);
    any_goal(goals, path.as_slice())
}

// Whether one of some rows has a goal.
fn any_goal(goals: &[u64], rows: &[u32]) -> bool
    requires { All (λ a. a < length goals.now) rows.now }
    ensures { result ≡ list_any (λ a. nat_lt 0 (slice_index goals.now a)) rows.now }
{
    rows.iter().any(|a| goals[*a as usize] > 0)
}

// The goal of a row, or half of what it has if it is one of the others.
fn kept_goal(instance: &Instance, goals: &[u64], had: &[u64], h: u32) -> u64
    requires row { h < length instance.now.rows }
    requires goals { length goals.now ≡ length instance.now.rows }
    requires had { length had.now ≡ length instance.now.rows }
    ensures { result ≡ kept_goal instance.now.rows goals.now had.now h }
{
    if h > 0 && instance.is_leaf(h) && !has_goal_above(instance, goals, h) {
        had[h as usize].div_ceil(2)
    } else {
        goals[h as usize]
    }
}

/// Goals, where each of the others is to keep half of what it has, rounded up: each leaf below the
/// root that has no goal at it or above it. It has its amount of the plan or, where the measure is
/// the guarantee, what it gets whatever the groups ask for that are not under it.
///
/// # Errors
/// `AllocError` if memory was refused.
pub fn halves_kept(
    alloc: Global,
    instance: &Instance,
    goals: &[u64],
    measure: Measure,
) -> Result<Vec<u64>, AllocError>
    requires { length goals.now ≡ length instance.now.rows }
    ensures { IfOk result (λ kept. AreHalvesKept measure instance.now goals.now kept.items) }
{
    let count = instance.rows().len();
    let had = had_of(alloc, instance, measure)?;
    let mut kept = vec![in alloc; 0u64; count]?;
    for h in 0..count {
        kept[h] = kept_goal(instance, goals, had.as_slice(), h as u32);
    }
    Ok(kept)
}
