//! The rows of an instance in which others ask for the most.
ghost use Rattle.std.specs.Prelude.{◌≡◌, ◌<◌, ◌==◌, ◌||◌, length, IfOk};
ghost use Rattle.bw_model.specs.Groups.{AreTreeRows};
ghost use Rattle.bw_questions.specs.Busy.{flag_of, under_flags, busy_row, busy_rows};

use bw_model::limits::MAX_DEMAND;
use bw_model::{Instance, Row};
use std::alloc::{AllocError, Global};

// Whether a row is the group or below it, by the flags of the rows before it.
fn is_flagged(flags: &[bool], g: usize, parent: Option<u32>, group: u32) -> bool
    ensures { result ≡ (g == group || flag_of flags.now parent) }
{
    let is_parent_under = match parent {
        None => false,
        Some(parent) => match flags.get(parent as usize) {
            None => false,
            Some(flag) => *flag,
        },
    };
    g == group as usize || is_parent_under
}

// Whether each row is the group or below it. A parent is before its children.
fn under_flags(alloc: Global, rows: &[Row], group: u32) -> Result<Vec<bool>, AllocError>
    requires { AreTreeRows rows.now }
    ensures { IfOk result (λ flags. flags.items ≡ under_flags rows.now group) }
{
    let mut flags: Vec<bool> = Vec::with_capacity(alloc, rows.len())?;
    for (g, row) in rows.iter().enumerate() {
        let flag = is_flagged(flags.as_slice(), g, row.parent, group);
        flags.push(flag)?;
    }
    Ok(flags)
}

// The row of a group. If it is a leaf and not kept, it asks for the most.
fn busy_row(instance: &Instance, g: u32, kept: bool) -> Row
    requires { g < length instance.now.rows }
    ensures { result ≡ busy_row instance.now.rows g kept }
{
    let row = instance.row(g);
    if instance.is_leaf(g) && !kept {
        Row {
            demand: MAX_DEMAND,
            ..row
        }
    } else {
        row
    }
}

// The rows of an instance, in which each leaf that is not under the group asks for the most.
fn busy_rows(alloc: Global, instance: &Instance, group: u32) -> Result<Vec<Row>, AllocError>
    ensures { IfOk result (λ busy. busy.items ≡ busy_rows instance.now.rows group) }
{
    let rows = instance.rows();
    let flags = under_flags(alloc, rows, group)?;
    let kept = flags.as_slice();
    let mut busy: Vec<Row> = Vec::with_capacity(alloc, rows.len())?;
    for g in 0..rows.len() {
        busy.push(busy_row(instance, g as u32, kept[g]))?;
    }
    Ok(busy)
}

/// The instance in which each leaf that is not under the group asks for the most.
///
/// # Errors
/// `AllocError` if memory was refused.
pub(crate) fn busy_instance(
    alloc: Global,
    instance: &Instance,
    group: u32,
) -> Result<Instance, AllocError>
    ensures { IfOk result (λ busy. busy
        ≡ record { shape = instance.now.shape; rows = busy_rows instance.now.rows group }) }
{
    let _rows = instance.rows();
    let rows = busy_rows(alloc, instance, group)?;
    Instance::of_valid(alloc, rows, instance.shape())
}
