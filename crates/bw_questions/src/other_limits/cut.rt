//! An instance with lower limits.
ghost use Rattle.std.specs.Prelude.{◌≡◌, ◌<◌, ◌≤◌, length, slice_index, IfOk};
ghost use Rattle.bw_model.specs.declared.limits.TheConstants.{MAX_CAPACITY};
ghost use Rattle.bw_model.specs.Host.{capacity_of};
ghost use Rattle.bw_questions.specs.OtherLimits.{cut_row, cut_to, full_limit};

use bw_model::{Instance, Row};
use std::alloc::{AllocError, Global};

/// The limit in force of a row: its own, or the capacity if that is less or if it has none.
pub(crate) fn full_limit(instance: &Instance, h: u32) -> u64
    requires { h < length instance.now.rows }
    ensures value { result ≡ full_limit instance.now h }
    ensures bound { result ≤ MAX_CAPACITY }
{
    let capacity = instance.shape().capacity();
    match instance.row(h).limit {
        None => capacity,
        Some(limit) => capacity.min(limit),
    }
}

// The row of a group with a limit, if that is below the limit in force.
fn cut_row(instance: &Instance, limits: &[u64], h: u32) -> Row
    requires row { h < length instance.now.rows }
    requires limits { length limits.now ≡ length instance.now.rows }
    ensures { result ≡ cut_row instance.now limits.now h }
{
    let row = instance.row(h);
    let limit = limits[h as usize];
    Row {
        limit: if limit < full_limit(instance, h) {
            Some(limit)
        } else {
            row.limit
        },
        ..row
    }
}

/// The instance with these limits, where they are below those in force.
///
/// # Errors
/// `AllocError` if memory was refused.
pub(crate) fn cut_to(
    alloc: Global,
    instance: &Instance,
    limits: &[u64],
) -> Result<Instance, AllocError>
    requires limits { length limits.now ≡ length instance.now.rows }
    requires root { capacity_of instance.now.shape ≤ slice_index limits.now 0 }
    ensures { IfOk result (λ i. i ≡ cut_to instance.now limits.now) }
{
    let count = instance.rows().len();
    let mut rows: Vec<Row> = Vec::with_capacity(alloc, count)?;
    for h in 0..count {
        rows.push(cut_row(instance, limits, h as u32))?;
    }
    Instance::of_valid(alloc, rows, instance.shape())
}
