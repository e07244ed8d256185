//! An instance with other weights.
ghost use Rattle.std.specs.Prelude.{◌≡◌, ◌<◌, length, slice_index, IfOk};
ghost use Rattle.bw_model.specs.Groups.{row_of};
ghost use Rattle.bw_questions.specs.FromRoot.{AreRowWeights, weighed};

use bw_model::{Instance, Row};
use std::alloc::{AllocError, Global};

// The row of a group with another weight.
fn row_with(instance: &Instance, g: u32, weight: u64) -> Row
    requires { g < length instance.now.rows }
    ensures { result ≡ record (row_of instance.now.rows g) { weight = weight } }
{
    Row {
        weight,
        ..instance.row(g)
    }
}

/// The instance with other weights, one for each row.
///
/// # Errors
/// `AllocError` if memory was refused.
pub(crate) fn weighed(
    alloc: Global,
    instance: &Instance,
    weights: &[u64],
) -> Result<Instance, AllocError>
    requires { AreRowWeights instance.now.rows weights.now }
    ensures { IfOk result (λ i. i ≡ weighed instance.now weights.now) }
{
    let count = instance.rows().len();
    let mut rows: Vec<Row> = Vec::with_capacity(alloc, count)?;
    for g in 0..count {
        rows.push(row_with(instance, g as u32, weights[g]))?;
    }
    Instance::of_valid(alloc, rows, instance.shape())
}
