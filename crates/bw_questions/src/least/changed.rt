//! An instance with one setting changed.
ghost use Rattle.std.specs.Prelude.{◌≡◌, ◌<◌, ◌≤◌, length, IfOk};
ghost use Rattle.bw_questions.specs.Change.{with_weight, with_limit, with_processors, changed};
ghost use Rattle.bw_questions.specs.Change.{greatest_of};

use super::setting::Setting;
use bw_model::limits::{MAX_PROCESSORS, MAX_WEIGHT, MIN_WEIGHT};
use bw_model::{HostShape, Instance, Row};
use std::alloc::{AllocError, Global};

fn copied(alloc: Global, rows: &[Row]) -> Result<Vec<Row>, AllocError>
    ensures { IfOk result (λ copy. copy.items ≡ rows.now) }
{
    rows.iter().copied().collect(alloc)
}

// The instance with another weight of one group.
fn reweighted(
    alloc: Global,
    instance: &Instance,
    group: u32,
    weight: u64,
) -> Result<Instance, AllocError>
    requires row { group < length instance.now.rows }
    requires weight { (MIN_WEIGHT ≤ weight) × (weight ≤ MAX_WEIGHT) }
    ensures { IfOk result (λ i. i ≡ with_weight instance.now group weight) }
{
    let row = instance.row(group);
    let mut rows = copied(alloc, instance.rows())?;
    rows[group as usize] = Row { weight, ..row };
    Instance::of_valid(alloc, rows, instance.shape())
}

/// The instance with another limit of one group, or none, in slices.
///
/// # Errors
/// `AllocError` if memory was refused.
pub(crate) fn relimited(
    alloc: Global,
    instance: &Instance,
    group: u32,
    limit: Option<u64>,
) -> Result<Instance, AllocError>
    requires row { group < length instance.now.rows }
    requires below_root { 0 < group }
    ensures { IfOk result (λ i. i ≡ with_limit instance.now group limit) }
{
    let row = instance.row(group);
    let mut rows = copied(alloc, instance.rows())?;
    rows[group as usize] = Row { limit, ..row };
    Instance::of_valid(alloc, rows, instance.shape())
}

// A host of the same period and slice.
fn host_of(shape: HostShape, processors: u64) -> HostShape
    requires { (1 ≤ processors) × (processors ≤ MAX_PROCESSORS) }
    ensures { result ≡ record shape { processors = processors } }
{
    match HostShape::new(processors, shape.period_us(), shape.slice_us()) {
        Ok(host) => host,
        Err(_) => unreachable!(),
    }
}

// The instance on another number of processors.
fn resized(alloc: Global, instance: &Instance, processors: u64) -> Result<Instance, AllocError>
    requires { (1 ≤ processors) × (processors ≤ MAX_PROCESSORS) }
    ensures { IfOk result (λ i. i ≡ with_processors instance.now processors) }
{
    let host = host_of(instance.shape(), processors);
    let rows = copied(alloc, instance.rows())?;
    Instance::of_valid(alloc, rows, host)
}

/// The instance with another value of one setting.
///
/// # Errors
/// `AllocError` if memory was refused.
pub(crate) fn changed(
    alloc: Global,
    instance: &Instance,
    setting: Setting,
    group: u32,
    value: u64,
) -> Result<Instance, AllocError>
    requires row { group < length instance.now.rows }
    requires value { (1 ≤ value) × (value ≤ greatest_of setting) }
    ensures { IfOk result (λ i. i ≡ changed instance.now setting group value) }
{
    match setting {
        Setting::Weight => reweighted(alloc, instance, group, value),
        Setting::Processors => resized(alloc, instance, value),
    }
}
