//! Instances of rows in a short form.
use bw_model::{HostShape, Instance, InstanceFault, Row};
use std::alloc::Global;

/// The parent, limit and demand of a row of weight 100.
pub type Shown = (Option<u32>, Option<u64>, u64);

pub fn instance_of(
    alloc: Global,
    shape: HostShape,
    shown: &[Shown],
) -> Result<Instance, InstanceFault> {
    let mut rows = Vec::new(alloc);
    for (parent, limit, demand) in shown {
        rows.push(Row {
            parent: *parent,
            weight: 100,
            limit: *limit,
            demand: *demand,
        })?;
    }
    Instance::new(alloc, rows, shape)
}
