//! Instances on a host of one processor, which has 20 slices in a period.
use bw_model::{HostShape, Instance, InstanceFault, Row};
use std::alloc::Global;
use std::test::Fail;

/// Parent, weight, limit and demand of a group.
pub(crate) type Group = (Option<u32>, u64, Option<u64>, u64);

fn new_instance(
    alloc: Global,
    shape: HostShape,
    groups: &[Group],
) -> Result<Instance, InstanceFault> {
    let mut rows = Vec::new(alloc);
    for (parent, weight, limit, demand) in groups {
        rows.push(Row {
            parent: *parent,
            weight: *weight,
            limit: *limit,
            demand: *demand,
        })?;
    }
    Instance::new(alloc, rows, shape)
}

/// The instance of these groups, made again if an allocation failed.
pub(crate) fn instance(alloc: Global, groups: &[Group]) -> Result<Instance, Fail> {
    let shape = HostShape::new(1, 100_000, 5_000)?;
    match new_instance(alloc, shape, groups) {
        Err(_) => Ok(new_instance(alloc, shape, groups)?),
        Ok(instance) => Ok(instance),
    }
}
