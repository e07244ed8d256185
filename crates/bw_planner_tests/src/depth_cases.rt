//! The rows of a tree by their depth, against worked values.
use crate::rows::{Shown, instance_of};
use bw_demand::levels;
use bw_model::{HostShape, InstanceFault};
use std::alloc::Global;
use std::process::Abort;
use std::test::Fail;

/// A group over two leaves, and a leaf beside it that was made last.
static ROWS: [Shown; 5] = [
    (None, None, 0),
    (Some(0), None, 0),
    (Some(1), None, 0),
    (Some(1), None, 0),
    (Some(0), None, 0),
];

/// The rows of each depth.
static BY_DEPTH: [&[u32]; 3] = [&[0], &[1, 4], &[2, 3]];

fn assert_depths(rt: &impl Abort, alloc: Global, shape: HostShape) -> Result<(), InstanceFault> {
    let found = levels(alloc, &instance_of(alloc, shape, &ROWS)?)?;
    assert!(rt; found.len() == 3);
    for (groups, rows) in found.iter().zip(&BY_DEPTH) {
        assert!(rt; groups.as_slice() == *rows);
    }
    Ok(())
}

#[test]
fn depths_of_a_small_tree(rt: HostRuntime) -> Result<(), Fail> {
    let shape = HostShape::new(1, 100_000, 5_000)?;
    if assert_depths(&rt, rt.alloc(), shape).is_err() {
        assert_depths(&rt, rt.alloc(), shape)?;
    }
    Ok(())
}
