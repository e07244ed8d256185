//! Figures of gathered demands.
use crate::instances::{Group, instance};
use bw_demand::{Figures, figures, gather_rows};
use bw_model::Instance;
use std::alloc::{AllocError, Global};
use std::test::Fail;

const ROOT: u32 = 0;

const POD: u32 = 2;

// `pod` has a limit of 9 slices for 40 that its groups want. One group is idle.
static GROUPS: [Group; 7] = [
    (None, 100, None, 0),
    (Some(ROOT), 300, None, 20),
    (Some(ROOT), 200, Some(9), 0),
    (Some(POD), 100, None, 20),
    (Some(POD), 50, None, 20),
    (Some(ROOT), 700, None, 0),
    (Some(ROOT), 1, None, 1),
];

fn figures_once(alloc: Global, instance: &Instance) -> Result<Figures, AllocError> {
    let gathered = gather_rows(alloc, instance)?;
    figures(alloc, instance, &gathered)
}

#[test]
fn figures_of_rows(rt: HostRuntime) -> Result<(), Fail> {
    let instance = instance(rt.alloc(), &GROUPS)?;
    let found = match figures_once(rt.alloc(), &instance) {
        Err(_) => figures_once(rt.alloc(), &instance)?,
        Ok(found) => found,
    };
    assert!(rt; found.active.as_slice() == [3, 0, 2, 0, 0, 0, 0].as_slice());
    assert!(rt; found.active_weight.as_slice() == [501, 0, 150, 0, 0, 0, 0].as_slice());
    assert!(rt; found.withheld.as_slice() == [0, 0, 31, 0, 0, 0, 0].as_slice());
    Ok(())
}
