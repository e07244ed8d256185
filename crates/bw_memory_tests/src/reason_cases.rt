//! Reasons of the amounts of a plan.
use crate::instances::{Group, instance};
use bw_demand::gather_rows;
use bw_model::Instance;
use bw_plan::plan;
use bw_questions::{Reason, reasons};
use std::alloc::{AllocError, Global};
use std::test::Fail;

const ROOT: u32 = 0;

const POD: u32 = 2;

// `web` shares what is left, and `pod` has a limit of 9 slices for 40 that its groups want. One
// group is idle, and the last one wants a slice.
static GROUPS: [Group; 7] = [
    (None, 100, None, 0),
    (Some(ROOT), 100, None, 20),
    (Some(ROOT), 100, Some(9), 0),
    (Some(POD), 100, None, 20),
    (Some(POD), 100, None, 20),
    (Some(ROOT), 100, None, 0),
    (Some(ROOT), 100, None, 1),
];

// Why each of them gets what it gets.
static REASONS: [Reason; 7] = [
    Reason::HostFull,
    Reason::HostFull,
    Reason::OwnLimit,
    Reason::LimitAbove(POD),
    Reason::LimitAbove(POD),
    Reason::NothingAsked,
    Reason::AllWanted,
];

fn reasons_once(alloc: Global, instance: &Instance) -> Result<Vec<Reason>, AllocError> {
    let gathered = gather_rows(alloc, instance)?;
    let planned = plan(alloc, instance)?;
    reasons(alloc, instance, &gathered, &planned)
}

#[test]
fn reasons_of_amounts(rt: HostRuntime) -> Result<(), Fail> {
    let instance = instance(rt.alloc(), &GROUPS)?;
    let found = match reasons_once(rt.alloc(), &instance) {
        Err(_) => reasons_once(rt.alloc(), &instance)?,
        Ok(found) => found,
    };
    assert!(rt; found.as_slice() == REASONS.as_slice());
    Ok(())
}
