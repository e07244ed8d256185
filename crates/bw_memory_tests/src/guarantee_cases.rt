//! Guarantees of groups.
use crate::instances::{Group, instance};
use bw_model::Instance;
use bw_questions::{GuaranteeFault, guarantee};
use std::alloc::Global;
use std::process::Abort;
use std::test::Fail;

const ROOT: u32 = 0;

const WEB: u32 = 1;

const POD: u32 = 2;

const POD_A: u32 = 3;

const POD_B: u32 = 4;

const MISSING: u32 = 5;

// `web` is idle.
static GROUPS: [Group; 5] = [
    (None, 100, None, 0),
    (Some(ROOT), 100, None, 0),
    (Some(ROOT), 300, None, 0),
    (Some(POD), 100, None, 20),
    (Some(POD), 100, None, 8),
];

// The guaranteed amount, asked for again if an allocation failed.
fn guaranteed(
    rt: &impl Abort,
    alloc: Global,
    instance: &Instance,
    group: u32,
) -> Result<u64, GuaranteeFault> {
    match guarantee(alloc, instance, group) {
        Err(GuaranteeFault::OutOfMemory) => {
            assert!(rt; GuaranteeFault::OutOfMemory.number() == 71);
            guarantee(alloc, instance, group)
        }
        answer => answer,
    }
}

#[test]
fn guarantees(rt: HostRuntime) -> Result<(), Fail> {
    let instance = instance(rt.alloc(), &GROUPS)?;
    assert!(rt; guaranteed(&rt, rt.alloc(), &instance, ROOT) == Ok(20));
    assert!(rt; guaranteed(&rt, rt.alloc(), &instance, WEB) == Ok(0));
    assert!(rt; guaranteed(&rt, rt.alloc(), &instance, POD) == Ok(15));
    assert!(rt; guaranteed(&rt, rt.alloc(), &instance, POD_A) == Ok(8));
    assert!(rt; guaranteed(&rt, rt.alloc(), &instance, POD_B) == Ok(7));
    Ok(())
}

#[test]
fn no_such_group(rt: HostRuntime) -> Result<(), Fail> {
    let instance = instance(rt.alloc(), &GROUPS)?;
    let refused = guarantee(rt.alloc(), &instance, MISSING);
    assert!(rt; refused == Err(GuaranteeFault::NotFound));
    assert!(rt; GuaranteeFault::NotFound.number() == 20);
    assert!(rt; GuaranteeFault::NotFound.name() == "NotFound");
    Ok(())
}
