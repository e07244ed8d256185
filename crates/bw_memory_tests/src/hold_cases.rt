//! Limits of a round, and what a scheduler is given for it.
ghost use Rattle.std.specs.Prelude.{◌≡◌, length, IfOk};

use crate::instances::{Group, instance};
use bw_model::Instance;
use bw_questions::{Held, Served, hold, serve};
use std::alloc::{AllocError, Global};
use std::test::Fail;

const ROOT: u32 = 0;

const POD: u32 = 2;

// Two leaves that used 4 and 10 slices.
static USED: [Group; 3] = [
    (None, 100, None, 0),
    (Some(ROOT), 100, None, 4),
    (Some(ROOT), 200, None, 10),
];

// A leaf with a limit, and two leaves below a group with one.
static LIMITED: [Group; 5] = [
    (None, 100, None, 0),
    (Some(ROOT), 100, Some(9), 8),
    (Some(ROOT), 100, Some(12), 0),
    (Some(POD), 100, None, 5),
    (Some(POD), 100, None, 2),
];

// The limits of a round, asked for again if an allocation failed.
fn held(alloc: Global, instance: &Instance, hungry: &[bool]) -> Result<Held, AllocError>
    requires { length hungry.now ≡ length instance.now.rows }
{
    match hold(alloc, instance, hungry) {
        Err(_) => hold(alloc, instance, hungry),
        answer => answer,
    }
}

// Amounts and limits for a scheduler, asked for again if an allocation failed.
fn served(alloc: Global, instance: &Instance, hungry: &[bool]) -> Result<Served, AllocError>
    requires { length hungry.now ≡ length instance.now.rows }
{
    match serve(alloc, instance, hungry) {
        Err(_) => serve(alloc, instance, hungry),
        answer => answer,
    }
}

// As many flags as the instance has rows, made again if an allocation failed.
fn flags(alloc: Global, instance: &Instance) -> Result<Vec<bool>, AllocError>
    ensures { IfOk result (λ flags. length flags.items ≡ length instance.now.rows) }
{
    let count = instance.rows().len();
    match vec![in alloc; true; count] {
        Err(_) => vec![in alloc; true; count],
        answer => answer,
    }
}

#[test]
fn holds(rt: HostRuntime) -> Result<(), Fail> {
    let instance = instance(rt.alloc(), &USED)?;
    let hungry = flags(rt.alloc(), &instance)?;
    let round = held(rt.alloc(), &instance, hungry.as_slice())?;
    assert!(rt; round.limits.as_slice() == [None, Some(7), Some(13)].as_slice());
    assert!(rt; round.demands.as_slice() == [0, 1_000_000, 1_000_000].as_slice());
    assert!(rt; round.amounts.as_slice() == [20, 7, 13].as_slice());
    assert!(rt; round.certificate.tight.as_slice() == [true, false, false].as_slice());
    Ok(())
}

#[test]
fn serves(rt: HostRuntime) -> Result<(), Fail> {
    let instance = instance(rt.alloc(), &LIMITED)?;
    let hungry = flags(rt.alloc(), &instance)?;
    let given = served(rt.alloc(), &instance, hungry.as_slice())?;
    assert!(rt; given.amounts.as_slice() == [20, 9, 11, 6, 5].as_slice());
    let limits = [None, Some(9), Some(12), Some(6), Some(5)];
    assert!(rt; given.limits.as_slice() == limits.as_slice());
    Ok(())
}
