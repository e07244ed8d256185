//! Greatest limits of rows away from all goals.
ghost use Rattle.std.specs.Prelude.{◌≡◌, length};

use crate::instances::{Group, instance};
use bw_model::Instance;
use bw_questions::{Limited, Measure, limit_others};
use std::alloc::{AllocError, Global};
use std::process::Abort;
use std::test::Fail;

// Of 20 slices `a` and `b` get 7 each, and `c` gets 6.
static THREE: [Group; 4] = [
    (None, 100, None, 0),
    (Some(0), 100, None, 20),
    (Some(0), 100, None, 20),
    (Some(0), 100, None, 20),
];

// Of 20 slices `web` gets 10, and `pod/a` and `pod/b` 5 each.
static PODS: [Group; 5] = [
    (None, 100, None, 0),
    (Some(0), 100, None, 20),
    (Some(0), 100, None, 0),
    (Some(2), 100, None, 20),
    (Some(2), 100, None, 20),
];

// `web` has a limit, and asks for nothing. Nor does `pod/b`.
static IDLE: [Group; 5] = [
    (None, 100, None, 0),
    (Some(0), 100, Some(9), 0),
    (Some(0), 100, None, 0),
    (Some(2), 100, None, 20),
    (Some(2), 100, None, 0),
];

// The answer, asked for again if an allocation failed.
fn limited(
    alloc: Global,
    instance: &Instance,
    goals: &[u64],
    may: &[bool],
    lowest: &[u64],
    measure: Measure,
) -> Result<Limited, AllocError>
    requires goals { length goals.now ≡ length instance.now.rows }
    requires may { length may.now ≡ length instance.now.rows }
    requires lowest { length lowest.now ≡ length instance.now.rows }
{
    match limit_others(alloc, instance, goals, may, lowest, measure) {
        Err(_) => limit_others(alloc, instance, goals, may, lowest, measure),
        answer => answer,
    }
}

// Whether the answer is these limits.
fn has_limits(answer: &Result<Limited, AllocError>, limits: &[u64]) -> bool {
    match answer {
        Ok(Limited::Met(met)) => met.as_slice() == limits,
        _ => false,
    }
}

fn is_unmet(answer: &Result<Limited, AllocError>) -> bool {
    match answer {
        Ok(Limited::Unmet) => true,
        _ => false,
    }
}

#[test]
fn level_and_then_each_in_turn(rt: HostRuntime) -> Result<(), Fail> {
    let three = instance(rt.alloc(), &THREE)?;
    assert!(rt; three.rows().len() == 4);
    let may = [false; 4];
    // With 5 of each `c` has 10. With 6 of `a` it has 9.
    let nine = limited(
        rt.alloc(),
        &three,
        &[0, 0, 0, 9],
        &may,
        &[0, 0, 0, 0],
        Measure::Planned,
    );
    assert!(rt; has_limits(&nine, &[20, 6, 5, 20]));
    // `a` keeps 6, so `b` has 4.
    let floor = limited(
        rt.alloc(),
        &three,
        &[0, 0, 0, 10],
        &may,
        &[0, 6, 0, 0],
        Measure::Planned,
    );
    assert!(rt; has_limits(&floor, &[20, 6, 4, 20]));
    // The limit of `a` stays.
    let stays = limited(
        rt.alloc(),
        &three,
        &[0, 0, 0, 10],
        &may,
        &[0, 20, 0, 0],
        Measure::Planned,
    );
    assert!(rt; has_limits(&stays, &[20, 20, 0, 20]));
    Ok(())
}

#[test]
fn goals_that_no_limits_meet(rt: HostRuntime) -> Result<(), Fail> {
    let three = instance(rt.alloc(), &THREE)?;
    assert!(rt; three.rows().len() == 4);
    // The limits of `a` and `b` stay from 6 on.
    let unmet = limited(
        rt.alloc(),
        &three,
        &[0, 0, 0, 10],
        &[false; 4],
        &[0, 6, 6, 0],
        Measure::Planned,
    );
    assert!(rt; is_unmet(&unmet));
    // Weights of `c` meet the goal, so no limit is lowered.
    let weights = limited(
        rt.alloc(),
        &three,
        &[0, 0, 0, 10],
        &[false, false, false, true],
        &[0, 6, 6, 0],
        Measure::Planned,
    );
    assert!(rt; has_limits(&weights, &[20, 20, 20, 20]));
    Ok(())
}

#[test]
fn limits_beside_a_pod(rt: HostRuntime) -> Result<(), Fail> {
    let pods = instance(rt.alloc(), &PODS)?;
    assert!(rt; pods.rows().len() == 5);
    // `web` and `pod/b` can be limited, `pod` is above the goal. With 6 of each `pod` has 14.
    let pod = limited(
        rt.alloc(),
        &pods,
        &[0, 0, 0, 8, 0],
        &[false; 5],
        &[0; 5],
        Measure::Planned,
    );
    assert!(rt; has_limits(&pod, &[20, 6, 20, 20, 6]));
    let idle = instance(rt.alloc(), &IDLE)?;
    assert!(rt; idle.rows().len() == 5);
    let planned = limited(
        rt.alloc(),
        &idle,
        &[0, 0, 0, 8, 0],
        &[false; 5],
        &[0; 5],
        Measure::Planned,
    );
    assert!(rt; has_limits(&planned, &[20, 9, 20, 20, 20]));
    // Others may ask for more. With 4 of `web` and of `pod/b` there are 12 left.
    let kept = limited(
        rt.alloc(),
        &idle,
        &[0, 0, 0, 12, 0],
        &[false; 5],
        &[0; 5],
        Measure::Guaranteed,
    );
    assert!(rt; has_limits(&kept, &[20, 4, 20, 20, 4]));
    Ok(())
}
