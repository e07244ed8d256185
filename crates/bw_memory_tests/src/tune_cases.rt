//! Least weights of the rows that may change, from the root down.
ghost use Rattle.std.specs.Prelude.{◌≡◌, length};

use crate::instances::{Group, instance};
use bw_model::Instance;
use bw_questions::{Measure, Tuned, tune};
use std::alloc::{AllocError, Global};
use std::process::Abort;
use std::test::Fail;

const WEB: u32 = 1;

const POD: u32 = 2;

const POD_A: u32 = 3;

const POD_B: u32 = 4;

// Of 20 slices `web` gets 10, and `pod/a` and `pod/b` 5 each.
static GROUPS: [Group; 5] = [
    (None, 100, None, 0),
    (Some(0), 100, None, 20),
    (Some(0), 100, None, 0),
    (Some(2), 100, None, 20),
    (Some(2), 100, None, 20),
];

// Two groups with the greatest weight.
static HEAVY: [Group; 3] = [
    (None, 100, None, 0),
    (Some(0), 10_000, None, 20),
    (Some(0), 10_000, None, 20),
];

// `web` and `pod/b` are idle.
static IDLE: [Group; 5] = [
    (None, 100, None, 0),
    (Some(0), 100, None, 0),
    (Some(0), 100, None, 0),
    (Some(2), 100, None, 20),
    (Some(2), 100, None, 0),
];

// The answer, asked for again if an allocation failed.
fn tuned(
    alloc: Global,
    instance: &Instance,
    goals: &[u64],
    may: &[bool],
    measure: Measure,
) -> Result<Tuned, AllocError>
    requires goals { length goals.now ≡ length instance.now.rows }
    requires may { length may.now ≡ length instance.now.rows }
{
    match tune(alloc, instance, goals, may, measure) {
        Err(_) => tune(alloc, instance, goals, may, measure),
        answer => answer,
    }
}

// The weight of a group in the answer, or 0 if goals cannot be met.
fn weight(answer: &Result<Tuned, AllocError>, group: u32) -> u64 {
    match answer {
        Ok(Tuned::Met(met)) => match met.rows().get(group as usize) {
            Some(row) => row.weight,
            None => 0,
        },
        _ => 0,
    }
}

// Whether the answer is that the goals of this group cannot be met together.
fn is_unmet(answer: &Result<Tuned, AllocError>, group: u32) -> bool {
    match answer {
        Ok(Tuned::Unmet(top)) => *top == group,
        _ => false,
    }
}

#[test]
fn pod_of_a_goal_is_raised(rt: HostRuntime) -> Result<(), Fail> {
    let groups = instance(rt.alloc(), &GROUPS)?;
    assert!(rt; groups.rows().len() == 5);
    // The twelfth slice of `pod` costs 23 / 136, and the ninth of `web` 17 / 100. That of `pod/a`
    // costs 23 / 2300, as much as the first of `pod/b`, which stands behind it.
    let may = [false, false, true, true, false];
    let one = tuned(
        rt.alloc(),
        &groups,
        &[0, 0, 0, 12, 0],
        &may,
        Measure::Planned,
    );
    assert!(rt; weight(&one, WEB) == 100);
    assert!(rt; weight(&one, POD) == 136);
    assert!(rt; weight(&one, POD_A) == 2300);
    // The weight of `pod/b` stays, and it keeps two slices: `pod` needs 14.
    let kept = tuned(
        rt.alloc(),
        &groups,
        &[0, 0, 0, 12, 2],
        &may,
        Measure::Planned,
    );
    assert!(rt; weight(&kept, POD) == 208);
    assert!(rt; weight(&kept, POD_A) == 460);
    assert!(rt; weight(&kept, POD_B) == 100);
    Ok(())
}

#[test]
fn goals_inside_each_other(rt: HostRuntime) -> Result<(), Fail> {
    let groups = instance(rt.alloc(), &GROUPS)?;
    assert!(rt; groups.rows().len() == 5);
    let may = [true; 5];
    let met = tuned(
        rt.alloc(),
        &groups,
        &[20, 10, 10, 5, 0],
        &may,
        Measure::Planned,
    );
    assert!(rt; weight(&met, POD) == 100);
    assert!(rt; weight(&met, POD_A) == 100);
    // 21 slices are more than is served.
    let all = tuned(
        rt.alloc(),
        &groups,
        &[0, 9, 12, 0, 0],
        &may,
        Measure::Planned,
    );
    assert!(rt; is_unmet(&all, 0));
    // `web` asks for 20.
    let one = tuned(
        rt.alloc(),
        &groups,
        &[0, 21, 0, 0, 0],
        &may,
        Measure::Planned,
    );
    assert!(rt; is_unmet(&one, WEB));
    Ok(())
}

#[test]
fn others_are_lowered(rt: HostRuntime) -> Result<(), Fail> {
    let heavy = instance(rt.alloc(), &HEAVY)?;
    assert!(rt; heavy.rows().len() == 3);
    let both = tuned(
        rt.alloc(),
        &heavy,
        &[0, 14, 0],
        &[false, true, true],
        Measure::Planned,
    );
    // The fourteenth slice of `web` costs 27 / 10000, and the seventh of `pod` 13 / 4814.
    assert!(rt; weight(&both, WEB) == 10_000);
    assert!(rt; weight(&both, POD) == 4814);
    let one = tuned(
        rt.alloc(),
        &heavy,
        &[0, 14, 0],
        &[false, true, false],
        Measure::Planned,
    );
    assert!(rt; is_unmet(&one, 0));
    Ok(())
}

#[test]
fn goals_by_the_guarantee(rt: HostRuntime) -> Result<(), Fail> {
    let idle = instance(rt.alloc(), &IDLE)?;
    assert!(rt; idle.rows().len() == 5);
    let may = [true; 5];
    let planned = tuned(rt.alloc(), &idle, &[0, 0, 0, 8, 0], &may, Measure::Planned);
    assert!(rt; weight(&planned, POD_A) == 100);
    // Where all ask for more, `pod` has 10. The eighth slice of `pod/a` costs 15 / 300.
    let kept = tuned(
        rt.alloc(),
        &idle,
        &[0, 0, 0, 8, 0],
        &may,
        Measure::Guaranteed,
    );
    assert!(rt; weight(&kept, POD) == 100);
    assert!(rt; weight(&kept, POD_A) == 300);
    // `pod/b` asks for nothing, so nothing is guaranteed.
    let idle_goal = tuned(
        rt.alloc(),
        &idle,
        &[0, 0, 0, 0, 1],
        &may,
        Measure::Guaranteed,
    );
    assert!(rt; is_unmet(&idle_goal, POD_B));
    Ok(())
}
