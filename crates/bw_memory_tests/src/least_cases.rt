//! Least values that reach an amount, at the ends of their ranges.
ghost use Rattle.std.specs.Prelude.{◌<◌, length};

use crate::instances::{Group, instance};
use bw_machine::Count;
use bw_model::Instance;
use bw_questions::{least_limit, least_processors, least_weight};
use std::alloc::{AllocError, Global};
use std::test::Fail;

const ROOT: u32 = 0;

const LEFT: u32 = 1;

const RIGHT: u32 = 2;

// Two groups that want more than any host has.
static EQUAL: [Group; 3] = [
    (None, 100, None, 0),
    (Some(ROOT), 100, Some(3), 1_000_000),
    (Some(ROOT), 100, None, 1_000_000),
];

// At weight 9999 the seventeenth slice of the right group costs 33/9999, as much as the fourth of
// the left one. The left group is before it, so that slice is the left one's.
static HEAVY: [Group; 3] = [
    (None, 100, None, 0),
    (Some(ROOT), 2121, None, 20),
    (Some(ROOT), 1, None, 20),
];

// A left group of one weight more, which is too heavy for that.
static HEAVIER: [Group; 3] = [
    (None, 100, None, 0),
    (Some(ROOT), 2122, None, 20),
    (Some(ROOT), 10_000, None, 20),
];

fn weight(
    alloc: Global,
    instance: &Instance,
    group: u32,
    amount: u64,
) -> Result<Option<u64>, AllocError>
    requires { group < length instance.now.rows }
{
    match least_weight(alloc, instance, group, amount, &mut Count::none()) {
        Err(_) => least_weight(alloc, instance, group, amount, &mut Count::none()),
        answer => answer,
    }
}

fn processors(
    alloc: Global,
    instance: &Instance,
    group: u32,
    amount: u64,
) -> Result<Option<u64>, AllocError>
    requires { group < length instance.now.rows }
{
    match least_processors(alloc, instance, group, amount, &mut Count::none()) {
        Err(_) => least_processors(alloc, instance, group, amount, &mut Count::none()),
        answer => answer,
    }
}

fn limit(
    alloc: Global,
    instance: &Instance,
    group: u32,
    amount: u64,
) -> Result<Option<u64>, AllocError>
    requires row { group < length instance.now.rows }
    requires below_root { 0 < group }
{
    match least_limit(alloc, instance, group, amount, &mut Count::none()) {
        Err(_) => least_limit(alloc, instance, group, amount, &mut Count::none()),
        answer => answer,
    }
}

#[test]
fn least_weights(rt: HostRuntime) -> Result<(), Fail> {
    let heavy = instance(rt.alloc(), &HEAVY)?;
    assert!(rt; heavy.rows().len() == 3);
    assert!(rt; weight(rt.alloc(), &heavy, RIGHT, 17) == Ok(Some(10_000)));
    assert!(rt; weight(rt.alloc(), &heavy, RIGHT, 0) == Ok(Some(1)));
    let heavier = instance(rt.alloc(), &HEAVIER)?;
    assert!(rt; heavier.rows().len() == 3);
    assert!(rt; weight(rt.alloc(), &heavier, RIGHT, 17) == Ok(None));
    Ok(())
}

#[test]
fn least_numbers_of_processors(rt: HostRuntime) -> Result<(), Fail> {
    let equal = instance(rt.alloc(), &EQUAL)?;
    assert!(rt; equal.rows().len() == 3);
    assert!(rt; processors(rt.alloc(), &equal, RIGHT, 17) == Ok(Some(1)));
    assert!(rt; processors(rt.alloc(), &equal, RIGHT, 18) == Ok(Some(2)));
    assert!(rt; processors(rt.alloc(), &equal, ROOT, 1280) == Ok(Some(64)));
    assert!(rt; processors(rt.alloc(), &equal, ROOT, 1281) == Ok(None));
    Ok(())
}

#[test]
fn least_limits(rt: HostRuntime) -> Result<(), Fail> {
    let equal = instance(rt.alloc(), &EQUAL)?;
    assert!(rt; equal.rows().len() == 3);
    assert!(rt; limit(rt.alloc(), &equal, LEFT, 0) == Ok(Some(0)));
    assert!(rt; limit(rt.alloc(), &equal, LEFT, 10) == Ok(Some(10)));
    assert!(rt; limit(rt.alloc(), &equal, LEFT, 11) == Ok(None));
    Ok(())
}
