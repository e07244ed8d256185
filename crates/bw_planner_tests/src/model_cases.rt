//! Quotas, instances and marks, against worked values.
use bw_model::limits::{MAX_PERIOD_US, MAX_QUOTA_US, MIN_PERIOD_US};
use bw_model::{HostShape, Instance, InstanceFault, Mark, Quota, Row};
use std::alloc::Global;
use std::process::Abort;
use std::test::Fail;

// A static table costs its readers no proof; each entry of a local one is a step of it.
static VALID: [(Quota, bool); 5] = [
    (Quota::Max, true),
    (Quota::Micros(999), false),
    (Quota::Micros(1_000), true),
    (Quota::Micros(1_000_000_000_000_000), true),
    (Quota::Micros(1_000_000_000_000_001), false),
];

#[test]
fn valid_quotas(rt: HostRuntime) {
    for (quota, wanted) in &VALID {
        assert!(rt; quota.is_valid() == *wanted);
    }
}

/// A quota, its period, and its slices of 5000 microseconds in a host's period of 100 ms.
static SLICES: [(u64, u64, u64); 9] = [
    (1_000, 100_000, 0),
    (14_999, 100_000, 2),
    (15_000, 100_000, 3),
    (1_000_000_000_000_000, 100_000, 200_000_000_000),
    (50_000, 200_000, 5),
    (25_000, 200_000, 2),
    (1_000, 1_000, 20),
    (1_000, 1_000_000, 0),
    (1_000_000_000_000_000, 1_000, 20_000_000_000_000),
];

/// A quota, its period, and its slices of 5000 microseconds in a host's period of 5 ms.
static SLICES_OF_A_SHORT_PERIOD: [(u64, u64, u64); 1] = [(50_000, 100_000, 0)];

fn assert_slices(rt: &impl Abort, shape: HostShape, cases: &[(u64, u64, u64)]) {
    for (us, period_us, slices) in cases {
        let (us, period_us) = (*us, *period_us);
        assert!(rt; us <= MAX_QUOTA_US && MIN_PERIOD_US <= period_us && period_us <= MAX_PERIOD_US);
        assert!(rt; shape.slices(us, period_us) == *slices);
    }
}

#[test]
fn quotas_in_slices(rt: HostRuntime) -> Result<(), Fail> {
    assert_slices(&rt, HostShape::new(1, 100_000, 5_000)?, &SLICES);
    let short = HostShape::new(2, 5_000, 5_000)?;
    assert_slices(&rt, short, &SLICES_OF_A_SHORT_PERIOD);
    Ok(())
}

/// A group of weight 100 that wants nothing.
fn idle(parent: Option<u32>) -> Row {
    Row {
        parent,
        weight: 100,
        limit: None,
        demand: 0,
    }
}

fn made_once(alloc: Global, rows: &[Row]) -> Result<Instance, InstanceFault> {
    let Ok(shape) = HostShape::new(1, 100_000, 5_000) else {
        return Err(InstanceFault::OutOfMemory);
    };
    Instance::new(alloc, rows.to_vec(alloc)?, shape)
}

/// Makes an instance on one processor. A call that is refused memory is made again.
fn made(alloc: Global, rows: &[Row]) -> Result<Instance, InstanceFault> {
    match made_once(alloc, rows) {
        Err(InstanceFault::OutOfMemory) => made_once(alloc, rows),
        other => other,
    }
}

/// Asserts why rows are refused.
fn assert_refused(
    rt: &impl Abort,
    alloc: Global,
    rows: &[Row],
    fault: InstanceFault,
    number: u8,
    name: &str,
) {
    assert!(rt; made(alloc, rows).is_err_and(|answered| answered == fault));
    assert!(rt; fault.number() == number && fault.name() == name);
}

#[test]
fn long_rows(rt: HostRuntime) -> Result<(), Fail> {
    let mut rows = [idle(None)].to_vec(rt.alloc())?;
    for _ in 1..16384u32 {
        rows.push(idle(Some(0)))?;
    }
    let instance = made(rt.alloc(), rows.as_slice())?;
    assert!(rt; instance.rows().len() == 16384);
    rows.push(Row {
        weight: 0,
        ..idle(None)
    })?;
    let fault = InstanceFault::TooMany;
    assert_refused(&rt, rt.alloc(), rows.as_slice(), fault, 4, "TooMany");
    Ok(())
}

#[test]
fn deep_rows(rt: HostRuntime) -> Result<(), Fail> {
    let mut rows = [idle(None)].to_vec(rt.alloc())?;
    for above in 0..64u32 {
        rows.push(idle(Some(above)))?;
    }
    let instance = made(rt.alloc(), rows.as_slice())?;
    assert!(rt; instance.rows().len() == 65);
    assert!(rt; instance.path_up(64).len() == 65);
    rows.push(idle(Some(64)))?;
    let fault = InstanceFault::TooDeep;
    assert_refused(&rt, rt.alloc(), rows.as_slice(), fault, 7, "TooDeep");
    Ok(())
}

/// A group over two leaves, and a leaf beside it.
static FIVE: [Row; 5] = [
    Row {
        parent: None,
        weight: 100,
        limit: None,
        demand: 0,
    },
    Row {
        parent: Some(0),
        weight: 100,
        limit: None,
        demand: 0,
    },
    Row {
        parent: Some(1),
        weight: 100,
        limit: Some(10),
        demand: 20,
    },
    Row {
        parent: Some(0),
        weight: 100,
        limit: None,
        demand: 0,
    },
    Row {
        parent: Some(1),
        weight: 100,
        limit: None,
        demand: 0,
    },
];

static CHILDREN: [&[u32]; 5] = [&[1, 3], &[2, 4], &[], &[], &[]];

static PATHS: [&[u32]; 5] = [&[0], &[1, 0], &[2, 1, 0], &[3, 0], &[4, 1, 0]];

/// Asserts the answers of the readers for one group. The instance is borrowed: a test that owns it
/// would drop it at each assertion.
fn assert_reads(rt: &impl Abort, instance: &Instance, g: u32, children: &[u32], path: &[u32]) {
    assert!(rt; g < instance.group_count());
    assert!(rt; instance.children(g) == children);
    assert!(rt; instance.is_leaf(g) == children.is_empty());
    assert!(rt; instance.path_up(g).as_slice() == path);
}

fn assert_readers(rt: &impl Abort, instance: &Instance) {
    assert!(rt; instance.rows().len() == 5);
    assert!(rt; instance.row(2) == FIVE[2]);
    assert!(rt; instance.shape().capacity() == 20);
    let mut g = 0;
    for (children, path) in CHILDREN.iter().zip(&PATHS) {
        assert_reads(rt, instance, g, children, path);
        g = g.saturating_add(1);
    }
}

#[test]
fn readers(rt: HostRuntime) -> Result<(), Fail> {
    assert_readers(&rt, &made(rt.alloc(), &FIVE)?);
    Ok(())
}

/// Two marks each, of which the first is below the second: numerator, denominator and place.
static RISING: [((u64, u64, u32), (u64, u64, u32)); 6] = [
    ((5, 100, 0), (15, 300, 1)),
    ((1, 2, 0), (2, 4, 0)),
    ((1, 100, 0), (3, 300, 0)),
    ((1, 3, 9), (1, 2, 0)),
    ((u64::MAX, u64::MAX, 0), (u64::MAX, u64::MAX, 1)),
    ((1, u64::MAX, 0), (u64::MAX, 1, 0)),
];

fn assert_rises(rt: &impl Abort, low: Mark, high: Mark) {
    assert!(rt; low < high);
    assert!(rt; high > low);
    assert!(rt; low != high);
    assert!(rt; low == low);
}

#[test]
fn marks(rt: HostRuntime) {
    assert!(rt; Mark::new(0, 1, 0).is_none());
    assert!(rt; Mark::new(1, 0, 0).is_none());
    for ((num, den, place), (other_num, other_den, other_place)) in &RISING {
        let low = Mark::new(*num, *den, *place);
        let high = Mark::new(*other_num, *other_den, *other_place);
        match (low, high) {
            (Some(low), Some(high)) => assert_rises(&rt, low, high),
            _ => assert!(rt; false),
        }
    }
}
