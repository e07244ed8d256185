//! Counters at their greatest values and of forgotten groups, which no script line reaches.
//! A call that runs out of memory is repeated on the unchanged books.
ghost use Rattle.std.specs.Prelude.{nat_eq};
ghost use Rattle.std.specs.List.{IsDistinct};

use bw_demand::gather;
use bw_model::{HostShape, Instance, InstanceFault, Row, Stat};
use bw_stat::{Books, put_report_line};
use std::alloc::{AllocError, Global};
use std::process::Abort;
use std::test::Fail;

// A group pod with a limit of 10 over x and y of weights 100 and 300, and a group job beside it.
// A static table costs no proof. Each entry of a local table is a step of the proof.
static POD: [Row; 5] = [
    Row {
        parent: None,
        weight: 100,
        limit: None,
        demand: 0,
    },
    Row {
        parent: Some(0),
        weight: 100,
        limit: Some(10),
        demand: 0,
    },
    Row {
        parent: Some(1),
        weight: 100,
        limit: None,
        demand: 20,
    },
    Row {
        parent: Some(1),
        weight: 300,
        limit: None,
        demand: 20,
    },
    Row {
        parent: Some(0),
        weight: 100,
        limit: None,
        demand: 20,
    },
];

fn pod_once(alloc: Global, shape: HostShape) -> Result<Instance, InstanceFault> {
    Instance::new(alloc, POD.to_vec(alloc)?, shape)
}

fn pod(alloc: Global) -> Result<Instance, Fail> {
    let shape = HostShape::new(1, 100_000, 5000)?;
    match pod_once(alloc, shape) {
        Ok(instance) => Ok(instance),
        Err(_) => Ok(pod_once(alloc, shape)?),
    }
}

// Ids of the rows of pod.
fn ids_of_pod() -> [u64; 5]
    ensures { IsDistinct nat_eq result }
{
    [0, 7, 3, 9, 4]
}

// Quota of each row in slices, where no limit is above the quota.
static QUOTAS: [Option<u64>; 5] = [None, Some(10), None, None, None];

static DRAWN: [u64; 5] = [20, 10, 3, 7, 10];

fn book_once(
    rt: &impl Abort,
    alloc: Global,
    books: &mut Books,
    instance: &Instance,
    base: &[Option<u64>],
    drawn: &[u64],
) -> Result<(), AllocError> {
    let gathered = gather(alloc, instance)?;
    assert!(rt; instance.rows().len() == 5 && base.len() == 5 && drawn.len() == 5);
    books.book(instance, &ids_of_pod(), base, &gathered, drawn)
}

// Books a number of periods, in each of which the rows of pod draw the same slices.
fn book_pod(
    rt: &impl Abort,
    alloc: Global,
    books: &mut Books,
    periods: u64,
    base: &[Option<u64>],
    drawn: &[u64],
) -> Result<(), Fail> {
    let instance = pod(alloc)?;
    for _ in 0..periods {
        if book_once(rt, alloc, books, &instance, base, drawn).is_err() {
            book_once(rt, alloc, books, &instance, base, drawn)?;
        }
    }
    Ok(())
}

// Counters with this usage, these periods and these bursts, never throttled.
fn counters(usage_usec: u64, nr_periods: u64, nr_bursts: u64, burst_usec: u64) -> Option<Stat> {
    Some(Stat {
        usage_usec,
        nr_periods,
        nr_throttled: 0,
        throttled_usec: 0,
        nr_bursts,
        burst_usec,
    })
}

fn assert_counts(rt: &impl Abort, books: &Books, id: u64, wanted: Option<Stat>) {
    assert!(rt; books.of(id) == wanted);
}

// A forgotten group that is booked again begins at 0. The others keep their counters.
fn assert_forgets(rt: &impl Abort, alloc: Global, books: &mut Books) -> Result<(), Fail> {
    book_pod(rt, alloc, books, 2, &QUOTAS, &DRAWN)?;
    books.forget(4);
    books.forget(8);
    assert_counts(rt, books, 4, None);
    assert_counts(rt, books, 3, counters(30_000, 2, 0, 0));
    book_pod(rt, alloc, books, 1, &QUOTAS, &DRAWN)?;
    assert_counts(rt, books, 4, counters(50_000, 1, 0, 0));
    assert_counts(rt, books, 3, counters(45_000, 3, 0, 0));
    Ok(())
}

#[test]
fn forgotten_groups(rt: HostRuntime) -> Result<(), Fail> {
    let mut books = Books::new(rt.alloc());
    assert_forgets(&rt, rt.alloc(), &mut books)
}

static SMALL_QUOTAS: [Option<u64>; 5] = [Some(1), Some(10), Some(0), None, None];

static GREATEST: [u64; 5] = [u64::MAX, 10, u64::MAX, 7, 10];

// A counter saturates. No burst is counted for the root, whatever its quota.
fn assert_stays(rt: &impl Abort, alloc: Global, books: &mut Books) -> Result<(), Fail> {
    book_pod(rt, alloc, books, 2, &SMALL_QUOTAS, &GREATEST)?;
    assert_counts(rt, books, 0, counters(u64::MAX, 2, 0, 0));
    assert_counts(rt, books, 3, counters(u64::MAX, 2, 2, u64::MAX));
    book_pod(rt, alloc, books, 1, &QUOTAS, &DRAWN)?;
    assert_counts(rt, books, 0, counters(u64::MAX, 3, 0, 0));
    Ok(())
}

#[test]
fn greatest_counters(rt: HostRuntime) -> Result<(), Fail> {
    let mut books = Books::new(rt.alloc());
    assert_stays(&rt, rt.alloc(), &mut books)
}

static WIDE: Stat = Stat {
    usage_usec: u64::MAX,
    nr_periods: u64::MAX,
    nr_throttled: 12_345_678_901,
    throttled_usec: u64::MAX,
    nr_bursts: 7,
    burst_usec: 8,
};

static WIDE_LINE: &str =
    "18446744073709551615 18446744073709551615 12345678901 18446744073709551615 a/b\n";

// Numbers wider than their columns.
#[test]
fn wide_line(rt: HostRuntime) -> Result<(), Fail> {
    let mut line = Vec::new(rt.alloc());
    if put_report_line(&WIDE, b"a/b", &mut line).is_err() {
        line.clear();
        put_report_line(&WIDE, b"a/b", &mut line)?;
    }
    assert!(rt; line.as_slice() == WIDE_LINE.as_bytes());
    Ok(())
}
