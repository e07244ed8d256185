//! Splits of one list of siblings, by a level and by marks, against all lists and a plain program.
ghost use Rattle.bw_split.specs.Conditions.{CanSplit};

use bw_split::{Work, can_split, level_of, narrowed, split, split_by_marks, split_counted};
use std::alloc::{AllocError, Global};
use std::process::Abort;
use std::test::Fail;

fn assert_split_once(
    rt: &impl Abort,
    alloc: Global,
    amount: u64,
    weights: &[u64],
    most: &[u64],
    wanted: &[u64],
) -> Result<(), AllocError> {
    assert!(rt; can_split(amount, weights, most));
    let by_level = split(alloc, amount, weights, most)?;
    assert!(rt; by_level.as_slice() == wanted);
    let by_marks = split_by_marks(alloc, amount, weights, most)?;
    assert!(rt; by_marks.as_slice() == wanted);
    Ok(())
}

/// Asserts that both bodies give these parts, with a second run if memory was refused.
fn assert_split(
    rt: &impl Abort,
    alloc: Global,
    amount: u64,
    weights: &[u64],
    most: &[u64],
    wanted: &[u64],
) -> Result<(), AllocError> {
    if assert_split_once(rt, alloc, amount, weights, most, wanted).is_err() {
        assert_split_once(rt, alloc, amount, weights, most, wanted)?;
    }
    Ok(())
}

#[test]
fn refused(rt: HostRuntime) {
    assert!(rt; !can_split(3, &[100], &[2]));
    assert!(rt; !can_split(1, &[0], &[1]));
    assert!(rt; !can_split(1, &[10001], &[1]));
    assert!(rt; !can_split(1, &[100], &[1, 1]));
    assert!(rt; !can_split(64001, &[1], &[64001]));
    assert!(rt; can_split(2, &[100, 100], &[1, u64::MAX]));
    assert!(rt; level_of(&[0, 0], &[1, 1]).is_none());
}

static WEIGHTS: [u64; 16383] = [100; 16383];

static MOST: [u64; 16383] = [20; 16383];

static FOURS: [u64; 14851] = [4; 14851];

static THREES: [u64; 1532] = [3; 1532];

/// 64000 slices among the most children, all of one weight: the first 14851 get 4, the others 3.
fn assert_fours(rt: &impl Abort, parts: &[u64]) {
    assert!(rt; parts.len() == 16383);
    let (first, last) = parts.split_at(14851);
    assert!(rt; first == FOURS.as_slice());
    assert!(rt; last == THREES.as_slice());
}

/// The split of lists of 16 bits, which is counted.
fn counted(
    alloc: Global,
    amount: u64,
    weights: &[u64],
    most: &[u64],
) -> Result<Vec<u64>, AllocError>
    requires { CanSplit amount weights.now most.now }
{
    let weights = narrowed(alloc, weights, 10000)?;
    let most = narrowed(alloc, most, amount)?;
    let parts = split_counted(
        alloc,
        amount,
        weights.as_slice(),
        most.as_slice(),
        &mut Work::new(),
    )?;
    let mut wide = Vec::with_capacity(alloc, parts.len())?;
    for part in parts.as_slice() {
        wide.push(u64::from(*part))?;
    }
    Ok(wide)
}

fn assert_many(rt: &impl Abort, alloc: Global) -> Result<(), AllocError> {
    assert!(rt; can_split(64000, &WEIGHTS, &MOST));
    assert_fours(rt, &split(alloc, 64000, &WEIGHTS, &MOST)?);
    assert_fours(rt, &split_by_marks(alloc, 64000, &WEIGHTS, &MOST)?);
    assert_fours(rt, &counted(alloc, 64000, &WEIGHTS, &MOST)?);
    Ok(())
}

#[test]
fn many_children(rt: HostRuntime) -> Result<(), Fail> {
    if assert_many(&rt, rt.alloc()).is_err() {
        assert_many(&rt, rt.alloc())?;
    }
    Ok(())
}

/// A level is greatest where nearly all slices go to a child of the least weight.
#[test]
fn great_level(rt: HostRuntime) -> Result<(), Fail> {
    let most = [60000, 10, 10];
    assert_split(&rt, rt.alloc(), 60015, &[1, 1, 1], &most, &[59995, 10, 10])?;
    Ok(())
}

/// Two children of great weights, of the same weight in a tie, and each cut at what both can take.
#[test]
fn two_children(rt: HostRuntime) -> Result<(), Fail> {
    let alloc = rt.alloc();
    let most = [64000, 64000];
    assert_split(&rt, alloc, 64000, &[10000, 9999], &most, &[32002, 31998])?;
    assert_split(&rt, alloc, 63999, &[1, 1], &most, &[32000, 31999])?;
    assert_split(&rt, alloc, 60005, &[1, 1], &[60000, 10], &[59995, 10])?;
    assert_split(&rt, alloc, 60005, &[1, 1], &[10, u64::MAX], &[10, 59995])?;
    Ok(())
}

/// The cost of three parts: each squared, times the weights of the other two.
fn cost_of([a, b, c]: [u64; 3], [x, y, z]: [u64; 3]) -> u64 {
    let first = a.wrapping_mul(a).wrapping_mul(y).wrapping_mul(z);
    let second = b.wrapping_mul(b).wrapping_mul(x).wrapping_mul(z);
    let third = c.wrapping_mul(c).wrapping_mul(x).wrapping_mul(y);
    first.wrapping_add(second).wrapping_add(third)
}

/// The best split among three children by trying all lists, in lexicographic order.
fn best_by_trial(amount: u64, weights: [u64; 3], most: [u64; 3]) -> [u64; 3] {
    let mut best = [0; 3];
    let mut least = u64::MAX;
    for first in 0..=most[0] {
        for second in 0..=most[1] {
            for third in 0..=most[2] {
                let parts = [first, second, third];
                let cost = cost_of(parts, weights);
                if first.wrapping_add(second).wrapping_add(third) == amount && cost <= least {
                    best = parts;
                    least = cost;
                }
            }
        }
    }
    best
}

/// Every amount up to 6, among up to three children with weights 1 to 3 and maxima up to 6.
#[test]
fn every_small_split(rt: HostRuntime) -> Result<(), Fail> {
    let mut cases: u64 = 1;
    for children in 0..4usize {
        for case in 0..cases {
            let mut digits = case;
            let mut weights = [1; 3];
            let mut most = [0; 3];
            for i in 0..children {
                weights[i] = digits % 3 + 1;
                most[i] = digits / 3 % 7;
                digits /= 21;
            }
            for amount in 0..7u64 {
                if can_split(amount, &weights[..children], &most[..children]) {
                    let parts = best_by_trial(amount, weights, most);
                    assert_split(
                        &rt,
                        rt.alloc(),
                        amount,
                        &weights[..children],
                        &most[..children],
                        &parts[..children],
                    )?;
                }
            }
        }
        cases = cases.saturating_mul(21);
    }
    Ok(())
}
