//! Certificates whose lists are not as long as the rows, which no certified text has.

use bw_check::{CheckFault, Verdict, check};
use bw_machine::Count;
use bw_model::{Certificate, HostShape, Instance, InstanceFault, Mark, Row};
use std::alloc::Global;
use std::process::Abort;
use std::test::Fail;

/// Two groups of weights 100 and 200, each with a demand of 20.
static TWO: [Row; 3] = [
    Row {
        parent: None,
        weight: 100,
        limit: None,
        demand: 0,
    },
    Row {
        parent: Some(0),
        weight: 100,
        limit: None,
        demand: 20,
    },
    Row {
        parent: Some(0),
        weight: 200,
        limit: None,
        demand: 20,
    },
];

static AMOUNTS: [u64; 3] = [20, 7, 13];

static TIGHT: [bool; 3] = [true, false, false];

const WRONG: Verdict = Verdict::Refused {
    fault: CheckFault::WrongLength,
    group: 0,
};

/// The verdict on these amounts, flags and levels of two groups.
fn verdict_once(
    alloc: Global,
    shape: HostShape,
    amounts: &[u64],
    tight: &[bool],
    levels: &[Option<Mark>],
) -> Result<Verdict, InstanceFault> {
    let instance = Instance::new(alloc, TWO.to_vec(alloc)?, shape)?;
    let certificate = Certificate {
        tight: tight.to_vec(alloc)?,
        levels: levels.to_vec(alloc)?,
    };
    Ok(check(alloc, &instance, amounts, &certificate, &mut Count::none())?)
}

/// Asserts the verdict on the first `counts` amounts, flags and levels, on one processor of 20
/// slices. All three of each are accepted. A check that is refused memory is run once more.
fn assert_verdict(
    rt: &impl Abort,
    alloc: Global,
    counts: (usize, usize, usize),
    wanted: Verdict,
) -> Result<(), Fail> {
    let shape = HostShape::new(1, 100_000, 5000)?;
    let levels = [Mark::new(13, 100, 0), None, None];
    let amounts = AMOUNTS.split_at(counts.0.min(3)).0;
    let tight = TIGHT.split_at(counts.1.min(3)).0;
    let levels = levels.split_at(counts.2.min(3)).0;
    let verdict = match verdict_once(alloc, shape, amounts, tight, levels) {
        Err(_) => verdict_once(alloc, shape, amounts, tight, levels)?,
        Ok(verdict) => verdict,
    };
    assert!(rt; verdict == wanted);
    Ok(())
}

/// One amount, one flag and one level for each row.
#[test]
fn lengths(rt: HostRuntime) -> Result<(), Fail> {
    assert_verdict(&rt, rt.alloc(), (3, 3, 3), Verdict::Accepted)?;
    for counts in [(2, 3, 3), (3, 2, 3), (3, 3, 2)] {
        assert_verdict(&rt, rt.alloc(), counts, WRONG)?;
    }
    Ok(())
}
