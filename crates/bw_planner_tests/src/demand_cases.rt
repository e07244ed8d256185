//! Wants and limiting groups, against worked values.
use crate::rows::{Shown, instance_of};
use bw_demand::{gather, limiting};
use bw_model::{HostShape, InstanceFault};
use std::alloc::Global;
use std::process::Abort;
use std::test::Fail;

/// Processors of 20 slices each, rows, and the demands and limiting groups of these.
struct Case {
    processors: u64,
    rows: &'static [Shown],
    want: &'static [u64],
    most: &'static [u64],
    tight: &'static [bool],
    groups: &'static [u32],
    rest: u64,
}

fn assert_once(
    rt: &impl Abort,
    alloc: Global,
    shape: HostShape,
    case: &Case,
) -> Result<(), InstanceFault> {
    let instance = instance_of(alloc, shape, case.rows)?;
    let gathered = gather(alloc, &instance)?;
    assert!(rt; gathered.want.as_slice() == case.want);
    assert!(rt; gathered.most.as_slice() == case.most);
    assert!(rt; gathered.tight.as_slice() == case.tight);
    let limits = limiting(alloc, &instance, &gathered)?;
    assert!(rt; limits.groups.as_slice() == case.groups);
    assert!(rt; limits.rest == case.rest);
    Ok(())
}

// A static table costs its readers no proof; each entry of a local one is a step of it.
static CASES: [Case; 6] = [
    // the root alone
    Case {
        processors: 1,
        rows: &[(None, None, 0)],
        want: &[0],
        most: &[0],
        tight: &[false],
        groups: &[],
        rest: 0,
    },
    // a want that is just the capacity, or just the limit, is not tight
    Case {
        processors: 1,
        rows: &[(None, None, 0), (Some(0), Some(20), 20)],
        want: &[20, 20],
        most: &[20, 20],
        tight: &[false, false],
        groups: &[],
        rest: 20,
    },
    // two groups share one processor
    Case {
        processors: 1,
        rows: &[(None, None, 0), (Some(0), None, 20), (Some(0), None, 20)],
        want: &[40, 20, 20],
        most: &[20, 20, 20],
        tight: &[true, false, false],
        groups: &[0],
        rest: 0,
    },
    // a tight group over two tight children
    Case {
        processors: 2,
        rows: &[
            (None, None, 0),
            (Some(0), Some(20), 0),
            (Some(1), Some(15), 30),
            (Some(1), Some(15), 30),
        ],
        want: &[20, 30, 30, 30],
        most: &[20, 20, 15, 15],
        tight: &[false, true, true, true],
        groups: &[1],
        rest: 0,
    },
    // a limited group beside one that is not
    Case {
        processors: 4,
        rows: &[
            (None, None, 0),
            (Some(0), Some(10), 0),
            (Some(1), None, 20),
            (Some(1), None, 20),
            (Some(0), None, 20),
        ],
        want: &[30, 40, 20, 20, 20],
        most: &[30, 10, 20, 20, 20],
        tight: &[false, true, false, false, false],
        groups: &[1],
        rest: 20,
    },
    // the greatest demands, in all far more than the greatest capacity
    Case {
        processors: 4,
        rows: &[
            (None, None, 0),
            (Some(0), None, 0),
            (Some(1), None, 1_000_000),
            (Some(1), None, 1_000_000),
            (Some(1), None, 1_000_000),
            (Some(1), None, 1_000_000),
            (Some(1), None, 1_000_000),
            (Some(1), None, 1_000_000),
            (Some(1), None, 1_000_000),
            (Some(1), None, 1_000_000),
            (Some(1), None, 1_000_000),
            (Some(1), None, 1_000_000),
            (Some(1), None, 1_000_000),
        ],
        want: &[
            11_000_000, 11_000_000, 1_000_000, 1_000_000, 1_000_000, 1_000_000, 1_000_000,
            1_000_000, 1_000_000, 1_000_000, 1_000_000, 1_000_000, 1_000_000,
        ],
        most: &[
            80, 11_000_000, 1_000_000, 1_000_000, 1_000_000, 1_000_000, 1_000_000, 1_000_000,
            1_000_000, 1_000_000, 1_000_000, 1_000_000, 1_000_000,
        ],
        tight: &[
            true, false, false, false, false, false, false, false, false, false, false, false,
            false,
        ],
        groups: &[0],
        rest: 0,
    },
];

/// Where memory was refused a case is run again: that left nothing behind.
#[test]
fn worked_limits(rt: HostRuntime) -> Result<(), Fail> {
    for case in &CASES {
        let shape = HostShape::new(case.processors, 100_000, 5_000)?;
        if assert_once(&rt, rt.alloc(), shape, case).is_err() {
            assert_once(&rt, rt.alloc(), shape, case)?;
        }
    }
    Ok(())
}
