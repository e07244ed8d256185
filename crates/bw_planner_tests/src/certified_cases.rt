//! The text of a certificate whose numbers are at the ends of their lengths.

use bw_cert::write_certified;
use bw_model::{Certificate, HostShape, Instance, Mark, Row};
use std::alloc::{AllocError, Global};
use std::test::Fail;

/// The least and the greatest numbers of some lengths, and of all.
static ENDS: [u64; 14] = [
    0,
    9,
    10,
    99,
    100,
    999,
    1000,
    9999,
    10_000,
    99_999,
    100_000,
    9_999_999_999_999_999_999,
    10_000_000_000_000_000_000,
    18_446_744_073_709_551_615,
];

/// The text with a line for each of these numbers. In its line a number is cut to the range of each
/// column.
const TEXT: &str = "\
bw 1 1 100000 5000 15\n\
- 1 max 0 0 0 -\n\
0 1 0 0 0 1 1/1@0\n\
0 9 9 9 9 1 9/9@9\n\
0 10 10 10 10 1 10/10@10\n\
0 99 99 99 99 1 99/99@99\n\
0 100 100 100 100 1 100/100@100\n\
0 999 999 999 999 1 999/999@999\n\
0 1000 1000 1000 1000 1 1000/1000@1000\n\
0 9999 9999 9999 9999 1 9999/9999@9999\n\
0 10000 10000 10000 10000 1 10000/10000@10000\n\
0 10000 99999 99999 99999 1 99999/99999@99999\n\
0 10000 100000 100000 100000 1 100000/100000@100000\n\
0 10000 9999999999999999999 1000000 9999999999999999999 1 \
9999999999999999999/9999999999999999999@4294967295\n\
0 10000 10000000000000000000 1000000 10000000000000000000 1 \
10000000000000000000/10000000000000000000@4294967295\n\
0 10000 18446744073709551615 1000000 18446744073709551615 1 \
18446744073709551615/18446744073709551615@4294967295\n\
";

/// The columns of a text, a place for each group.
#[derive(Drop)]
struct Groups {
    rows: Vec<Row>,
    amounts: Vec<u64>,
    tight: Vec<bool>,
    levels: Vec<Option<Mark>>,
}

/// The root alone.
fn root(alloc: Global) -> Result<Groups, AllocError> {
    let row = Row {
        parent: None,
        weight: 1,
        limit: None,
        demand: 0,
    };
    Ok(Groups {
        rows: vec![in alloc; row]?,
        amounts: vec![in alloc; 0]?,
        tight: vec![in alloc; false]?,
        levels: vec![in alloc; None]?,
    })
}

/// One more child of the root.
fn push_group(groups: &mut Groups, n: u64) -> Result<(), AllocError> {
    groups.rows.push(Row {
        parent: Some(0),
        weight: n.clamp(1, 10_000),
        limit: Some(n),
        demand: n.min(1_000_000),
    })?;
    groups.amounts.push(n)?;
    groups.tight.push(true)?;
    let place = u32::try_from(n).unwrap_or(u32::MAX);
    groups.levels.push(Mark::new(n.max(1), n.max(1), place))?;
    Ok(())
}

/// Each number in each column that it fits.
#[test]
fn ends_of_numbers(rt: HostRuntime) -> Result<(), Fail> {
    let alloc = rt.alloc();
    let mut groups = root(alloc)?;
    for n in ENDS {
        push_group(&mut groups, n)?;
    }
    let Groups {
        rows,
        amounts,
        tight,
        levels,
    } = groups;
    let instance = Instance::new(alloc, rows, HostShape::new(1, 100_000, 5000)?)?;
    let certificate = Certificate { tight, levels };
    let count = instance.rows().len();
    assert!(&rt; amounts.len() == count);
    assert!(&rt; certificate.tight.len() == count);
    assert!(&rt; certificate.levels.len() == count);
    let text = write_certified(alloc, &instance, amounts.as_slice(), &certificate)?;
    assert!(&rt; text.as_str() == TEXT);
    Ok(())
}
