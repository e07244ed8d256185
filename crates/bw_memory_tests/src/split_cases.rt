//! Splits among siblings, by a level and by marks.
use bw_split::{can_split, split, split_by_marks};
use std::test::Fail;

static WEIGHTS: [u64; 2] = [100, 300];

static MOST: [u64; 2] = [20, 20];

#[test]
fn splitting(rt: HostRuntime) -> Result<(), Fail> {
    assert!(rt; can_split(10, &WEIGHTS, &MOST));
    let parts = match split(rt.alloc(), 10, &WEIGHTS, &MOST) {
        Err(_) => split(rt.alloc(), 10, &WEIGHTS, &MOST)?,
        Ok(parts) => parts,
    };
    assert!(rt; parts.as_slice() == [3, 7].as_slice());
    Ok(())
}

#[test]
fn splitting_by_marks(rt: HostRuntime) -> Result<(), Fail> {
    assert!(rt; can_split(10, &WEIGHTS, &MOST));
    let parts = match split_by_marks(rt.alloc(), 10, &WEIGHTS, &MOST) {
        Err(_) => split_by_marks(rt.alloc(), 10, &WEIGHTS, &MOST)?,
        Ok(parts) => parts,
    };
    assert!(rt; parts.as_slice() == [3, 7].as_slice());
    Ok(())
}
