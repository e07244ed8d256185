//! Texts of a group's files that no script line can hold: with line breaks, and with counters at
//! their greatest value.
use bw_files::{MaxWrite, put_stat, read_burst, read_max, read_weight};
use bw_model::{Quota, Stat};
use std::alloc::Global;
use std::process::Abort;
use std::test::Fail;

// Static tables cost no proof. Each entry of a local table is a step of the proof.
// A refusal is given by its number.
static WEIGHTS: [(&[u8], Result<u64, u8>); 2] = [(b" 100\n", Ok(100)), (b" \t\n", Err(17))];

static BURSTS: [(&[u8], Result<u64, u8>); 2] = [(b"\n25000 \n", Ok(25_000)), (b"1\n2", Err(16))];

static MAXIMA: [(&[u8], Result<MaxWrite, u8>); 2] = [
    (
        b"\tmax \n 1000\n",
        Ok(MaxWrite {
            quota: Quota::Max,
            period: Some(1000),
        }),
    ),
    (b"\t\n ", Err(17)),
];

// A line break counts as a blank.
#[test]
fn line_breaks(rt: HostRuntime) {
    for (text, wanted) in &WEIGHTS {
        assert!(rt; read_weight(text).map_err(|fault| fault.number()) == *wanted);
    }
    for (text, wanted) in &BURSTS {
        assert!(rt; read_burst(text).map_err(|fault| fault.number()) == *wanted);
    }
    for (text, wanted) in &MAXIMA {
        assert!(rt; read_max(text).map_err(|fault| fault.number()) == *wanted);
    }
}

static GREATEST: Stat = Stat {
    usage_usec: u64::MAX,
    nr_periods: u64::MAX,
    nr_throttled: u64::MAX,
    throttled_usec: u64::MAX,
    nr_bursts: u64::MAX,
    burst_usec: u64::MAX,
};

static OF_THE_ROOT: &str = "usage_usec 18446744073709551615\n";

static OF_A_GROUP: &str = "usage_usec 18446744073709551615\nnr_periods 18446744073709551615\n\
     nr_throttled 18446744073709551615\nthrottled_usec 18446744073709551615\n\
     nr_bursts 18446744073709551615\nburst_usec 18446744073709551615\n";

fn assert_writes(rt: &impl Abort, alloc: Global, root: bool, wanted: &str) -> Result<(), Fail> {
    let mut text = Vec::new(alloc);
    if put_stat(&GREATEST, root, &mut text).is_err() {
        text.clear();
        put_stat(&GREATEST, root, &mut text)?;
    }
    assert!(rt; text.as_slice() == wanted.as_bytes());
    Ok(())
}

#[test]
fn greatest_counters(rt: HostRuntime) -> Result<(), Fail> {
    assert_writes(&rt, rt.alloc(), true, OF_THE_ROOT)?;
    assert_writes(&rt, rt.alloc(), false, OF_A_GROUP)
}
