//! Scripts whose periods are served under gates. A case with a failed allocation or thread spawn is
//! run once more.
use crate::workers_cases::{Without, held_first, meeting};
use bw_model::HostShape;
use bw_shell::run_gated;
use bw_streams::{RunFault, Watched};
use bw_workers::Gate;
use std::alloc::{AllocError, Global};
use std::process::Abort;
use std::random::RandomSource;
use std::rt::Clock;
use std::sync::Wait;
use std::test::Fail;
use std::thread::Threads;

const POD_AND_JOB: &str = "mkdir pod
mkdir pod/x
mkdir pod/y
mkdir job
write pod cpu.max 50000
write pod/y cpu.weight 300
demand pod/x 20
demand pod/y 20
demand job 20
";

const POD_AND_JOB_SAID: &str = "ok\nok\nok\nok\nok\nok\nok\nok\nok\n";

// Whether memory or a thread was refused to a line of a script.
fn is_refused(said: &[u8]) -> bool {
    said.split(|byte| *byte == b'\n').any(|line| line == b"error 71 OutOfMemory".as_slice()
        || line == b"error 70 NotStarted".as_slice())
}

// Runs a script on four processors of 20 slices each, and asserts its output if nothing failed.
fn ran<G: Gate, R: AllocGlobal + Threads + Wait + Clock + RandomSource + Abort + Sync>(
    rt: &R,
    script: &str,
    gate: &G,
    said: &str,
) -> Result<(), AllocError> {
    let Ok(shape) = HostShape::new(4, 100000, 5000) else {
        panic!(rt; "no host")
    };
    let mut out = Vec::new(rt.alloc());
    let mut reader = Watched::new(script.as_bytes());
    let mut writer = Watched::new(&mut out);
    let run = run_gated(rt, &mut reader, &mut writer, shape, gate);
    if run == Err(RunFault::Memory) || is_refused(&out) {
        return Err(AllocError);
    }
    assert!(rt; run.is_ok());
    assert!(rt; out.as_slice() == said.as_bytes());
    Ok(())
}

// A text, a line so many times, and another text.
fn around(
    alloc: Global,
    before: &str,
    line: &str,
    times: u32,
    after: &str,
) -> Result<String, AllocError> {
    let mut text = String::new(alloc);
    text.push_str(before)?;
    for _ in 0..times {
        text.push_str(line)?;
    }
    text.push_str(after)?;
    Ok(text)
}

const UNUSED_JOB_SAID: &str = "30 .
10 pod
3 pod/x
7 pod/y
20 job
          usage_usec    periods  throttled       throttled_usec group
               50000          1          0                    0 .
               50000          1          1               150000 pod
               15000          1          0                    0 pod/x
               35000          1          0                    0 pod/y
                   0          1          0                    0 job
";

// A gate that does not use job: the plan is as ever, and what is drawn of job is given back.
fn unused_job<R: AllocGlobal + Threads + Wait + Clock + RandomSource + Abort + Sync>(
    rt: &R,
) -> Result<(), AllocError> {
    let after = "plan\nreport\n";
    let script = around(rt.alloc(), POD_AND_JOB, "period\n", 1, after)?;
    let said = around(
        rt.alloc(),
        POD_AND_JOB_SAID,
        "served 10\n",
        1,
        UNUSED_JOB_SAID,
    )?;
    // job is row 4
    ran(rt, script.as_str(), &Without(4), said.as_str())
}

#[test]
fn a_leaf_that_is_not_used(rt: HostRuntime) -> Result<(), Fail> {
    if unused_job(&rt).is_err() {
        unused_job(&rt)?;
    }
    Ok(())
}

const FIFTY_SAID: &str = "          usage_usec    periods  throttled       throttled_usec group
             7500000         50          0                    0 .
             2500000         50         50              7500000 pod
              750000         50          0                    0 pod/x
             1750000         50          0                    0 pod/y
             5000000         50          0                    0 job
usage_usec 7500000
usage_usec 2500000
nr_periods 50
nr_throttled 50
throttled_usec 7500000
nr_bursts 0
burst_usec 0
";

// Fifty periods of the script of pod and job, and the counters after them.
fn fifty_periods<G: Gate, R: AllocGlobal + Threads + Wait + Clock + RandomSource + Abort + Sync>(
    rt: &R,
    gate: &G,
) -> Result<(), AllocError> {
    let after = "report\nread . cpu.stat\nread pod cpu.stat\n";
    let script = around(rt.alloc(), POD_AND_JOB, "period\n", 50, after)?;
    let said = around(rt.alloc(), POD_AND_JOB_SAID, "served 30\n", 50, FIFTY_SAID)?;
    ran(rt, script.as_str(), gate, said.as_str())
}

// Fifty periods of that script in which a worker's first draw waits for one of another.
fn held_periods<R: AllocGlobal + Threads + Wait + Clock + RandomSource + Abort + Sync>(
    rt: &R,
    held: u32,
    other: u32,
    nth: u64,
) -> Result<(), AllocError> {
    let gate = held_first(held, other, nth);
    fifty_periods(rt, &gate)?;
    assert!(rt; gate.met.load() == 100);
    Ok(())
}

// The worker that is held, the one that it waits for, and at which of its draws.
static WAITS: [(u32, u32, u64); 3] = [(0, 1, 0), (1, 0, 0), (3, 2, 1)];

#[test]
fn fifty_periods_where_one_waits(rt: HostRuntime) -> Result<(), Fail> {
    for (held, other, nth) in &WAITS {
        if held_periods(&rt, *held, *other, *nth).is_err() {
            held_periods(&rt, *held, *other, *nth)?;
        }
    }
    Ok(())
}

// As above, but all four workers wait for one another in the first period. Later periods do not
// wait.
fn met_periods<R: AllocGlobal + Threads + Wait + Clock + RandomSource + Abort + Sync>(
    rt: &R,
) -> Result<(), AllocError> {
    let gate = meeting();
    fifty_periods(rt, &gate)?;
    assert!(rt; gate.met.load() == 200);
    Ok(())
}

#[test]
fn fifty_periods_where_all_meet(rt: HostRuntime) -> Result<(), Fail> {
    if met_periods(&rt).is_err() {
        met_periods(&rt)?;
    }
    Ok(())
}
