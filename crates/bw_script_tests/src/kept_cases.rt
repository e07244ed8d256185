//! Questions between changes: each answer is that of the groups as they are, not as they were kept.
//!
//! The period needs a thread. Where the machine refuses one, the answer is another, and the test
//! ends at its assertion.
ghost use Rattle.std.specs.Prelude.{◌≡◌, IfOk};
ghost use Rattle.bw_tree.specs.Kept.{IsSnapshotOf};

use crate::stream_cases::{assert_ran, host, joined};
use bw_hierarchy::{Fault, Hierarchy, keys_of};
use bw_shell::run;
use bw_streams::Watched;
use bw_tree::Snapshot;
use std::alloc::Global;
use std::process::Abort;
use std::random::RandomSource;
use std::rt::Clock;
use std::sync::Wait;
use std::test::Fail;
use std::thread::Threads;

// A pod has a quota of ten slices and a burst of five. It leaves seven of one period, and may draw
// fifteen in the next.
static ONE_HOST: [(&str, &str); 34] = [
    ("mkdir pod", "ok"),
    ("mkdir pod/x", "ok"),
    ("mkdir job", "ok"),
    ("demand pod/x 20", "ok"),
    ("demand job 20", "ok"),
    ("plan", "20 .\n10 pod\n10 pod/x\n10 job"),
    ("write job cpu.weight 300", "ok"),
    ("plan", "20 .\n5 pod\n5 pod/x\n15 job"),
    ("write job cpu.weight 0", "error 12 WeightOutOfRange"),
    ("plan", "20 .\n5 pod\n5 pod/x\n15 job"),
    ("write job cpu.weight 100", "ok"),
    ("demand job 4", "ok"),
    ("plan", "20 .\n16 pod\n16 pod/x\n4 job"),
    ("total", "total 20\nlimit 20 .\ndemand 0"),
    ("write pod cpu.max 50000 100000", "ok"),
    ("write pod cpu.max.burst 25000", "ok"),
    ("plan", "14 .\n10 pod\n10 pod/x\n4 job"),
    ("demand pod/x 3", "ok"),
    ("total", "total 7\ndemand 7"),
    ("period", "served 7"),
    ("demand pod/x 20", "ok"),
    ("plan", "19 .\n15 pod\n15 pod/x\n4 job"),
    ("total", "total 19\nlimit 15 pod\ndemand 4"),
    ("mkdir lab", "ok"),
    ("plan", "19 .\n15 pod\n15 pod/x\n4 job\n0 lab"),
    ("demand pod 1", "error 8 InnerDemand"),
    ("rmdir lab", "ok"),
    ("total", "total 19\nlimit 15 pod\ndemand 4"),
    ("write pod cpu.max.burst 0", "ok"),
    ("total", "total 14\nlimit 10 pod\ndemand 4"),
    ("write pod cpu.max 50000 200000", "ok"),
    ("total", "total 9\nlimit 5 pod\ndemand 4"),
    ("write pod cpu.max max", "ok"),
    ("total", "total 20\nlimit 20 .\ndemand 0"),
];

fn assert_answers<R: AllocGlobal + Threads + Wait + Clock + RandomSource + Abort + Sync>(
    rt: &R,
    script: &str,
    answers: &str,
) -> Result<(), Fail> {
    let mut out = Vec::new(rt.alloc());
    let mut reader = Watched::new(script.as_bytes());
    let mut writer = Watched::new(&mut out);
    let result = run(rt, &mut reader, &mut writer, host()?);
    assert_ran(rt, &result);
    assert!(rt; out.as_slice() == answers.as_bytes());
    Ok(())
}

#[test]
fn questions_between_changes(rt: HostRuntime) -> Result<(), Fail> {
    let (script, answers) = joined(rt.alloc(), &ONE_HOST)?;
    assert_answers(&rt, script.as_str(), answers.as_str())?;
    Ok(())
}

fn new_hierarchy(alloc: Global) -> Result<Hierarchy, Fail> {
    let shape = host()?;
    let keys = keys_of(0)?;
    match Hierarchy::new(alloc, keys, shape) {
        Err(_) => Ok(Hierarchy::new(alloc, keys, shape)?),
        Ok(made) => Ok(made),
    }
}

// The snapshot that is kept, or a new one. Out of memory it is taken once more.
fn take(hierarchy: &mut Hierarchy) -> Result<Snapshot, Fault>
    ensures same { hierarchy.new ≡ hierarchy.old }
    ensures taken { IfOk result (λ s. IsSnapshotOf s hierarchy.old.tree hierarchy.old.shape) }
{
    match hierarchy.take_snapshot() {
        Err(_) => hierarchy.take_snapshot(),
        Ok(snapshot) => Ok(snapshot),
    }
}

fn take_anew(hierarchy: &Hierarchy) -> Result<Snapshot, Fault> {
    match hierarchy.snapshot() {
        Err(_) => hierarchy.snapshot(),
        Ok(snapshot) => Ok(snapshot),
    }
}

fn assert_alike(rt: &impl Abort, kept: &Snapshot, anew: &Snapshot) {
    assert!(rt; kept.ids.as_slice() == anew.ids.as_slice());
    assert!(rt; kept.quotas.as_slice() == anew.quotas.as_slice());
    assert!(rt; kept.instance.rows() == anew.instance.rows());
    for g in 0..kept.instance.group_count() {
        assert!(rt; g < anew.instance.group_count());
        assert!(rt; kept.instance.children(g) == anew.instance.children(g));
    }
}

// Asserts that a snapshot that is taken is one taken anew, and keeps it.
fn assert_in_step(rt: &impl Abort, hierarchy: &mut Hierarchy) -> Result<(), Fault> {
    let snapshot = take(hierarchy)?;
    let anew = take_anew(hierarchy)?;
    assert_alike(rt, &snapshot, &anew);
    hierarchy.keep(snapshot);
    Ok(())
}

// Changes while a snapshot is kept.
fn assert_changes(rt: &impl Abort, hierarchy: &mut Hierarchy) -> Result<(), Fault> {
    assert_in_step(rt, hierarchy)?;
    make(hierarchy, "a")?;
    assert_in_step(rt, hierarchy)?;
    make(hierarchy, "a/b")?;
    assert_in_step(rt, hierarchy)?;
    hierarchy.set_demand("a/b", 7)?;
    assert_in_step(rt, hierarchy)?;
    hierarchy.write_file("a", "cpu.max", b"50000")?;
    assert_in_step(rt, hierarchy)?;
    hierarchy.write_file("a/b", "cpu.weight", b"300")?;
    assert_in_step(rt, hierarchy)?;
    assert!(rt; hierarchy.set_demand("a", 7).is_err());
    hierarchy.set_demand("a/b", 0)?;
    assert_in_step(rt, hierarchy)?;
    hierarchy.rmdir("a/b")?;
    assert_in_step(rt, hierarchy)?;
    hierarchy.set_demand("a", 5)?;
    assert_in_step(rt, hierarchy)
}

fn make(hierarchy: &mut Hierarchy, path: &str) -> Result<(), Fault> {
    if hierarchy.mkdir(path).is_ok() {
        return Ok(());
    }
    let _id = hierarchy.mkdir(path)?;
    Ok(())
}

#[test]
fn a_kept_snapshot(rt: HostRuntime) -> Result<(), Fail> {
    let mut hierarchy = new_hierarchy(rt.alloc())?;
    assert_changes(&rt, &mut hierarchy)?;
    Ok(())
}
