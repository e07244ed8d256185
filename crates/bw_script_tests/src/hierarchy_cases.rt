//! Groups made by the builder and set by the controller, against worked values. No script line
//! reaches these calls. A call that runs out of memory is repeated on the unchanged hierarchy, so
//! each case holds with any one of its allocations failing.
use bw_hierarchy::{Cgroup, CgroupBuilder, CpuController, Fault, Hierarchy, keys_of};
use bw_model::HostShape;
use bw_tree::{GroupId, TreeFault};
use std::alloc::Global;
use std::process::Abort;
use std::test::Fail;

// Root of a host with one processor of 20 slices of 5000 microseconds.
fn new_hierarchy(alloc: Global) -> Result<Hierarchy, Fail> {
    let shape = HostShape::new(1, 100_000, 5000)?;
    let keys = keys_of(0)?;
    match Hierarchy::new(alloc, keys, shape) {
        Err(_) => Ok(Hierarchy::new(alloc, keys, shape)?),
        Ok(made) => Ok(made),
    }
}

// Makes a group.
fn make(hierarchy: &mut Hierarchy, path: &str) -> Result<GroupId, Fault> {
    match hierarchy.mkdir(path) {
        Err(Fault::Tree(TreeFault::OutOfMemory)) => hierarchy.mkdir(path),
        made => made,
    }
}

// Asserts the number of the refusal of a file that is read, 0 for none, and its text.
fn assert_reads(
    rt: &impl Abort,
    hierarchy: &Hierarchy,
    path: &str,
    file: &str,
    number: u8,
    text: &str,
) {
    let answer = match hierarchy.read_file(path, file) {
        Err(Fault::Tree(TreeFault::OutOfMemory)) => hierarchy.read_file(path, file),
        other => other,
    };
    match answer {
        Ok(read) => assert!(rt; number == 0 && read.as_str() == text, "{path}"),
        Err(fault) => assert!(rt; fault.number() == number, "{path}"),
    }
}

// Group that a builder makes, or its refusal.
fn built(
    hierarchy: &mut Hierarchy,
    path: &str,
    shares: Option<u64>,
    quota: Option<i64>,
    period: Option<u64>,
) -> Result<Cgroup, Fault> {
    let mut resources = CgroupBuilder::new(path).cpu();
    if let Some(shares) = shares {
        resources = resources.shares(shares);
    }
    if let Some(quota) = quota {
        resources = resources.quota(quota);
    }
    if let Some(period) = period {
        resources = resources.period(period);
    }
    let builder = resources.done();
    match builder.build(hierarchy) {
        Err(Fault::Tree(TreeFault::OutOfMemory)) => builder.build(hierarchy),
        other => other,
    }
}

// A build at a path or a read of a file, and the expected result.
#[derive(Clone, Copy)]
enum Build {
    // Shares, quota and period, and the number of the refusal, 0 for none.
    Makes(&'static str, Option<u64>, Option<i64>, Option<u64>, u8),
    // A file, the number of the refusal, 0 for none, and its text.
    Reads(&'static str, &'static str, u8, &'static str),
}

fn assert_builds(rt: &impl Abort, hierarchy: &mut Hierarchy, steps: &[Build]) {
    for step in steps {
        match *step {
            Build::Makes(path, shares, quota, period, wanted) => {
                let number = number_of(built(hierarchy, path, shares, quota, period));
                assert!(rt; number == wanted, "{path}");
            }
            Build::Reads(path, file, number, text) => {
                assert_reads(rt, hierarchy, path, file, number, text)
            }
        }
    }
}

// A static table costs no proof. Each entry of a local table is a step of the proof.
static BUILDERS: [Build; 22] = [
    Build::Makes("p/q", Some(300), Some(50_000), Some(100_000), 0),
    Build::Reads("p", "cpu.weight", 0, "100\n"),
    Build::Reads("p", "cpu.max", 0, "max 100000\n"),
    Build::Reads("p/q", "cpu.weight", 0, "300\n"),
    Build::Reads("p/q", "cpu.max", 0, "50000 100000\n"),
    Build::Makes("r/s", None, None, Some(999), 15),
    Build::Reads("r", "cpu.weight", 20, ""),
    Build::Makes("r/s", None, None, Some(200_000), 0),
    Build::Reads("r/s", "cpu.max", 0, "max 200000\n"),
    Build::Makes("r", Some(0), None, None, 12),
    Build::Makes("u", Some(0), None, None, 12),
    Build::Reads("u", "cpu.weight", 20, ""),
    Build::Makes(".", Some(5), None, None, 26),
    Build::Makes("./x/y", None, None, None, 20),
    Build::Makes("t//u", None, None, None, 22),
    Build::Makes("t/u", None, Some(999), None, 13),
    Build::Makes("t/u", None, Some(1_000_000_000_000_001), None, 14),
    // a group at depth 65
    Build::Makes(
        "d/d/d/d/d/d/d/d/d/d/d/d/d/d/d/d/d/d/d/d/d/d/d/d/d/d/d/d/d/d/d/d/d/d/d/d/d/d/d/d/d/d/d/d/d/d/d/d/d/d/d/d/d/d/d/d/d/d/d/d/d/d/d/d/d",
        None,
        None,
        None,
        7,
    ),
    Build::Reads("t", "cpu.weight", 20, ""),
    Build::Makes("p/q", None, Some(-1), None, 0),
    Build::Reads("p/q", "cpu.weight", 0, "300\n"),
    Build::Reads("p/q", "cpu.max", 0, "max 100000\n"),
];

#[test]
fn builders(rt: HostRuntime) -> Result<(), Fail> {
    let mut hierarchy = new_hierarchy(rt.alloc())?;
    assert_builds(&rt, &mut hierarchy, &BUILDERS);
    Ok(())
}

static BUILDERS_BELOW_A_BURST: [Build; 9] = [
    Build::Makes("p", Some(5), Some(49_999), None, 33),
    Build::Makes("p", Some(0), Some(49_999), None, 12),
    Build::Makes("p", Some(5), Some(49_999), Some(999), 15),
    Build::Makes("p", Some(5), Some(49_999), Some(200_000), 33),
    Build::Reads("p", "cpu.weight", 0, "100\n"),
    Build::Reads("p", "cpu.max", 0, "max 100000\n"),
    Build::Makes("p", Some(5), Some(50_000), Some(200_000), 0),
    Build::Reads("p", "cpu.weight", 0, "5\n"),
    Build::Reads("p", "cpu.max", 0, "50000 200000\n"),
];

// At a path that exists the burst is tested last. A refused builder changes nothing.
#[test]
fn builders_below_a_burst(rt: HostRuntime) -> Result<(), Fail> {
    let mut hierarchy = new_hierarchy(rt.alloc())?;
    make(&mut hierarchy, "p")?;
    hierarchy.write_file("p", "cpu.max.burst", b"50000")?;
    assert_builds(&rt, &mut hierarchy, &BUILDERS_BELOW_A_BURST);
    Ok(())
}

static LONGEST_NAME: [u8; 255] = [b'n'; 255];

// A build copies the tree, with each name in it.
#[test]
fn builder_beside_the_longest_name(rt: HostRuntime) -> Result<(), Fail> {
    let name = str::from_utf8(&LONGEST_NAME)?;
    let mut hierarchy = new_hierarchy(rt.alloc())?;
    make(&mut hierarchy, name)?;
    assert!(rt; number_of(built(&mut hierarchy, "p", Some(300), None, None)) == 0);
    assert_reads(&rt, &hierarchy, "p", "cpu.weight", 0, "300\n");
    assert_reads(&rt, &hierarchy, name, "cpu.weight", 0, "100\n");
    Ok(())
}

#[test]
fn builder_of_the_root(rt: HostRuntime) -> Result<(), Fail> {
    let mut hierarchy = new_hierarchy(rt.alloc())?;
    match built(&mut hierarchy, ".", None, None, None) {
        Ok(root) => assert!(rt; root.id == hierarchy.root_control_group().id),
        Err(_) => assert!(rt; false),
    }
    Ok(())
}

// A quota and a period to set, the number of the refusal (0 for none), and both values after it.
type Setting = (Option<i64>, Option<u64>, u8, i64, u64);

fn assert_settings(
    rt: &impl Abort,
    hierarchy: &mut Hierarchy,
    cpu: CpuController,
    settings: &[Setting],
) {
    for (quota, period, wanted, after, own) in settings {
        let set = cpu.set_cfs_quota_and_period(hierarchy, *quota, *period);
        assert!(rt; number_of(set) == *wanted);
        assert!(rt; cpu.cfs_quota(hierarchy) == Ok(*after));
        assert!(rt; cpu.cfs_period(hierarchy) == Ok(*own));
    }
}

static TWO_GROUPS: [&str; 2] = ["a", "a/b"];

fn put_groups(hierarchy: &mut Hierarchy) -> Result<(), Fault> {
    for path in &TWO_GROUPS {
        make(hierarchy, path)?;
    }
    Ok(())
}

// The root and these two.
fn two_groups(alloc: Global) -> Result<Hierarchy, Fail> {
    let mut hierarchy = new_hierarchy(alloc)?;
    put_groups(&mut hierarchy)?;
    Ok(hierarchy)
}

static SETTINGS: [Setting; 12] = [
    (None, Some(200_000), 0, -1, 200_000),
    (Some(50_000), None, 0, 50_000, 200_000),
    (Some(999), None, 13, 50_000, 200_000),
    (Some(-2), None, 13, 50_000, 200_000),
    (Some(i64::MIN), Some(999), 13, 50_000, 200_000),
    (Some(1_000_000_000_000_001), None, 14, 50_000, 200_000),
    (None, Some(999), 15, 50_000, 200_000),
    (None, Some(1_000_001), 15, 50_000, 200_000),
    (None, Some(1_000), 0, 50_000, 1_000),
    (None, None, 0, 50_000, 1_000),
    (None, Some(100_000), 0, 50_000, 100_000),
    (Some(-1), None, 0, -1, 100_000),
];

// Assertions stand in functions that borrow the hierarchy. A test owns it, and would have to drop
// it at each assertion.
fn assert_controls(rt: &impl Abort, hierarchy: &mut Hierarchy) -> Result<(), Fault> {
    let cpu = Cgroup::load(hierarchy, "a/b")?.cpu();
    assert_settings(rt, hierarchy, cpu, &SETTINGS);
    assert_reads(rt, hierarchy, "a/b", "cpu.max", 0, "max 100000\n");
    Ok(())
}

#[test]
fn controllers(rt: HostRuntime) -> Result<(), Fail> {
    let mut hierarchy = two_groups(rt.alloc())?;
    assert_controls(&rt, &mut hierarchy)?;
    Ok(())
}

static SETTINGS_OF_A_BURST: [Setting; 7] = [
    (Some(49_999), None, 33, 50_000, 100_000),
    (Some(49_999), Some(200_000), 33, 50_000, 100_000),
    (Some(49_999), Some(999), 15, 50_000, 100_000),
    (None, Some(200_000), 0, 50_000, 200_000),
    (Some(50_000), None, 0, 50_000, 200_000),
    (Some(-1), Some(100_000), 0, -1, 100_000),
    (Some(49_999), None, 33, -1, 100_000),
];

#[test]
fn controller_of_a_burst(rt: HostRuntime) -> Result<(), Fail> {
    let mut hierarchy = two_groups(rt.alloc())?;
    hierarchy.write_file("a", "cpu.max", b"50000")?;
    hierarchy.write_file("a", "cpu.max.burst", b"50000")?;
    let cpu = Cgroup::load(&hierarchy, "a")?.cpu();
    assert_settings(&rt, &mut hierarchy, cpu, &SETTINGS_OF_A_BURST);
    Ok(())
}

fn assert_shares(rt: &impl Abort, hierarchy: &mut Hierarchy) -> Result<(), Fault> {
    let cpu = Cgroup::load(hierarchy, "a/b")?.cpu();
    assert!(rt; cpu.set_shares(hierarchy, 300) == Ok(()));
    assert!(rt; number_of(cpu.set_shares(hierarchy, 10_001)) == 12);
    assert!(rt; cpu.shares(hierarchy) == Ok(300));
    Ok(())
}

#[test]
fn shares_by_a_controller(rt: HostRuntime) -> Result<(), Fail> {
    let mut hierarchy = two_groups(rt.alloc())?;
    assert_shares(&rt, &mut hierarchy)?;
    Ok(())
}

// Number of the refusal, 0 for none.
fn number_of<T: Drop>(answer: Result<T, Fault>) -> u8 {
    match answer {
        Ok(_) => 0,
        Err(fault) => fault.number(),
    }
}

// Asserts that each call of a controller is refused with this number.
fn assert_refuses_all(rt: &impl Abort, hierarchy: &mut Hierarchy, cpu: CpuController, wanted: u8) {
    assert!(rt; number_of(cpu.shares(hierarchy)) == wanted);
    assert!(rt; number_of(cpu.set_shares(hierarchy, 0)) == wanted);
    assert!(rt; number_of(cpu.cfs_quota(hierarchy)) == wanted);
    assert!(rt; number_of(cpu.cfs_period(hierarchy)) == wanted);
    let set = cpu.set_cfs_quota_and_period(hierarchy, None, None);
    assert!(rt; number_of(set) == wanted);
}

// Asserts that `a` is kept, because a group is below it.
fn assert_keeps(rt: &impl Abort, hierarchy: &mut Hierarchy, above: Cgroup) {
    match above.delete(hierarchy) {
        Ok(()) => assert!(rt; false),
        Err(kept) => assert!(rt; kept.fault.number() == 23 && kept.cgroup.id == 1),
    }
}

// Deletes `a/b`, and asserts the answers of the controller of a removed group and of the root.
fn assert_deletes(rt: &impl Abort, hierarchy: &mut Hierarchy, group: Cgroup) {
    let cpu = group.cpu();
    assert!(rt; group.delete(hierarchy) == Ok(()));
    assert_refuses_all(rt, hierarchy, cpu, 20);
    let root = hierarchy.root_control_group().cpu();
    assert_refuses_all(rt, hierarchy, root, 26);
    assert!(rt; number_of(Cgroup::load(hierarchy, "a/b")) == 20);
}

fn assert_deletions(rt: &impl Abort, hierarchy: &mut Hierarchy) -> Result<(), Fault> {
    let group = Cgroup::load(hierarchy, "a/b")?;
    let above = Cgroup::load(hierarchy, "a")?;
    assert_keeps(rt, hierarchy, above);
    assert_deletes(rt, hierarchy, group);
    Ok(())
}

#[test]
fn deleted_groups(rt: HostRuntime) -> Result<(), Fail> {
    let mut hierarchy = two_groups(rt.alloc())?;
    assert_deletions(&rt, &mut hierarchy)?;
    Ok(())
}
