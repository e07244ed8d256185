//! Trees of groups by ids, which no script line names, against worked values. Assertions stand in
//! functions that borrow a tree. A test owns it, and would have to drop it at each assertion.
use bw_hierarchy::keys_of;
use bw_model::{HostShape, Quota};
use bw_tree::{GroupId, Snapshot, Tree, TreeFault, is_drawn_within};
use std::alloc::Global;
use std::hash::BuildHasher;
use std::process::Abort;
use std::test::Fail;

// Makes a group. A call that runs out of memory has changed nothing, and is repeated.
fn make(tree: &mut Tree, parent: GroupId, name: &str) -> Result<GroupId, TreeFault> {
    match tree.mkdir(parent, name) {
        Err(TreeFault::OutOfMemory) => tree.mkdir(parent, name),
        answer => answer,
    }
}

fn assert_makes(
    rt: &impl Abort,
    tree: &mut Tree,
    parent: GroupId,
    name: &str,
    wanted: Result<GroupId, TreeFault>,
) {
    assert!(rt; make(tree, parent, name) == wanted, "{name}");
}

fn assert_has_no(rt: &impl Abort, tree: &Tree, path: &str) {
    assert!(rt; tree.find(path) == Err(TreeFault::NotFound), "{path}");
}

// Parents and names of `a` (id 1) and `a/b` (id 2).
static TWO_GROUPS: [(GroupId, &str); 2] = [(0, "a"), (1, "b")];

// Makes `a` and `a/b`, and gives `a/b` a demand of 20.
fn put_groups(tree: &mut Tree) -> Result<(), TreeFault> {
    for (parent, name) in &TWO_GROUPS {
        make(tree, *parent, name)?;
    }
    tree.set_demand(2, 20)
}

// A tree of `a` and `a/b`.
fn small_tree(alloc: Global) -> Result<Tree, Fail> {
    let keys = keys_of(0)?;
    let mut tree = match Tree::new(alloc, keys) {
        Err(_) => Tree::new(alloc, keys)?,
        Ok(tree) => tree,
    };
    put_groups(&mut tree)?;
    Ok(tree)
}

#[test]
fn ids_that_are_spent(rt: HostRuntime) -> Result<(), Fail> {
    let keys = keys_of(0)?;
    let mut last = match Tree::with_next_id(rt.alloc(), keys, u64::MAX) {
        Err(_) => Tree::with_next_id(rt.alloc(), keys, u64::MAX)?,
        Ok(tree) => tree,
    };
    assert_makes(&rt, &mut last, 0, "a", Err(TreeFault::IdsSpent));
    Ok(())
}

#[test]
fn number_of_spent_ids(rt: HostRuntime) {
    assert!(rt; TreeFault::IdsSpent.number() == 28);
    assert!(rt; TreeFault::IdsSpent.name() == "IdsSpent");
}

// A static table costs no proof. Each entry of a local table is a step of the proof.
static BAD_NAMES: [&str; 4] = ["", "x/y", "x\ny", "x\0y"];

fn assert_refuses_names(rt: &impl Abort, tree: &mut Tree) {
    for name in &BAD_NAMES {
        assert_makes(rt, tree, 0, name, Err(TreeFault::BadName));
    }
    assert_makes(rt, tree, 9, "", Err(TreeFault::NotFound));
    assert_has_no(rt, tree, "");
    assert!(rt; tree.path_of(9) == Err(TreeFault::NotFound));
    assert!(rt; tree.group(9).is_none());
}

// Names and texts that no word of a script can be.
#[test]
fn names_that_no_word_is(rt: HostRuntime) -> Result<(), Fail> {
    let mut tree = small_tree(rt.alloc())?;
    assert_refuses_names(&rt, &mut tree);
    Ok(())
}

// Asserts that each setting of this group is refused.
fn assert_refuses_settings(rt: &impl Abort, tree: &mut Tree, id: GroupId, fault: TreeFault) {
    assert!(rt; tree.set_weight(id, 1) == Err(fault));
    assert!(rt; tree.set_limit(id, Quota::Max) == Err(fault));
    assert!(rt; tree.set_period(id, 1_000) == Err(fault));
    assert!(rt; tree.set_burst(id, 1) == Err(fault));
}

#[test]
fn refused_settings(rt: HostRuntime) -> Result<(), Fail> {
    let mut tree = small_tree(rt.alloc())?;
    assert_refuses_settings(&rt, &mut tree, 0, TreeFault::RootFixed);
    assert_refuses_settings(&rt, &mut tree, 9, TreeFault::NotFound);
    Ok(())
}

// A group made in the copy is not in the first tree. Both trees give the same next id.
fn assert_apart(rt: &impl Abort, tree: &mut Tree, copy: &mut Tree) {
    assert_makes(rt, copy, 1, "c", Ok(3));
    assert_has_no(rt, tree, "a/c");
    assert_makes(rt, tree, 0, "d", Ok(3));
    assert_has_no(rt, copy, "d");
}

#[test]
fn change_of_a_copy(rt: HostRuntime) -> Result<(), Fail> {
    let mut tree = small_tree(rt.alloc())?;
    let mut copy = match tree.copy() {
        Err(_) => tree.copy()?,
        Ok(copy) => copy,
    };
    assert_apart(&rt, &mut tree, &mut copy);
    Ok(())
}

// The id of a removed group is not given again. Its name is free.
fn assert_gone(rt: &impl Abort, tree: &mut Tree) {
    assert!(rt; tree.set_demand(2, 0) == Ok(()));
    assert!(rt; tree.rmdir(2) == Ok(()));
    assert_has_no(rt, tree, "a/b");
    assert_makes(rt, tree, 1, "b", Ok(3));
}

#[test]
fn ids_that_are_gone(rt: HostRuntime) -> Result<(), Fail> {
    let mut tree = small_tree(rt.alloc())?;
    assert_gone(&rt, &mut tree);
    Ok(())
}

static QUOTAS: [Option<u64>; 3] = [None, Some(10), None];

static WITHIN: [u64; 3] = [99, 10, 99];

static NOT_WITHIN: [u64; 3] = [0, 11, 0];

fn assert_draws_ten(rt: &impl Abort, snapshot: &Snapshot) {
    assert!(rt; snapshot.quotas.as_slice() == QUOTAS.as_slice());
    let rows = snapshot.instance.rows();
    assert!(rt; rows.len() == 3);
    assert!(rt; is_drawn_within(rows, &WITHIN));
    assert!(rt; !is_drawn_within(rows, &NOT_WITHIN));
}

fn assert_within(rt: &impl Abort, tree: &mut Tree, shape: HostShape) -> Result<(), TreeFault> {
    assert!(rt; tree.set_limit(1, Quota::Micros(50_000)) == Ok(()));
    let snapshot = match tree.snapshot(shape) {
        Err(_) => tree.snapshot(shape)?,
        Ok(snapshot) => snapshot,
    };
    assert_draws_ten(rt, &snapshot);
    Ok(())
}

// A group with ten slices of quota draws at most ten.
#[test]
fn slices_within_limits(rt: HostRuntime) -> Result<(), Fail> {
    let shape = HostShape::new(1, 100_000, 5_000)?;
    let mut tree = small_tree(rt.alloc())?;
    assert_within(&rt, &mut tree, shape)?;
    Ok(())
}

fn assert_finds(rt: &impl Abort, tree: &Tree, path: &str, id: GroupId) {
    assert!(rt; tree.find(path) == Ok(id), "{path}");
}

// Makes two groups of one key, and removes and makes the second once more. Then the first goes.
fn assert_shared_key(rt: &impl Abort, tree: &mut Tree) {
    assert_makes(rt, tree, 0, "p", Ok(1));
    assert_makes(rt, tree, 0, "aurlsb", Ok(2));
    assert_makes(rt, tree, 1, "qsvcr", Ok(3));
    assert_finds(rt, tree, "aurlsb", 2);
    assert_finds(rt, tree, "p/qsvcr", 3);
    assert_makes(rt, tree, 1, "qsvcr", Err(TreeFault::Exists));
    assert!(rt; tree.rmdir(3) == Ok(()));
    assert_has_no(rt, tree, "p/qsvcr");
    assert_finds(rt, tree, "aurlsb", 2);
    assert_makes(rt, tree, 1, "qsvcr", Ok(4));
    assert!(rt; tree.rmdir(2) == Ok(()));
    assert_has_no(rt, tree, "aurlsb");
    assert_finds(rt, tree, "p/qsvcr", 4);
}

// Names of 24 bytes, which a group stores in itself, and of 25 bytes.
static NAMES: [(&str, GroupId); 2] = [
    ("name-of-twenty-four-byte", 3),
    ("name-of-twenty-five-bytes", 4),
];

fn assert_named(rt: &impl Abort, tree: &Tree) {
    for (name, id) in &NAMES {
        assert_finds(rt, tree, name, *id);
        match tree.group(*id) {
            Some(group) => assert!(rt; group.name.as_str() == *name),
            None => assert!(rt; false),
        }
    }
}

fn assert_makes_names(rt: &impl Abort, tree: &mut Tree) {
    for (name, id) in &NAMES {
        assert_makes(rt, tree, 0, name, Ok(*id));
    }
    assert_named(rt, tree);
}

#[test]
fn names_in_place_and_longer(rt: HostRuntime) -> Result<(), Fail> {
    let mut tree = small_tree(rt.alloc())?;
    assert_makes_names(&rt, &mut tree);
    let copy = match tree.copy() {
        Err(_) => tree.copy()?,
        Ok(copy) => copy,
    };
    assert_named(&rt, &copy);
    Ok(())
}

// Parent, name, id and path of each group of a chain below `a`. The end of a path that is kept
// beside its group has at most 24 bytes. The first path has as many, and the third name has 25.
static CHAIN: [(GroupId, &str, GroupId, &str); 5] = [
    (1, "name-of-22-bytes-12345", 3, "a/name-of-22-bytes-12345"),
    (3, "x", 4, "a/name-of-22-bytes-12345/x"),
    (
        4,
        "name-of-twenty-five-bytes",
        5,
        "a/name-of-22-bytes-12345/x/name-of-twenty-five-bytes",
    ),
    (
        5,
        "y",
        6,
        "a/name-of-22-bytes-12345/x/name-of-twenty-five-bytes/y",
    ),
    (
        6,
        "z",
        7,
        "a/name-of-22-bytes-12345/x/name-of-twenty-five-bytes/y/z",
    ),
];

fn assert_makes_chain(rt: &impl Abort, tree: &mut Tree) {
    for (parent, name, id, _) in &CHAIN {
        assert_makes(rt, tree, *parent, name, Ok(*id));
    }
    assert_finds_chain(rt, tree);
}

fn assert_finds_chain(rt: &impl Abort, tree: &Tree) {
    for (_, _, id, path) in &CHAIN {
        assert_finds(rt, tree, path, *id);
    }
}

#[test]
fn chain_of_long_names(rt: HostRuntime) -> Result<(), Fail> {
    let mut tree = small_tree(rt.alloc())?;
    assert_makes_chain(&rt, &mut tree);
    let copy = match tree.copy() {
        Err(_) => tree.copy()?,
        Ok(copy) => copy,
    };
    assert_finds_chain(&rt, &copy);
    Ok(())
}

// Two paths whose keys are one at the point that the fixed keys give (tests/meeting_names.py): the
// second group stands among the others of the key.
#[test]
fn names_that_share_a_key(rt: HostRuntime) -> Result<(), Fail> {
    let keys = keys_of(0)?;
    assert!(rt; keys.hash_one("") % 4_294_967_291 == 352_806_701);
    let mut tree = match Tree::new(rt.alloc(), keys) {
        Err(_) => Tree::new(rt.alloc(), keys)?,
        Ok(tree) => tree,
    };
    assert_shared_key(&rt, &mut tree);
    Ok(())
}
