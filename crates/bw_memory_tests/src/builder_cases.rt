//! The builder, which copies the tree before it changes it.
use bw_hierarchy::{CgroupBuilder, Fault, Hierarchy, keys_of};
use bw_model::HostShape;
use bw_tree::TreeFault;
use std::alloc::Global;
use std::process::Abort;
use std::test::Fail;

fn new_hierarchy(alloc: Global) -> Result<Hierarchy, Fail> {
    let shape = HostShape::new(1, 100_000, 5_000)?;
    let keys = keys_of(0)?;
    match Hierarchy::new(alloc, keys, shape) {
        Err(_) => Ok(Hierarchy::new(alloc, keys, shape)?),
        Ok(hierarchy) => Ok(hierarchy),
    }
}

// Makes the group `p/q`, and returns its id. A build that runs out of memory leaves no group.
fn build_once(rt: &impl Abort, hierarchy: &mut Hierarchy) -> Result<u64, Fault> {
    let builder = CgroupBuilder::new("p/q").cpu().shares(300).done();
    let built = builder.build(hierarchy);
    if let Err(fault) = built {
        assert!(rt; fault == Fault::Tree(TreeFault::OutOfMemory));
        assert!(rt; hierarchy.tree().find("p") == Err(TreeFault::NotFound));
        assert!(rt; hierarchy.tree().group(1).is_none());
    }
    built.map(|group| group.id)
}

#[test]
fn build(rt: HostRuntime) -> Result<(), Fail> {
    let mut hierarchy = new_hierarchy(rt.alloc())?;
    let mut built = build_once(&rt, &mut hierarchy);
    if built.is_err() {
        built = build_once(&rt, &mut hierarchy);
    }
    assert!(rt; built == Ok(2));
    assert!(rt; hierarchy.tree().find("p/q") == Ok(2));
    Ok(())
}
