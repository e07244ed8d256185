//! Builder: makes a group with its settings in one call.
ghost use Rattle.std.specs.Prelude.{◌≡◌, OnOk, OnErr, IfOk, IfErr, Ok, Err, Some, None};
ghost use Rattle.bw_tree.specs.Groups.{find_path};
ghost use Rattle.bw_hierarchy.specs.Faults.{IsRefusal};
ghost use Rattle.bw_hierarchy.specs.Builder.{prefixes, found_or_made, ensured, shares_step};
ghost use Rattle.bw_hierarchy.specs.Builder.{cfs_step, built};
ghost use Rattle.bw_hierarchy.specs.State.{with_tree};

use crate::cgroup::Cgroup;
use crate::fault::Fault;
use crate::hierarchy::Hierarchy;
use crate::{by_path, settings};
use bw_tree::{GroupId, Tree, split_front};
use std::alloc::Global;

/// Builder of a group at a path. A setting that is `None` is not set.
#[derive(Clone, Copy, Debug)]
pub struct CgroupBuilder<'a> {
    /// Names from the root down, joined by `/`.
    pub path: &'a str,
    /// Weight, 1 to 10000.
    pub shares: Option<u64>,
    /// Quota in microseconds, 1000 to 10^15, or -1 for no limit.
    pub quota: Option<i64>,
    /// Length of its own period in microseconds, 1000 to 1000000.
    pub period: Option<u64>,
}

/// Processor settings of a builder.
#[derive(Clone, Copy, Debug)]
pub struct CpuResources<'a> {
    /// Builder with the settings so far.
    pub builder: CgroupBuilder<'a>,
}

impl<'a> CgroupBuilder<'a> {
    /// Makes a builder without settings.
    pub fn new(path: &'a str) -> CgroupBuilder<'a>
        ensures path { result.path.now ≡ path.now }
        ensures shares { result.shares ≡ None }
        ensures quota { result.quota ≡ None }
        ensures period { result.period ≡ None }
    {
        CgroupBuilder {
            path,
            shares: None,
            quota: None,
            period: None,
        }
    }

    /// Begins the processor settings.
    pub fn cpu(self) -> CpuResources<'a>
        ensures { result.builder ≡ self.entry }
    {
        CpuResources { builder: self }
    }

    /// Makes each missing group of the path from the top down, and then sets what is given.
    ///
    /// The shares are set first, then the quota and the period in one call.
    ///
    /// # Errors
    ///
    /// The first fault of one of these calls. The hierarchy is then unchanged.
    /// [`TreeFault::OutOfMemory`] can replace any other fault, because the tree is copied first.
    pub fn build(self, hierarchy: &mut Hierarchy) -> Result<Cgroup, Fault>
        ensures made { IfOk result
            (λ g. built hierarchy.old.tree self.entry.path.now self.entry.shares self.entry.quota
            self.entry.period ≡ Ok (g.id, hierarchy.new.tree)) }
        ensures rest { hierarchy.new ≡ with_tree hierarchy.old hierarchy.new.tree }
        ensures refused { IfErr result
            (IsRefusal (built hierarchy.old.tree self.entry.path.now self.entry.shares
            self.entry.quota self.entry.period)) }
        ensures err { OnErr result (hierarchy.new ≡ hierarchy.old) }
    {
        let id = hierarchy.build(self.path, self.shares, self.quota, self.period)?;
        Ok(Cgroup { id })
    }
}

impl<'a> CpuResources<'a> {
    /// Sets the weight, 1 to 10000.
    pub fn shares(self, shares: u64) -> CpuResources<'a>
        ensures { result.builder ≡ record self.entry.builder { shares = Some shares } }
    {
        CpuResources {
            builder: CgroupBuilder {
                shares: Some(shares),
                ..self.builder
            },
        }
    }

    /// Sets the quota in microseconds, 1000 to 10^15, or -1 for no limit.
    pub fn quota(self, quota: i64) -> CpuResources<'a>
        ensures { result.builder ≡ record self.entry.builder { quota = Some quota } }
    {
        CpuResources {
            builder: CgroupBuilder {
                quota: Some(quota),
                ..self.builder
            },
        }
    }

    /// Sets the length of its own period in microseconds, 1000 to 1000000.
    pub fn period(self, period: u64) -> CpuResources<'a>
        ensures { result.builder ≡ record self.entry.builder { period = Some period } }
    {
        CpuResources {
            builder: CgroupBuilder {
                period: Some(period),
                ..self.builder
            },
        }
    }

    /// Ends the processor settings.
    pub fn done(self) -> CgroupBuilder<'a>
        ensures { result ≡ self.entry.builder }
    {
        self.builder
    }
}

// Finds the group at a path, or makes it.
fn find_or_make(tree: &mut Tree, path: &str) -> Result<GroupId, Fault>
    ensures made { IfOk result (λ id.
        found_or_made tree.old path.now (find_path tree.old.groups path.now) ≡ Ok (id, tree.new)) }
    ensures refused { IfErr result
        (IsRefusal (found_or_made tree.old path.now (find_path tree.old.groups path.now))) }
{
    match tree.find(path) {
        Ok(id) => Ok(id),
        Err(_) => by_path::mkdir(tree, path),
    }
}

// Makes each missing group of a path from the top down, and returns the last one.
fn ensure(tree: &mut Tree, alloc: Global, path: &str) -> Result<GroupId, Fault>
    ensures made { IfOk result (λ id. ensured tree.old 0 (prefixes path.now) ≡ Ok (id, tree.new)) }
    ensures refused { IfErr result (IsRefusal (ensured tree.old 0 (prefixes path.now))) }
{
    let mut prefix = String::new(alloc);
    let mut rest = path;
    while let Some((name, back)) = split_front(rest) {
        prefix.push_str(name)?;
        let _id = find_or_make(tree, prefix.as_str())?;
        prefix.push_str("/")?;
        rest = back;
    }
    prefix.push_str(rest)?;
    find_or_make(tree, prefix.as_str())
}

// Sets the shares, if they are given.
fn set_shares(tree: &mut Tree, id: GroupId, shares: Option<u64>) -> Result<(), Fault>
    ensures set { OnOk result (shares_step tree.old id shares ≡ Ok tree.new) }
    ensures refused { IfErr result (λ e. shares_step tree.old id shares ≡ Err e) }
{
    match shares {
        None => Ok(()),
        Some(n) => settings::set_shares(tree, id, n),
    }
}

// Sets the quota and the period, if one is given.
fn set_cfs(
    tree: &mut Tree,
    id: GroupId,
    quota: Option<i64>,
    period: Option<u64>,
) -> Result<(), Fault>
    ensures set { OnOk result (cfs_step tree.old id quota period ≡ Ok tree.new) }
    ensures refused { IfErr result (λ e. cfs_step tree.old id quota period ≡ Err e) }
{
    match quota {
        None => match period {
            None => Ok(()),
            Some(n) => settings::set_cfs(tree, id, None, Some(n)),
        },
        Some(quota) => settings::set_cfs(tree, id, Some(quota), period),
    }
}

// Builds in a copy of the tree. After a refusal the copy may be half changed.
pub(crate) fn build_tree(
    tree: &mut Tree,
    alloc: Global,
    path: &str,
    shares: Option<u64>,
    quota: Option<i64>,
    period: Option<u64>,
) -> Result<GroupId, Fault>
    ensures made { IfOk result
        (λ id. built tree.old path.now shares quota period ≡ Ok (id, tree.new)) }
    ensures refused { IfErr result (IsRefusal (built tree.old path.now shares quota period)) }
{
    let id = ensure(tree, alloc, path)?;
    set_shares(tree, id, shares)?;
    set_cfs(tree, id, quota, period)?;
    Ok(id)
}
