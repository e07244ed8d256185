//! Handles of groups, and their processor settings.
ghost use Rattle.std.specs.Prelude.{◌≡◌, OnOk, OnErr, IfOk, IfErr, Ok, Err};
ghost use Rattle.bw_hierarchy.specs.Calls.{set_shares_of, set_cfs_of, value_at, int_of_quota};
ghost use Rattle.bw_hierarchy.specs.Calls.{found_at};
ghost use Rattle.bw_hierarchy.specs.State.{with_tree, delete_of};

use crate::fault::Fault;
use crate::hierarchy::Hierarchy;
use crate::{by_path, settings};
use bw_tree::GroupId;

/// Handle of a group of a hierarchy.
#[derive(Debug, PartialEq, Eq, Drop)]
pub struct Cgroup {
    /// Id of the group. The id of a removed group is never given again.
    pub id: GroupId,
}

/// Handle of a group that was not removed, and the fault.
#[derive(Debug, PartialEq, Eq, Drop)]
pub struct KeptCgroup {
    /// Fault of the removal.
    pub fault: Fault,
    /// Handle of the group.
    pub cgroup: Cgroup,
}

/// Processor settings of a group.
///
/// Each call first fails with [`TreeFault::NotFound`] if the group was removed, and then with
/// [`TreeFault::RootFixed`] for the root.
#[derive(Clone, Copy, Debug, PartialEq, Eq)]
pub struct CpuController {
    /// Id of the group.
    pub id: GroupId,
}

impl Cgroup {
    /// Finds the group at a path.
    ///
    /// # Errors
    ///
    /// - [`TreeFault::NotFound`] if there is no such group.
    pub fn load(hierarchy: &Hierarchy, path: &str) -> Result<Cgroup, Fault>
        ensures found { IfOk result (λ g. found_at hierarchy.now.tree path.now ≡ Ok g.id) }
        ensures refused { IfErr result (λ e. found_at hierarchy.now.tree path.now ≡ Err e) }
    {
        let id = by_path::find(&hierarchy.tree, path)?;
        Ok(Cgroup { id })
    }

    /// Processor settings of the group.
    pub fn cpu(&self) -> CpuController
        ensures { result.id ≡ self.now.id }
    {
        CpuController { id: self.id }
    }

    /// Removes the group and forgets its counters.
    ///
    /// # Errors
    ///
    /// The first that applies, with the handle:
    /// - [`TreeFault::NotFound`]
    /// - [`TreeFault::RootFixed`]
    /// - [`TreeFault::HasChildren`]
    /// - [`TreeFault::HasDemand`]
    pub fn delete(self, hierarchy: &mut Hierarchy) -> Result<(), KeptCgroup>
        ensures removed { OnOk result (delete_of hierarchy.old self.id ≡ Ok hierarchy.new) }
        ensures refused { IfErr result (λ k. delete_of hierarchy.old self.id ≡ Err k.fault) }
        ensures kept { IfErr result (λ k. k.cgroup ≡ self) }
        ensures err { OnErr result (hierarchy.new ≡ hierarchy.old) }
    {
        match hierarchy.delete(self.id) {
            Ok(()) => Ok(()),
            Err(fault) => Err(KeptCgroup {
                fault,
                cgroup: self,
            }),
        }
    }
}

impl CpuController {
    /// Weight, 1 to 10000.
    ///
    /// # Errors
    ///
    /// - [`TreeFault::NotFound`] if the group was removed.
    /// - [`TreeFault::RootFixed`] for the root.
    pub fn shares(&self, hierarchy: &Hierarchy) -> Result<u64, Fault>
        ensures { result ≡ value_at (λ g. g.weight) hierarchy.now.tree self.now.id }
    {
        settings::shares(&hierarchy.tree, self.id)
    }

    /// Sets the weight, 1 to 10000.
    ///
    /// # Errors
    ///
    /// The first that applies:
    /// - [`TreeFault::NotFound`] if the group was removed.
    /// - [`TreeFault::RootFixed`] for the root.
    /// - [`FileFault::WeightOutOfRange`]
    pub fn set_shares(&self, hierarchy: &mut Hierarchy, n: u64) -> Result<(), Fault>
        ensures set { OnOk result
            (set_shares_of hierarchy.old.tree self.now.id n ≡ Ok hierarchy.new.tree) }
        ensures rest { hierarchy.new ≡ with_tree hierarchy.old hierarchy.new.tree }
        ensures refused { IfErr result
            (λ e. set_shares_of hierarchy.old.tree self.now.id n ≡ Err e) }
        ensures err { OnErr result (hierarchy.new ≡ hierarchy.old) }
    {
        hierarchy.kept = None;
        settings::set_shares(&mut hierarchy.tree, self.id, n)
    }

    /// Quota in microseconds, 1000 to 10^15, or -1 for no limit (sched-bwc.rst, "Management").
    ///
    /// # Errors
    ///
    /// - [`TreeFault::NotFound`] if the group was removed.
    /// - [`TreeFault::RootFixed`] for the root.
    pub fn cfs_quota(&self, hierarchy: &Hierarchy) -> Result<i64, Fault>
        ensures { result ≡ value_at (λ g. int_of_quota g.quota) hierarchy.now.tree self.now.id }
    {
        settings::cfs_quota(&hierarchy.tree, self.id)
    }

    /// Length of its own period, 1000 to 1000000 microseconds (sched-bwc.rst, "Management").
    ///
    /// # Errors
    ///
    /// - [`TreeFault::NotFound`] if the group was removed.
    /// - [`TreeFault::RootFixed`] for the root.
    pub fn cfs_period(&self, hierarchy: &Hierarchy) -> Result<u64, Fault>
        ensures { result ≡ value_at (λ g. g.period) hierarchy.now.tree self.now.id }
    {
        settings::cfs_period(&hierarchy.tree, self.id)
    }

    /// Sets the quota, and the length of its own period, both in microseconds.
    ///
    /// The quota is 1000 to 10^15, or -1 for no limit. The period is 1000 to 1000000. A value that
    /// is left out stays.
    ///
    /// # Errors
    ///
    /// The first that applies:
    /// - [`TreeFault::NotFound`] if the group was removed.
    /// - [`TreeFault::RootFixed`] for the root.
    /// - [`FileFault::QuotaTooSmall`]
    /// - [`FileFault::QuotaTooLarge`]
    /// - [`FileFault::PeriodOutOfRange`]
    /// - [`Fault::BurstAboveQuota`]
    pub fn set_cfs_quota_and_period(
        &self,
        hierarchy: &mut Hierarchy,
        quota: Option<i64>,
        period: Option<u64>,
    ) -> Result<(), Fault>
        ensures set { OnOk result
            (set_cfs_of hierarchy.old.tree self.now.id quota period ≡ Ok hierarchy.new.tree) }
        ensures rest { hierarchy.new ≡ with_tree hierarchy.old hierarchy.new.tree }
        ensures refused { IfErr result
            (λ e. set_cfs_of hierarchy.old.tree self.now.id quota period ≡ Err e) }
        ensures err { OnErr result (hierarchy.new ≡ hierarchy.old) }
    {
        hierarchy.kept = None;
        settings::set_cfs(&mut hierarchy.tree, self.id, quota, period)
    }
}
