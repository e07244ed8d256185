//! Hierarchy: a host with its tree of groups and their counters.
ghost use Rattle.std.specs.Prelude.{◌≡◌, ◌≤◌, [], length, nat_eq, OnOk, OnErr, IfOk, IfErr, Ok};
ghost use Rattle.std.specs.Prelude.{Err, string_bytes};
ghost use Rattle.std.specs.Str.{IsUtf8};
ghost use Rattle.std.specs.Vec.{vec_capacity};
ghost use Rattle.std.specs.List.{IsDistinct};
ghost use Rattle.bw_model.specs.Groups.{IsInstance};
ghost use Rattle.bw_tree.specs.Snapshot.{instance_of, base_of, IsDrawnWithin};
ghost use Rattle.bw_tree.specs.Kept.{IsSnapshotOf};
ghost use Rattle.std.specs.Map.{keys_of};
ghost use Rattle.bw_hierarchy.specs.Faults.{IsRefusal, IsMemoryLast};
ghost use Rattle.bw_hierarchy.specs.Calls.{mkdir_of};
ghost use Rattle.bw_hierarchy.specs.Files.{read_of, write_of};
ghost use Rattle.bw_hierarchy.specs.Builder.{built};
ghost use Rattle.bw_hierarchy.specs.State.{with_tree, booked_period, new_hierarchy, rmdir_of};
ghost use Rattle.bw_hierarchy.specs.State.{delete_of, demand_set_of};

use crate::builder::build_tree;
use crate::cgroup::Cgroup;
use crate::fault::Fault;
use crate::{by_path, files};
use bw_demand::Gathered;
use bw_model::HostShape;
use bw_stat::Books;
use bw_tree::{GroupId, Snapshot, Tree, TreeFault};
use std::alloc::Global;
use std::hash::RandomState;
use std::marker::Model;

/// Host, its tree of groups, and their counters.
#[derive(Debug, Drop)]
pub struct Hierarchy {
    alloc: Global,
    shape: HostShape,
    pub(crate) tree: Tree,
    books: Books,
    // snapshot of the tree as it is, for the next question; no answer depends on it
    pub(crate) kept: Option<Snapshot>,
}

impl Model for Hierarchy {
    ghost use Rattle.bw_hierarchy.specs.State.{HierarchyState};
    ghost use Rattle.bw_tree.specs.Kept.{IsKept};

    ghost Value = { HierarchyState };

    ghost view = { λ h. record { shape = h.shape; tree = h.tree; books = h.books } };

    ghost invariant = { λ h. IsKept h.kept h.tree h.shape };
}

impl Hierarchy {
    /// Makes a hierarchy of the root alone, without counters. `keys` are as those of [`Tree::new`].
    ///
    /// # Errors
    ///
    /// - [`TreeFault::OutOfMemory`]
    pub fn new(alloc: Global, keys: RandomState, shape: HostShape) -> Result<Hierarchy, Fault>
        ensures made { IfOk result (λ h. h ≡ new_hierarchy shape) }
        ensures err { IfErr result (λ e. e ≡ Fault.Tree TreeFault.OutOfMemory) }
    {
        let tree = Tree::new(alloc, keys)?;
        Ok(Hierarchy {
            alloc,
            shape,
            tree,
            books: Books::new(alloc),
            kept: None,
        })
    }

    /// Host of the hierarchy.
    pub fn shape(&self) -> HostShape
        ensures { result ≡ self.now.shape }
    {
        self.shape
    }

    /// Tree of groups.
    pub fn tree(&self) -> &Tree
        ensures { result.now ≡ self.now.tree }
    {
        &self.tree
    }

    /// Counters of the groups that were booked and not removed since (cgroup-v2.rst, "CPU
    /// Interface Files").
    pub fn books(&self) -> &Books
        ensures { result.now ≡ self.now.books }
    {
        &self.books
    }

    /// Counts one period for each group, and stores each group's carry.
    ///
    /// `snapshot` is the present snapshot. `gathered` has the wants and `drawn` the draws of its
    /// rows, in slices (sched-bwc.rst, "Statistics"). It is kept, with the limits of the next
    /// period.
    ///
    /// # Errors
    ///
    /// - [`TreeFault::OutOfMemory`]
    pub fn book(
        &mut self,
        mut snapshot: Snapshot,
        gathered: &Gathered,
        drawn: &[u64],
    ) -> Result<(), Fault>
        requires snapshot { IsSnapshotOf snapshot self.old.tree self.old.shape }
        requires wants { length gathered.now.want.items ≡ length snapshot.instance.rows }
        requires drawn { length drawn.now ≡ length snapshot.instance.rows }
        requires within { IsDrawnWithin snapshot.instance.rows drawn.now }
        ensures booked { OnOk result
            (self.new ≡ booked_period self.old snapshot.instance.rows snapshot.quotas.items
            gathered.now.want.items drawn.now) }
        ensures err { IfErr result (λ e. e ≡ Fault.Tree TreeFault.OutOfMemory) }
        ensures kept { OnErr result (self.new ≡ self.old) }
    {
        let instance = &snapshot.instance;
        self.books
            .book(instance, &snapshot.ids, &snapshot.quotas, gathered, drawn)?;
        self.tree.carry_over(&mut snapshot, self.shape, drawn);
        self.kept = Some(snapshot);
        Ok(())
    }

    /// Handle of the root, whose settings are fixed.
    pub fn root_control_group(&self) -> Cgroup
        ensures { result.id ≡ 0 }
    {
        Cgroup { id: 0 }
    }

    /// Takes a snapshot: rows, ids and quotas in slices of all groups, in order of creation.
    ///
    /// # Errors
    ///
    /// - [`TreeFault::OutOfMemory`]
    pub fn snapshot(&self) -> Result<Snapshot, Fault>
        ensures rows { IfOk result (λ s. s.instance ≡ instance_of self.now.tree self.now.shape) }
        ensures valid { IsInstance (instance_of self.now.tree self.now.shape) }
        ensures ids { IfOk result (λ s. s.ids.items ≡ keys_of self.now.tree.groups) }
        ensures quotas { IfOk result
            (λ s. s.quotas.items ≡ base_of self.now.tree.groups self.now.shape) }
        ensures count { IfOk result
            (λ s. (length s.ids.items ≡ length s.instance.rows)
            × (length s.quotas.items ≡ length s.instance.rows)) }
        ensures distinct { IfOk result (λ s. IsDistinct nat_eq s.ids.items) }
        ensures err { IfErr result (λ e. e ≡ Fault.Tree TreeFault.OutOfMemory) }
    {
        Ok(self.tree.snapshot(self.shape)?)
    }

    /// Hands out the present snapshot: the one that was kept, or else a new one.
    ///
    /// # Errors
    ///
    /// - [`TreeFault::OutOfMemory`]
    pub fn take_snapshot(&mut self) -> Result<Snapshot, Fault>
        ensures same { self.new ≡ self.old }
        ensures taken { IfOk result (λ s. IsSnapshotOf s self.old.tree self.old.shape) }
        ensures err { IfErr result (λ e. e ≡ Fault.Tree TreeFault.OutOfMemory) }
    {
        match self.kept.take() {
            None => self.snapshot(),
            Some(snapshot) => Ok(snapshot),
        }
    }

    /// Keeps the present snapshot for the next [`Hierarchy::take_snapshot`].
    pub fn keep(&mut self, snapshot: Snapshot)
        requires { IsSnapshotOf snapshot self.old.tree self.old.shape }
        ensures { self.new ≡ self.old }
    {
        self.kept = Some(snapshot);
    }

    /// Makes a group, and returns its id.
    ///
    /// The path splits at its last `/` into the parent's path and the name. The parent is the root
    /// if the path has no `/`.
    ///
    /// # Errors
    ///
    /// The first that applies of those of [`Tree::mkdir`], in its order.
    pub fn mkdir(&mut self, path: &str) -> Result<GroupId, Fault>
        ensures made { IfOk result
            (λ id. mkdir_of self.old.tree path.now ≡ Ok (id, self.new.tree)) }
        ensures rest { self.new ≡ with_tree self.old self.new.tree }
        ensures refused { IfErr result (IsRefusal (mkdir_of self.old.tree path.now)) }
        ensures memory { IfErr result (IsMemoryLast (mkdir_of self.old.tree path.now)) }
        ensures err { OnErr result (self.new ≡ self.old) }
    {
        // most lines find none, and an assignment drops it all the same
        if self.kept.is_some() {
            self.kept = None;
        }
        by_path::mkdir(&mut self.tree, path)
    }

    /// Removes a group and forgets its counters.
    ///
    /// # Errors
    ///
    /// The first that applies:
    /// - [`TreeFault::NotFound`]
    /// - [`TreeFault::RootFixed`]
    /// - [`TreeFault::HasChildren`]
    /// - [`TreeFault::HasDemand`]
    pub fn rmdir(&mut self, path: &str) -> Result<(), Fault>
        ensures removed { OnOk result (rmdir_of self.old path.now ≡ Ok self.new) }
        ensures refused { IfErr result (λ e. rmdir_of self.old path.now ≡ Err e) }
        ensures err { OnErr result (self.new ≡ self.old) }
    {
        let id = by_path::find(&self.tree, path)?;
        self.delete(id)
    }

    // Removes a group by its id.
    pub(crate) fn delete(&mut self, id: GroupId) -> Result<(), Fault>
        ensures removed { OnOk result (delete_of self.old id ≡ Ok self.new) }
        ensures refused { IfErr result (λ e. delete_of self.old id ≡ Err e) }
        ensures err { OnErr result (self.new ≡ self.old) }
    {
        self.kept = None;
        self.tree.rmdir(id)?;
        self.books.forget(id);
        Ok(())
    }

    /// Sets a group's demand, 0 to 1000000 slices in each period.
    ///
    /// # Errors
    ///
    /// The first that applies:
    /// - [`TreeFault::NotFound`]
    /// - [`TreeFault::RootFixed`]
    /// - [`TreeFault::DemandTooLarge`]
    /// - [`TreeFault::InnerDemand`]
    pub fn set_demand(&mut self, path: &str, demand: u64) -> Result<(), Fault>
        ensures set { OnOk result (demand_set_of self.old path.now demand ≡ Ok self.new) }
        ensures refused { IfErr result (λ e. demand_set_of self.old path.now demand ≡ Err e) }
        ensures err { OnErr result (self.new ≡ self.old) }
    {
        let id = by_path::find(&self.tree, path)?;
        self.tree
            .set_demand_in_step(id, demand, self.shape, &mut self.kept)?;
        Ok(())
    }

    /// Reads a group's file (cgroup-v2.rst, "CPU Interface Files").
    ///
    /// The files are `cpu.weight`, `cpu.max`, `cpu.max.burst` and `cpu.stat`. The counters in
    /// `cpu.stat` are 0 before the first period. The root has `cpu.stat` alone, and in it its
    /// usage.
    ///
    /// # Errors
    ///
    /// The first that applies:
    /// - [`TreeFault::NotFound`]
    /// - [`Fault::NoSuchFile`]
    /// - [`TreeFault::OutOfMemory`]
    pub fn read_file(&self, path: &str, file: &str) -> Result<String, Fault>
        ensures found { IfOk result
            (λ t. read_of self.now path.now file.now ≡ Ok (string_bytes t)) }
        ensures refused { IfErr result (IsRefusal (read_of self.now path.now file.now)) }
        ensures memory { IfErr result (IsMemoryLast (read_of self.now path.now file.now)) }
    {
        let mut text = Vec::new(self.alloc);
        self.read_file_into(path, file, &mut text)?;
        match String::from_utf8(text) {
            Ok(text) => Ok(text),
            Err(_) => unreachable!(),
        }
    }

    /// Reads a group's file into an empty text, as [`Hierarchy::read_file`] does.
    ///
    /// # Errors
    ///
    /// Those of [`Hierarchy::read_file`], in its order. The text may then have a part.
    pub fn read_file_into(&self, path: &str, file: &str, text: &mut Vec<u8>) -> Result<(), Fault>
        requires { text.old.items ≡ [] }
        ensures found { OnOk result (read_of self.now path.now file.now ≡ Ok text.new.items) }
        ensures utf8 { OnOk result (IsUtf8 text.new.items) }
        ensures refused { IfErr result (IsRefusal (read_of self.now path.now file.now)) }
        ensures memory { IfErr result (IsMemoryLast (read_of self.now path.now file.now)) }
        ensures room { vec_capacity text.old ≤ vec_capacity text.new }
    {
        files::read_into(self.shape, &self.tree, &self.books, path, file, text)
    }

    /// Writes a text into a group's file, which changes the one value that the file names.
    ///
    /// # Errors
    ///
    /// The first that applies:
    /// - [`TreeFault::NotFound`]
    /// - [`Fault::NoSuchFile`]
    /// - [`Fault::ReadOnly`] for `cpu.stat`.
    /// - the faults of the text, in the order of bw_files.
    /// - [`Fault::BurstAboveQuota`]
    pub fn write_file(&mut self, path: &str, file: &str, text: &[u8]) -> Result<(), Fault>
        ensures set { OnOk result
            (write_of self.old.tree path.now file.now text.now ≡ Ok self.new.tree) }
        ensures rest { self.new ≡ with_tree self.old self.new.tree }
        ensures refused { IfErr result
            (λ e. write_of self.old.tree path.now file.now text.now ≡ Err e) }
        ensures err { OnErr result (self.new ≡ self.old) }
    {
        let id = files::write(&mut self.tree, path, file, text)?;
        self.tree.renew_row(id, self.shape, &mut self.kept);
        Ok(())
    }

    // Does all of a builder's calls, or none. Copies the tree before any test, so `OutOfMemory` can
    // replace any other fault.
    pub(crate) fn build(
        &mut self,
        path: &str,
        shares: Option<u64>,
        quota: Option<i64>,
        period: Option<u64>,
    ) -> Result<GroupId, Fault>
        ensures made { IfOk result
            (λ id. built self.old.tree path.now shares quota period ≡ Ok (id, self.new.tree)) }
        ensures rest { self.new ≡ with_tree self.old self.new.tree }
        ensures refused { IfErr result
            (IsRefusal (built self.old.tree path.now shares quota period)) }
        ensures err { OnErr result (self.new ≡ self.old) }
    {
        let mut tree = self.tree.copy()?;
        let id = build_tree(&mut tree, self.alloc, path, shares, quota, period)?;
        self.kept = None;
        self.tree = tree;
        Ok(id)
    }
}
