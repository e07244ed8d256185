//! The groups of a tree as an instance on a host.
ghost use Rattle.std.specs.Prelude.{◌≡◌, ◌<◌, length, nat_eq, slice_index_or, IfOk, IfErr};
ghost use Rattle.std.specs.Prelude.{◌≤◌, ℕ, None, IfSome, is_some, slice_set};
ghost use Rattle.std.specs.Option.{option_map};
ghost use Rattle.std.specs.List.{IsDistinct};
ghost use Rattle.std.specs.Vec.{vec_capacity};
ghost use Rattle.bw_model.specs.Groups.{IsInstance, row_of};
ghost use Rattle.bw_model.specs.OneRow.{with_row};
ghost use Rattle.bw_tree.specs.Groups.{GroupFields, IsSound};
ghost use Rattle.std.specs.Map.{keys_of};
ghost use Rattle.bw_tree.specs.Snapshot.{instance_of, rows_of, base_of, row_above};
ghost use Rattle.bw_tree.specs.Snapshot.{quota_slices as slices_of, period_limit as limit_of};
ghost use Rattle.bw_tree.specs.Kept.{demand_set, CanSetRow, IsKept, IsBehind};

use crate::carry::{period_limit, quota_slices};
use crate::fault::TreeFault;
use crate::group::{Group, GroupId};
use crate::group_map::{entry_at, place_of};
use crate::tree::Tree;
use bw_model::limits::MAX_GROUPS;
use bw_model::{HostShape, Instance, Row};
use std::alloc::AllocError;

/// Groups of a tree at one time, in order of creation.
#[derive(Debug, Drop)]
pub struct Snapshot {
    /// Instance on a host, with a row for each group.
    pub instance: Instance,
    /// Id of each group.
    pub ids: Vec<GroupId>,
    /// Quota of each group in whole slices of the host's period; `None` without a limit.
    pub quotas: Vec<Option<u64>>,
}

impl Snapshot {
    // Sets the demand in the row at a place.
    fn set_demand(&mut self, place: usize, demand: u64)
        requires { CanSetRow place demand self.old }
        ensures { self.new ≡ demand_set place demand self.old }
    {
        self.instance.set_demand(place as u32, demand);
    }

    // Gives the row at a place below the root its group's weight and limit, and its quota.
    fn renew(&mut self, place: usize, group: &Group, shape: HostShape)
        requires below_root { 0 < place }
        requires within { place < length self.old.instance.rows }
        requires few { length self.old.instance.rows ≤ MAX_GROUPS }
        requires quotas { length self.old.quotas.items ≡ length self.old.instance.rows }
        requires sound { IsSound group.now }
        ensures row { self.new.instance
            ≡ with_row self.old.instance place group.now.weight (limit_of shape group.now) }
        ensures quota { self.new.quotas.items
            ≡ slice_set self.old.quotas.items place (slices_of shape group.now) }
        ensures ids { self.new.ids ≡ self.old.ids }
    {
        let quota = quota_slices(group, shape);
        let limit = period_limit(shape, quota, group.period, group.burst, group.carry);
        self.quotas[place] = quota;
        self.instance.set_row(place as u32, group.weight, limit);
    }
}

// Sets the demand in the row at a place of the snapshot, if one is kept.
pub(crate) fn set_row_demand(kept: &mut Option<Snapshot>, place: usize, demand: u64)
    requires { IfSome kept.old (CanSetRow place demand) }
    ensures { kept.new ≡ option_map (demand_set place demand) kept.old }
{
    match kept {
        None => {}
        Some(snapshot) => snapshot.set_demand(place, demand),
    }
}

// Id, row and quota in slices of each group.
#[derive(Drop)]
struct Columns {
    ids: Vec<GroupId>,
    rows: Vec<Row>,
    quotas: Vec<Option<u64>>,
}

impl Tree {
    /// Gives the row of a group in a snapshot on `shape`, if one is kept, the group's settings.
    ///
    /// All other rows are in step already. Allocates nothing.
    pub fn renew_row(&self, id: GroupId, shape: HostShape, kept: &mut Option<Snapshot>)
        requires { IsBehind kept.old self.now shape id }
        ensures kept { IsKept kept.new self.now shape }
        ensures stays { is_some kept.new ≡ is_some kept.old }
    {
        match kept {
            None => {}
            Some(snapshot) => {
                let place = place_of(&self.groups, id).unwrap();
                let (_, group) = entry_at(&self.groups, place);
                snapshot.renew(place, group, shape);
            }
        }
    }

    /// Takes a snapshot of the groups on a host: rows, ids and quotas, in order of creation.
    ///
    /// The limit of a row is the quota plus the carry of the last period, at most quota plus burst.
    ///
    /// # Errors
    ///
    /// - [`TreeFault::OutOfMemory`] alone: the rows of a tree are always a valid instance.
    pub fn snapshot(&self, shape: HostShape) -> Result<Snapshot, TreeFault>
        ensures rows { IfOk result (λ s. s.instance ≡ instance_of self.now shape) }
        ensures valid { IsInstance (instance_of self.now shape) }
        ensures ids { IfOk result (λ s. s.ids.items ≡ keys_of self.now.groups) }
        ensures quotas { IfOk result (λ s. s.quotas.items ≡ base_of self.now.groups shape) }
        ensures count { IfOk result (λ s. (length s.ids.items ≡ length s.instance.rows)
            × (length s.quotas.items ≡ length s.instance.rows)) }
        ensures room { IfOk result (λ s. (vec_capacity s.ids ≡ length self.now.groups)
            × (vec_capacity s.quotas ≡ length self.now.groups)) }
        ensures distinct { IfOk result (λ s. IsDistinct nat_eq s.ids.items) }
        ensures err { IfErr result (λ e. e ≡ TreeFault.OutOfMemory) }
    {
        let alloc = *self.groups.allocator();
        // its contract says that the host is in range
        let _slice_us = shape.slice_us();
        let Columns { ids, rows, quotas } = self.columns(shape)?;
        let instance = Instance::of_valid(alloc, rows, shape)?;
        Ok(Snapshot {
            instance,
            ids,
            quotas,
        })
    }

    // Reads each group once.
    fn columns(&self, shape: HostShape) -> Result<Columns, AllocError>
        ensures ids { IfOk result (λ c. c.ids.items ≡ keys_of self.now.groups) }
        ensures rows { IfOk result (λ c. c.rows.items ≡ rows_of self.now.groups shape) }
        ensures quotas { IfOk result (λ c. c.quotas.items ≡ base_of self.now.groups shape) }
        ensures room { IfOk result (λ c. (vec_capacity c.ids ≡ length self.now.groups)
            × (vec_capacity c.rows ≡ length self.now.groups)
            × (vec_capacity c.quotas ≡ length self.now.groups)) }
    {
        let alloc = *self.groups.allocator();
        let count = self.groups.len();
        let mut ids = Vec::with_capacity(alloc, count)?;
        let mut rows = Vec::with_capacity(alloc, count)?;
        let mut quotas = Vec::with_capacity(alloc, count)?;
        for place in 0..count {
            let (quota, row) = self.row_at(place, shape);
            let (id, _) = entry_at(&self.groups, place);
            ids.push_reserved(id);
            rows.push_reserved(row);
            quotas.push_reserved(quota);
        }
        Ok(Columns { ids, rows, quotas })
    }

    // Quota of the group at a place in whole slices, and its row. Divides the quota once.
    #[inline(always)]
    fn row_at(&self, place: usize, shape: HostShape) -> (Option<u64>, Row)
        requires { place < length self.now.groups }
        ensures quota { result.0 ≡ slice_index_or (base_of self.now.groups shape) place None }
        ensures row { result.1 ≡ row_of (rows_of self.now.groups shape) place }
    {
        let (_, group) = entry_at(&self.groups, place);
        let quota = quota_slices(group, shape);
        let row = Row {
            parent: self.parent_row(place),
            weight: group.weight,
            limit: period_limit(shape, quota, group.period, group.burst, group.carry),
            demand: group.demand,
        };
        (quota, row)
    }

    // Number of the row of the parent of the group at a place, if it has one.
    pub(crate) fn parent_row(&self, place: usize) -> Option<u32>
        requires { place < length self.now.groups }
        ensures { (d : ℕ × GroupFields) → result
            ≡ row_above self.now.groups (slice_index_or self.now.groups place d).1.parent }
    {
        let (_, group) = entry_at(&self.groups, place);
        match group.parent {
            None => None,
            Some(_) => Some(self.nodes[place].above),
        }
    }
}
