//! First refusal of each call on a tree, if any.
ghost use Rattle.std.specs.Prelude.{◌≡◌, is_some, position, nat_eq, Some};
ghost use Rattle.std.specs.Map.{keys_of};
ghost use Rattle.bw_tree.specs.Groups.{above, child_of, demand_at, has_children, IsTree};
ghost use Rattle.bw_tree.specs.Tree.{mkdir_refusal, demand_refusal, rmdir_refusal};

use crate::fault::TreeFault;
use crate::group::GroupId;
use crate::group_map::group_there;
use crate::names::is_name;
use crate::tree::Tree;
use bw_model::limits::{MAX_DEMAND, MAX_DEPTH, MAX_GROUPS};

impl Tree {
    // Refusal of a new group with this name below the parent, which stands at the place `above`.
    // `child` is the parent's child that has the name.
    pub(crate) fn mkdir_refusal(
        &self,
        parent: GroupId,
        above: usize,
        name: &str,
        child: Option<GroupId>,
    ) -> Option<TreeFault>
        requires place { position (nat_eq parent) (keys_of self.now.groups) ≡ Some above }
        requires child { child ≡ child_of self.now.groups parent name.now }
        ensures { result ≡ mkdir_refusal self.now parent name.now }
    {
        let group = group_there(&self.groups, parent, above);
        if !is_name(name) {
            return Some(TreeFault::BadName);
        }
        if group.demand > 0 {
            return Some(TreeFault::ParentHasDemand);
        }
        if child.is_some() {
            return Some(TreeFault::Exists);
        }
        if self.is_deepest(parent, above) {
            return Some(TreeFault::TooDeep);
        }
        if self.groups.len() >= MAX_GROUPS {
            return Some(TreeFault::TreeFull);
        }
        if self.next_id == u64::MAX {
            return Some(TreeFault::IdsSpent);
        }
        None
    }

    // Refusal of the removal of a group, which stands at this place.
    pub(crate) fn rmdir_refusal(&self, id: GroupId, place: usize) -> Option<TreeFault>
        requires { position (nat_eq id) (keys_of self.now.groups) ≡ Some place }
        ensures { result ≡ rmdir_refusal self.now id }
    {
        let group = group_there(&self.groups, id, place);
        if id == 0 {
            return Some(TreeFault::RootFixed);
        }
        if self.has_children_there(id, place) {
            return Some(TreeFault::HasChildren);
        }
        if group.demand > 0 {
            return Some(TreeFault::HasDemand);
        }
        None
    }

    // Refusal of a demand in slices of a group, which stands at this place.
    pub(crate) fn demand_refusal(&self, id: GroupId, place: usize, demand: u64) -> Option<TreeFault>
        requires { position (nat_eq id) (keys_of self.now.groups) ≡ Some place }
        ensures { result ≡ demand_refusal self.now id demand }
    {
        let group = group_there(&self.groups, id, place);
        if id == 0 {
            return Some(TreeFault::RootFixed);
        }
        if demand > MAX_DEMAND {
            return Some(TreeFault::DemandTooLarge);
        }
        if demand > 0 && self.is_inner(id, place, group.demand) {
            return Some(TreeFault::InnerDemand);
        }
        None
    }

    // Whether a group with this demand, which stands at this place, has children. One with a
    // demand has none: no look at its node.
    fn is_inner(&self, id: GroupId, place: usize, demand: u64) -> bool
        requires tree { IsTree self.now }
        requires place { position (nat_eq id) (keys_of self.now.groups) ≡ Some place }
        requires demand { demand ≡ demand_at self.now.groups id }
        ensures { result ≡ has_children self.now.groups id }
    {
        if demand > 0 {
            return false;
        }
        self.has_children_there(id, place)
    }

    // Whether the group that stands at this place is `MAX_DEPTH` groups below the root.
    fn is_deepest(&self, id: GroupId, place: usize) -> bool
        requires { position (nat_eq id) (keys_of self.now.groups) ≡ Some place }
        ensures { result ≡ is_some (above self.now.groups MAX_DEPTH id) }
    {
        u64::from(self.nodes[place].depth) >= MAX_DEPTH
    }
}
