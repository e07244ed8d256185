//! The groups of a tree by their rows, in order of creation.
ghost use Rattle.std.specs.Prelude.{◌≡◌, ◌<◌, Some, length, slice_index, IfSome};
ghost use Rattle.std.specs.Map.{keys_of};
ghost use Rattle.bw_tree.specs.Groups.{GroupFields, group_at, IsTree};
ghost use Rattle.bw_tree.specs.Snapshot.{row_above};

use crate::group::GroupId;
use crate::group_map::entry_at;
use crate::tree::Tree;

/// Group of a row: what its path is made of.
#[derive(Debug, Clone, Copy, Drop)]
pub struct Entry<'a> {
    /// Id of the group.
    pub id: GroupId,
    /// Row of its parent, lower than its own. The root alone has none.
    pub parent: Option<u32>,
    /// Name, 1 to 255 bytes; empty for the root.
    pub name: &'a str,
}

impl Tree {
    /// Number of groups, the root among them: 1 to 16384. Their rows are the numbers below it.
    pub fn group_count(&self) -> usize
        ensures { result ≡ length (keys_of self.now.groups) }
    {
        self.groups.len()
    }

    /// Group of a row, in order of creation. Allocates nothing.
    pub fn entry_of_row(&self, row: usize) -> Entry<'_>
        requires { row < length (keys_of self.now.groups) }
        ensures id { result.id ≡ slice_index (keys_of self.now.groups) row }
        ensures group { (group : GroupFields)
            × (group_at self.now.groups (slice_index (keys_of self.now.groups) row) ≡ Some group)
            × (result.parent ≡ row_above self.now.groups group.parent)
            × (result.name.now ≡ group.name) }
        ensures before { IfSome result.parent (λ p. p < row) }
        ensures valid { IsTree self.now }
    {
        let (id, group) = entry_at(&self.groups, row);
        Entry {
            id,
            parent: self.parent_row(row),
            name: group.name.as_str(),
        }
    }
}
