//! The groups of a tree by their ids, in order of creation.
ghost use Rattle.std.specs.Prelude.{◌≡◌, ◌<◌, ◌≤◌, ◌++◌, [], ◌∷◌, nat_eq, length, position};
ghost use Rattle.std.specs.Prelude.{slice_index_or, is_some, IfSome, OnOk, None, Some};
ghost use Rattle.std.specs.Option.{option_copied};
ghost use Rattle.std.specs.Map.{keys_of, remove_entry};
ghost use Rattle.indexmap.specs.IndexMap.{spare};
ghost use Rattle.bw_tree.specs.Groups.{group_at, has_group};

use crate::group::{Group, GroupId};
use crate::id_hash::IdHashes;
use bw_model::limits::MAX_GROUPS;
use indexmap::IndexMap;
use std::alloc::AllocError;

// Groups, each by its id, in order of creation. The ids rise.
pub(crate) type Groups = IndexMap<GroupId, Group, IdHashes>;

// Group with this id.
pub(crate) fn group_of(groups: &Groups, id: GroupId) -> Option<&Group>
    ensures { option_copied result ≡ group_at groups.now.entries id }
{
    groups.get(&id)
}

// Place of the group with this id.
pub(crate) fn place_of(groups: &Groups, id: GroupId) -> Option<usize>
    ensures place { result ≡ position (nat_eq id) (keys_of groups.now.entries) }
    ensures within { IfSome result (λ place. place < length groups.now.entries) }
    ensures found { is_some result ≡ has_group groups.now.entries id }
{
    groups.get_index_of(&id)
}

// Group with this id, which stands at this place.
pub(crate) fn group_there(groups: &Groups, id: GroupId, place: usize) -> &Group
    requires { position (nat_eq id) (keys_of groups.now.entries) ≡ Some place }
    ensures { group_at groups.now.entries id ≡ Some result.now }
{
    &groups[place]
}

// Id of the group at a place, and the group.
pub(crate) fn entry_at(groups: &Groups, place: usize) -> (GroupId, &Group)
    requires { place < length groups.now.entries }
    ensures { (result.0, result.1.now)
        ≡ slice_index_or groups.now.entries place (result.0, result.1.now) }
{
    let (id, group) = groups.get_index(place).unwrap();
    (*id, group)
}

// Makes room for one more group. A full map gets room for four times as many, so it seldom moves
// its groups.
#[inline(always)]
pub(crate) fn leave_place(groups: &mut Groups) -> Result<(), AllocError>
    requires { length groups.old.entries ≤ MAX_GROUPS }
    ensures entries { groups.new.entries ≡ groups.old.entries }
    ensures room { OnOk result (0 < spare groups.new) }
{
    if groups.len() < groups.capacity() {
        return Ok(());
    }
    groups.reserve(3 * groups.len().max(1))
}

// Appends a group with an id that none has. The caller has reserved room for it.
pub(crate) fn push_group(groups: &mut Groups, id: GroupId, group: Group)
    requires room { 0 < spare groups.old }
    requires free { group_at groups.old.entries id ≡ None }
    ensures { groups.new.entries ≡ groups.old.entries ++ (id, group) ∷ [] }
{
    let _none = groups.insert(id, group).unwrap();
}

// Removes the group with this id. The others keep their order.
pub(crate) fn take_group(groups: &mut Groups, id: GroupId)
    ensures { groups.new.entries ≡ remove_entry (nat_eq id) groups.old.entries }
{
    let _removed = groups.shift_remove(&id);
}
