//! Paths: the group that a path names, and the path of a group.
ghost use Rattle.std.specs.Prelude.{◌≡◌, ◌==◌, ◌≤◌, true, length, ◌++◌, IfOk, IfErr, IfSome, OnOk};
ghost use Rattle.std.specs.Prelude.{None, Some, ℕ, List};
ghost use Rattle.std.specs.String.{string_bytes};
ghost use Rattle.bw_tree.specs.Paths.{path_at, names_to};
ghost use Rattle.std.specs.List.{slice_split, join_with_byte};
ghost use Rattle.bw_tree.specs.Groups.{IsTree, has_group, find_path, walk};
ghost use Rattle.bw_tree.specs.Tails.{IsWay};
ghost use Rattle.bw_tree.specs.Tree.{IsRefused, path_refusal};

use crate::fault::TreeFault;
use crate::group::GroupId;
use crate::group_map::{group_there, place_of};
use crate::names::split_front;
use crate::path_hash::PathHash;
use crate::tree::Tree;
use bw_text::is_word;
use std::alloc::AllocError;

impl Tree {
    /// Finds the group at a path: by one hash of the whole path, then by a comparison of its names,
    /// several at once where they are short.
    /// Allocates nothing.
    ///
    /// A path is `.` for the root, and for others the names from the root down, joined by `/`.
    ///
    /// # Errors
    ///
    /// - [`TreeFault::NotFound`] if the text is the path of no group.
    pub fn find(&self, path: &str) -> Result<GroupId, TreeFault>
        ensures found { IfOk result (λ id. find_path self.now.groups path.now ≡ Some id) }
        ensures none { IfErr result
            (λ e. (find_path self.now.groups path.now ≡ None) × (e ≡ TreeFault.NotFound)) }
    {
        if is_word(path, ".") {
            return Ok(0);
        }
        if let Some(id) = self.keyed(path) {
            return Ok(id);
        }
        self.walk(path).ok_or(TreeFault::NotFound)
    }

    // First group of a path's key, if it has this path.
    fn keyed(&self, path: &str) -> Option<GroupId>
        ensures { IfSome result (λ id. find_path self.now.groups path.now ≡ Some id) }
    {
        let hash = PathHash::of_text(self.index.seed, path.as_bytes());
        let id = self.index.children.first(hash.number(self.index.seed))?;
        if !self.is_spelled(id, path.as_bytes()) {
            return None;
        }
        Some(id)
    }

    // Whether the names from the root down to a group, joined by `/`, are this text.
    fn is_spelled(&self, id: GroupId, text: &[u8]) -> bool
        ensures { result ≡ true → path_at self.now.groups id ≡ Some text.now }
    {
        let mut at = id;
        let mut left = text;
        while let Some((top, front)) = self.cut_end(at, left) {
            let Some((slash, above)) = front.split_last() else {
                return top == 0;
            };
            if *slash != b'/' {
                return false;
            }
            at = top;
            left = above;
        }
        false
    }

    // Group above the last names of a path, and the text before these names.
    fn cut_end<'a>(&self, id: GroupId, text: &'a [u8]) -> Option<(GroupId, &'a [u8])>
        ensures within { IfSome result (λ x. length x.1.now ≤ length text.now) }
        ensures cut { IfSome result (λ x. (way : List ℕ) × IsWay self.now.groups way x.0 id
            × (text.now ≡ x.1.now ++ way)) }
        ensures valid { IsTree self.now }
    {
        let (above, end) = self.end_of_path(id)?;
        let front = text.strip_suffix(end)?;
        Some((above, front))
    }

    // Last names of a group's path, joined by `/`, and the group above them: all names that its
    // tail has, or its own alone. The root has none.
    fn end_of_path(&self, id: GroupId) -> Option<(GroupId, &[u8])>
        ensures way { IfSome result (λ x. IsWay self.now.groups x.1.now x.0 id) }
        ensures valid { IsTree self.now }
    {
        let place = place_of(&self.groups, id)?;
        let tail = &self.nodes[place].tail;
        if tail.is_none() {
            let group = group_there(&self.groups, id, place);
            let parent = group.parent?;
            return Some((parent, group.name.as_str().as_bytes()));
        }
        Some((tail.top(), tail.text().as_bytes()))
    }

    /// Path of a group: the one text with which [`Tree::find`] finds it.
    ///
    /// # Errors
    ///
    /// The first that applies:
    /// - [`TreeFault::NotFound`] if there is no such group.
    /// - [`TreeFault::OutOfMemory`]
    pub fn path_of(&self, id: GroupId) -> Result<String, TreeFault>
        ensures path { IfOk result (λ path. path_at self.now.groups id ≡ Some (string_bytes path)) }
        ensures found { IfOk result
            (λ path. find_path self.now.groups (string_bytes path) ≡ Some id) }
        ensures refused { IfErr result (IsRefused (path_refusal self.now id)) }
    {
        if self.group(id).is_none() {
            return Err(TreeFault::NotFound);
        }
        let alloc = *self.groups.allocator();
        if id == 0 {
            return Ok(String::from_str(alloc, ".")?);
        }
        let mut path = String::new(alloc);
        self.push_path(&mut path, id)?;
        Ok(path)
    }

    // Appends the names from the root down to a group, joined by `/`.
    fn push_path(&self, path: &mut String, id: GroupId) -> Result<(), AllocError>
        requires { has_group self.now.groups id ≡ true }
        ensures { OnOk result (string_bytes path.new ≡ string_bytes path.old
            ++ join_with_byte 47 (names_to self.now.groups id)) }
    {
        let Some(group) = self.group(id) else {
            return Ok(());
        };
        let Some(parent) = group.parent else {
            return Ok(());
        };
        if parent != 0 {
            self.push_path(path, parent)?;
            path.push('/')?;
        }
        path.push_str(group.name.as_str())
    }

    // Group that the names of a path reach from the root. Few paths need it.
    #[inline(never)]
    fn walk(&self, path: &str) -> Option<GroupId>
        ensures { result ≡ walk self.now.groups 0 (slice_split (λ b. b == 47) path.now) }
    {
        let mut at = 0;
        let mut rest = path;
        while let Some((name, back)) = split_front(rest) {
            match self.child_of(at, name) {
                None => return None,
                Some(id) => at = id,
            }
            rest = back;
        }
        self.child_of(at, rest)
    }
}
