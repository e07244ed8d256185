//! End of the way from the root down to a group.
ghost use Rattle.std.specs.Prelude.{◌≡◌, ◌<◌, ◌==◌, ℕ, List, [], length, Some};
ghost use Rattle.bw_tree.specs.Groups.{GroupFields, child_of};
ghost use Rattle.bw_tree.specs.Tails.{IsTailOf};

use crate::group::GroupId;
use arrayvec::ArrayString;

// Maximum length of a tail in bytes: with it a node takes 64.
const MAX_TAIL: usize = 24;

// End of the way from the root down to a group. So a path is compared by several names at once.
#[derive(Clone, Copy, Debug)]
pub(crate) struct Tail {
    // names below `top` down to the group, joined by `/`; nothing where they would be too long
    text: ArrayString<MAX_TAIL>,
    // group where the text begins
    top: GroupId,
}

impl Tail {
    // Tail without a text.
    pub(crate) fn none() -> Tail
        ensures { result.text.bytes ≡ [] }
    {
        Tail {
            text: ArrayString::new(),
            top: 0,
        }
    }

    // Tail of the name of a group alone.
    pub(crate) fn of_name(parent: GroupId, name: &str) -> Tail
        ensures top { result.top ≡ parent }
        ensures text { 0 < length result.text.bytes → result.text.bytes ≡ name.now }
    {
        let mut text = ArrayString::new();
        if name.len() <= MAX_TAIL {
            text.push_str(name);
        }
        Tail { text, top: parent }
    }

    // Tail of a child with this name, of a group that has this tail.
    pub(crate) fn of_child(&self, name: &str) -> Tail
        ensures { (groups : List (ℕ × GroupFields)) (id child : ℕ)
            → IsTailOf groups self.now id → child_of groups id name.now ≡ Some child
            → IsTailOf groups result child }
    {
        if self.text.is_empty() || self.text.remaining_capacity() <= name.len() {
            return Tail::none();
        }
        let mut text = self.text;
        text.push_str("/");
        text.push_str(name);
        Tail {
            text,
            top: self.top,
        }
    }

    // Whether it has no text.
    pub(crate) fn is_none(&self) -> bool
        ensures { result ≡ (length self.now.text.bytes == 0) }
    {
        self.text.is_empty()
    }

    // Group where it begins.
    pub(crate) fn top(&self) -> GroupId
        ensures { result ≡ self.now.top }
    {
        self.top
    }

    // Names from there down to the group, joined by `/`.
    pub(crate) fn text(&self) -> &str
        ensures { result.now ≡ self.now.text.bytes }
    {
        self.text.as_str()
    }
}
