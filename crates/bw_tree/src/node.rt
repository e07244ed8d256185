//! Nodes of the tree: the number of children, the depth, the parent's place, the front and the tail
//! of each group, in their order.
ghost use Rattle.std.specs.Prelude.{◌≡◌, ◌<◌, ◌+◌, ◌^◌, ◌++◌, [], ◌∷◌, length, slice_set};
ghost use Rattle.std.specs.Prelude.{vec_len, vec_capacity, remove, ℕ, List, Some};
ghost use Rattle.bw_tree.specs.Groups.{GroupFields, child_of};
ghost use Rattle.bw_tree.specs.Tails.{IsTailOf};
ghost use Rattle.bw_tree.specs.Nodes.{root_node, leaf_below, node_at, one_child_more};
ghost use Rattle.bw_tree.specs.Nodes.{one_child_less, lowered, lowered_from};
ghost use Rattle.bw_tree.specs.Keys.{with_bytes};

use crate::group::Group;
use crate::path_hash::PathHash;
use crate::tail::Tail;

// Node of a group in the tree.
#[derive(Clone, Copy, Debug)]
pub(crate) struct Node {
    // number of its children
    pub(crate) children: u32,
    // depth: number of groups above it, 0 for the root
    pub(crate) depth: u32,
    // place of its parent, 0 for the root
    pub(crate) above: u32,
    // start of the paths of its children: its own path and `/`, nothing for the root
    pub(crate) front: PathHash,
    // end of its own path
    pub(crate) tail: Tail,
}

impl Node {
    // Node of a root without children.
    pub(crate) fn root() -> Node
        ensures node { result ≡ root_node result.tail }
        ensures tail { result.tail.text.bytes ≡ [] }
    {
        Node {
            children: 0,
            depth: 0,
            above: 0,
            front: PathHash::empty(),
            tail: Tail::none(),
        }
    }
}

// Hash of the path of a child with this name, below the node at a place.
pub(crate) fn path_below(nodes: &Vec<Node>, above: usize, seed: u64, name: &str) -> PathHash
    requires { above < length nodes.now.items }
    ensures { result ≡ with_bytes seed (node_at nodes.now.items above).front name.now }
{
    nodes[above].front.with_bytes(seed, name.as_bytes())
}

// Tail of a child with this name, below a group whose node is at a place. A child of the root has
// none: its own name is all of its path.
pub(crate) fn tail_below(nodes: &Vec<Node>, above: usize, group: &Group, name: &str) -> Tail
    requires { above < length nodes.now.items }
    ensures { (groups : List (ℕ × GroupFields)) (id child : ℕ)
        → IsTailOf groups (node_at nodes.now.items above).tail id
        → ((top : ℕ) → group.now.parent ≡ Some top
        → child_of groups top group.now.name ≡ Some id)
        → child_of groups id name.now ≡ Some child → IsTailOf groups result child }
{
    let Some(top) = group.parent else {
        return Tail::none();
    };
    let tail = &nodes[above].tail;
    if tail.is_none() {
        return Tail::of_name(top, group.name.as_str()).of_child(name);
    }
    tail.of_child(name)
}

// Appends a leaf below the node at a place. The caller has reserved room for it.
#[inline(always)]
pub(crate) fn push_leaf(nodes: &mut Vec<Node>, above: usize, front: PathHash, tail: Tail)
    requires within { above < length nodes.old.items }
    requires few { (node_at nodes.old.items above).children + 1 < 2 ^ 32 }
    requires shallow { (node_at nodes.old.items above).depth + 1 < 2 ^ 32 }
    requires fits { above < 2 ^ 32 }
    requires room { vec_len nodes.old < vec_capacity nodes.old }
    ensures { nodes.new.items
        ≡ slice_set nodes.old.items above (one_child_more (node_at nodes.old.items above))
        ++ leaf_below (node_at nodes.old.items above) above front tail ∷ [] }
{
    let node = &mut nodes[above];
    node.children += 1;
    let depth = node.depth + 1;
    nodes.push_reserved(Node {
        children: 0,
        depth,
        above: above as u32,
        front,
        tail,
    });
}

// Takes out the node at a place. Those behind it move up by one, and so do the places of parents.
pub(crate) fn take_node(nodes: &mut Vec<Node>, place: usize)
    requires { place < length nodes.old.items }
    ensures { nodes.new.items ≡ lowered_from place place (remove nodes.old.items place) }
{
    nodes.remove(place);
    for i in place..nodes.len() {
        lower(&mut nodes[i], place);
    }
}

// Lowers the place of a node's parent by one if it is behind a place.
fn lower(node: &mut Node, place: usize)
    ensures { node.new ≡ lowered place node.old }
{
    if node.above as usize > place {
        node.above -= 1;
    }
}

// Takes one child from the node at a place.
pub(crate) fn take_child(nodes: &mut Vec<Node>, above: usize)
    requires within { above < length nodes.old.items }
    requires some { 0 < (node_at nodes.old.items above).children }
    ensures { nodes.new.items
        ≡ slice_set nodes.old.items above (one_child_less (node_at nodes.old.items above)) }
{
    nodes[above].children -= 1;
}
