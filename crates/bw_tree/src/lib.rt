//! Tree of groups. Each call changes the list of groups exactly as its clause says, or is refused
//! and changes nothing.
#![tactic(auto)]

mod carry;
mod child_index;
mod entry;
mod fault;
mod group;
mod group_map;
mod id_hash;
mod laws;
pub mod limits;
mod name;
mod names;
mod node;
mod path_hash;
mod paths;
mod refusals;
mod room;
mod setting;
mod snapshot;
mod tail;
mod tree;

pub use carry::{is_drawn_within, left_of, period_limit};
pub use entry::Entry;
pub use fault::TreeFault;
pub use group::{Group, GroupId};
pub use laws::{bursts_are_bounded, carries_need_a_burst, new_group_numbers, paths_are_exact};
pub use name::Name;
pub use names::split_front;
pub use snapshot::Snapshot;
pub use tree::Tree;
