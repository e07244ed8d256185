//! Groups by their paths, their files, and the calls of the controller and the builder.
#![tactic(auto)]

mod builder;
mod by_path;
mod cgroup;
mod fault;
mod files;
mod group_file;
mod hierarchy;
mod keys;
mod laws;
mod settings;

pub use builder::{CgroupBuilder, CpuResources};
pub use cgroup::{Cgroup, CpuController, KeptCgroup};
pub use fault::Fault;
pub use group_file::{GroupFile, file_named};
pub use hierarchy::Hierarchy;
pub use keys::keys_of;
pub use laws::{bursts_are_within_quotas, write_changes_one_value};
