//! Limits and defaults of groups that only the tree uses. The others are in `bw_model::limits`.

/// Maximum length of a group's name in bytes, as of a directory's.
pub const MAX_NAME: usize = 255;

/// Maximum length in bytes of a name that its group stores in place, without an allocation.
pub const MAX_SHORT_NAME: usize = 24;

/// Weight of a new group (`cpu.weight` in cgroup-v2.rst, "CPU Interface Files").
pub const DEFAULT_WEIGHT: u64 = 100;

/// Period of a new group in microseconds, on every host (`cpu.max` in cgroup-v2.rst, "CPU
/// Interface Files").
pub const DEFAULT_PERIOD_US: u64 = 100_000;

/// Id of the first new group of a tree. The root has 0.
pub const FIRST_ID: u64 = 1;
