//! The ranges of the numbers of a trace.

/// Maximum number of processors.
pub const MAX_PROCESSORS: u64 = 1_024;

/// Maximum slice in nanoseconds, one second.
pub const MAX_SLICE_NS: u64 = 1_000_000_000;

/// Maximum amount of a leaf.
pub const MAX_AMOUNT: u64 = 1_000_000;

/// Maximum quantum, slack and credit in nanoseconds, four seconds.
pub const MAX_TERM_NS: u64 = 4_000_000_000;
