//! The limits of a pool.
use bw_model::limits::MAX_PROCESSORS;

/// Greatest number of seats of a core: one for each processor.
pub const MAX_SEATS: u32 = MAX_PROCESSORS as u32;
