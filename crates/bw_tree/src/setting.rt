//! Values of a group that are set in place.
use bw_model::Quota;

// Value that a file of a group sets.
#[derive(Clone, Copy, Debug, PartialEq, Eq)]
pub(crate) enum Setting {
    // 1 to 10000.
    Weight(u64),
    // No limit, or 1000 to 10^15 microseconds in each of its own periods.
    Limit(Quota),
    // 1000 to 1000000 microseconds.
    Period(u64),
    // 0 to 10^15 microseconds.
    Burst(u64),
}
