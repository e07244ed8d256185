//! The reasons.

/// Why a group gets what it gets.
#[derive(Clone, Copy, Debug, PartialEq, Eq)]
pub enum Reason {
    /// It wants nothing.
    NothingAsked,
    /// It gets all that it wants.
    AllWanted,
    /// It gets its own limit.
    OwnLimit,
    /// The group of this row, above it, gets its limit, and no group between the two does.
    LimitAbove(u32),
    /// The host gives out its capacity, and no group from this one up gets its limit.
    HostFull,
}
