//! The gathered demands of an instance, their figures, and the groups that limit it.

/// Wants, greatest amounts and tight groups of an instance, one of each per row, in slices of one
/// period.
#[derive(Debug, Drop)]
pub struct Gathered {
    /// The amount that each group would take without its own limit.
    pub want: Vec<u64>,
    /// The most that each group can be given.
    pub most: Vec<u64>,
    /// Whether a group is tight: its own limit is below its want.
    pub tight: Vec<bool>,
}

/// The limiting groups of an instance, and the demands outside them.
///
/// The limits of the groups and the rest add up to the greatest total.
#[derive(Debug, Drop)]
pub struct Limiting {
    /// The tight groups without a tight ancestor, in row order.
    pub groups: Vec<u32>,
    /// The demands of the leaves that are under none of these groups, in slices of one period.
    pub rest: u64,
}

/// Figures of the gathered demands of an instance, one of each per row.
#[derive(Debug, Drop)]
pub struct Figures {
    /// Number of the children that can be given a slice: their most is above 0.
    pub active: Vec<u32>,
    /// Sum of the weights of these children.
    pub active_weight: Vec<u64>,
    /// Slices of one period that the group's own limit withholds of its want, 0 for the root.
    pub withheld: Vec<u64>,
}
