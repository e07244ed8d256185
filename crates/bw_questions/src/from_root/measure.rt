//! The measure of a goal.

/// The measure of a goal: the amount of the plan, or the guarantee.
#[derive(Clone, Copy, Debug, PartialEq, Eq)]
pub enum Measure {
    /// The amount that the plan gives the group, by the demands as they are.
    Planned,
    /// The amount that the group gets whatever the groups that are not under it ask for.
    Guaranteed,
}
