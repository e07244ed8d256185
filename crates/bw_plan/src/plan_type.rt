//! The plan of an instance, as a value.

/// The amounts that the groups get in one period.
#[derive(Debug, Drop)]
pub struct Plan {
    /// One amount per row, in slices.
    pub amounts: Vec<u64>,
}
