//! The parts of one group's amount with the count of their split, as a value.
use bw_split::Work;

/// The parts of what a group has, and the rounds and picks of their split.
#[derive(Drop)]
pub struct CountedParts {
    /// One part for each child in order, in slices.
    pub parts: Vec<u16>,
    /// The count, without data at run time.
    pub work: Work,
}
