//! Limits of rows away from all goals.

/// Limits with which weights of rows that may change meet all goals.
#[derive(Debug, Drop)]
pub enum Limited {
    /// The limit in force of each row, in slices: the capacity if nothing limits the row.
    Met(Vec<u64>),
    /// No limits from the lowest on will do.
    Unmet,
}
