//! Demand: what the groups of an instance want, and what they can be given.
#![tactic(auto)]

mod by_depth;
mod by_rows;
mod depths;
mod gathered;
mod laws;
mod limiting_groups;
mod one_row;
mod row_figures;

pub use by_depth::gather;
pub use by_rows::gather_rows;
pub use depths::levels;
pub use gathered::{Figures, Gathered, Limiting};
pub use laws::{allocations_join, amounts_are_reached, bounds_hold, most_is_the_want_cut};
pub use limiting_groups::limiting;
pub use row_figures::{figures, withheld_slices};
