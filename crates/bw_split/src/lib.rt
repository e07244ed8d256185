//! The best split of an amount of slices among siblings, and the level of a split.
//!
//! [`split`] searches for a level of cost in a fixed number of rounds. [`split_by_marks`] is the
//! plain program, which gives one slice at a time. Both have the same contract, and one list alone
//! meets it.
#![tactic(auto)]

mod at_level;
mod by_marks;
mod conditions;
mod counted;
mod ends;
mod guess;
mod laws;
mod level;
mod level_search;
pub mod limits;
mod narrow;
mod pair;

pub use by_marks::split_by_marks;
pub use conditions::{can_split, fits_in};
pub use counted::{Work, split, split_counted, split_scarce};
pub use laws::{no_move_gains, split_numbers};
pub use level::level_of;
pub use narrow::{narrowed, sum_of};
