//! The plan of an instance: the slices that each group gets in one period.
#![tactic(auto)]

mod by_depth;
mod by_rows;
mod children;
mod counted_parts;
mod laws;
mod plan_type;
mod share;

pub use by_depth::{plan_gathered, plan_gathered_counted, plan_levels, plan_levels_counted};
pub use by_rows::{plan, plan_counted, plan_rows, plan_rows_counted};
pub use children::{ChildValues, child_values, child_weights};
pub use laws::{piece_numbers, there_is_one_plan};
pub use plan_type::Plan;
