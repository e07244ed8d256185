//! The check of a plan by its certificate, without the planner.
#![tactic(auto)]

mod checking;
mod conditions;
mod fault;
mod laws;
mod marks;
mod one_pass;
mod readers;
mod tables;
mod verdict;

pub use checking::{check, check_rows};
pub use fault::CheckFault;
pub use laws::{free_is_accepted, one_plan};
pub use verdict::Verdict;
