//! Counters of the groups over the booked periods, and the report of them.
#![tactic(auto)]

mod books;
mod laws;
mod report;

pub use books::{Books, add_period};
pub use laws::{counters_are_sums, has_one_each};
pub use report::{put_counters, put_report_line, report_head};
