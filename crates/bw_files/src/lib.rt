//! Reads and writes the texts of a group's files.
#![tactic(auto)]

mod fault;
mod laws;
mod ranges;
mod reading;
mod writing;

pub use fault::FileFault;
pub use laws::written_is_read;
pub use ranges::{check_burst, check_period, check_quota, check_weight};
pub use reading::{MaxWrite, read_burst, read_max, read_weight};
pub use writing::{put_burst, put_max, put_stat, put_weight};
