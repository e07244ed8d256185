//! The answer of the check.

use crate::fault::CheckFault;

/// The answer of the check: amounts are certified, or the first fault and its row.
#[derive(Clone, Copy, Debug, PartialEq, Eq)]
pub enum Verdict {
    /// The certificate shows that the amounts are the plan.
    Accepted,
    /// The first fault by its number, and the first row that has it, from 0. `WrongLength` and
    /// `NotGreatest` name row 0.
    Refused { fault: CheckFault, group: u32 },
}
