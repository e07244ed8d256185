//! Machines that seats share, the histories of their calls, and the interleaving core of the seats;
//! and a count for contracts alone.
#![tactic(auto)]

mod count;
mod history;
mod laws;
mod machine;
mod seats;

pub use count::Count;
pub use history::{Entry, Made};
pub use laws::{every_schedule, own_calls_stand};
pub use machine::Machine;
pub use seats::{CoreEvent, Phase};
