//! The least numbers that owners set with which the plan gives groups so much.
//!
//! An owner's number makes the weights of one or more rows: a request of a container those of the
//! container, of its pod and of the pod's class. All of them are in the answer, as kubelet, systemd
//! and container runtimes make them, rounding included. Of several numbers each is the least beside
//! the others.
#![tactic(auto)]

mod beside;
mod columns;
mod following;
mod given;
mod goals;
mod laws;
mod least;
mod numbered;
mod pass;
mod several;

pub use following::Following;
pub use goals::Goals;
pub use laws::{greater_settings_give_no_less, passes_are_few};
pub use several::{MAX_PASSES, Settling, settle};
