//! Workers that draw the slices of one period, one for each processor.
#![tactic(auto)]

mod draws;
mod fault;
mod gate;
mod serving;
mod threads;
mod worker;

pub use fault::ServeFault;
pub use gate::{Gate, NoGate};
pub use serving::{Served, serve};
