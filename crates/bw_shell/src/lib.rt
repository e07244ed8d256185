//! The shell of the arbiter: reads a script line by line from any reader, and writes each line's
//! answer to any writer.
//!
//! Errors are handed on by `match` where a written proof speaks of them. After `?` an error is what
//! `From` gives, and each of those proofs would have to undo that.
#![tactic(auto)]

mod keys;
mod laws;
mod newline;
mod piece;
mod responder;
mod script;
mod session;
mod status;
mod waiting;

pub use bw_commands::{LINE_BYTES, ScriptFault};
pub use laws::script_numbers;
pub use script::{run, run_gated};
pub use status::status_of_run;
