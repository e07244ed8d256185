//! The commands of a script: each changes or reads a host and its tree of groups, and each has one
//! answer. `read_script` reads a whole script for its changes alone.
#![tactic(auto)]

mod answers;
mod change;
mod command;
mod fault;
mod heads;
mod lines;
mod marked;
mod plain;
mod reader;
mod reading;
mod refusal;
mod script_state;
mod span;
mod word;

pub use command::{Change, Command, LINE_BYTES, Question};
pub use fault::ScriptFault;
pub use marked::{MOST_MARKED, Marked, WIDE};
pub use reader::ScriptReader;
pub use reading::{ReadScript, RefusedLine, read_script};
pub use refusal::{REFUSAL_BYTES, put_error};
pub use script_state::Script;
