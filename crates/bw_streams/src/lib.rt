//! Input and output of the arbiter's programs: watched readers and writers, answers formed in a
//! buffer, and texts written whole.
#![tactic(auto)]

mod answer;
mod fault;
mod laws;
mod output;
mod reading;
mod sending;
mod watched;

pub use answer::{put, put_digits, put_last_word, put_number, put_number_line, put_refusal};
pub use fault::RunFault;
pub use laws::reads_are_limited;
pub use output::Output;
pub use reading::{PIECE_BYTES, READ_CALLS, piece_room};
pub use sending::{flush, send, send_line};
pub use watched::Watched;
