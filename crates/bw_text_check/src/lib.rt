//! The check of a certified text: reads it from any reader, and writes one line to any writer.
#![tactic(auto)]

mod laws;
mod status;
mod text_check;

pub use laws::text_numbers;
pub use status::status_of_check;
pub use text_check::{TEXT_BYTES, check_text};
